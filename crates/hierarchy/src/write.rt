// Writing a card from tables into a lent buffer.
ghost use Rattle.card.specs.Rows.{on_rows};
ghost use Rattle.hierarchy.specs.Output.{written, write_rows, IsWritten};

use crate::WriteRefusal;
use crate::check::check;
use card::writer::{put_card, spell};
use card::{Head, Rows};

// Puts a card's bytes into a lent buffer, and says how many they are. Two wrong ones that this rules out: one that tells a short buffer as
// written, and one that tells how long the buffer is.
pub fn put_written(card: &[u8], out: &mut [u8]) -> Result<usize, WriteRefusal>
    ensures { IsWritten (written card.now out.old) result out.new }
{
    if !put_card(card, out) {
        return Err(WriteRefusal::Short(card.len()));
    }
    Ok(card.len())
}

// Writes the card that tables make: a head, and numbers in lent slices, row after row. It writes once nothing can refuse any more. Two
// wrong writers that this rules out: one that writes a card which the check turns back, and one that tests the buffer first.
pub fn write(head: Head, rows: &Rows<'_>, out: &mut [u8]) -> Result<usize, WriteRefusal>
    ensures { IsWritten (on_rows (write_rows head) rows.now out.old) result out.new }
{
    let text = spell(head, rows)?;
    let card = text.as_slice();
    check(card)?;
    put_written(card, out)
}
