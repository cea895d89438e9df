// Spelling a card: its numbers, checked as the reader checks them, into bytes.
ghost use Rattle.std.specs.Prelude.{◌≡◌, length, leb};
ghost use Rattle.card.specs.Card.{Card};
ghost use Rattle.card.specs.Parsing.{read_card};
ghost use Rattle.card.specs.Writing.{encode};
ghost use Rattle.card.specs.Rows.{on_rows, read_rows};
ghost use Rattle.card.specs.Spelling.{IsSpelt, Lines, put_into};

use crate::bits::{put_field, too_wide};
use crate::layout::{Next, arc_step, start, step, width};
use crate::rows::Rows;
use crate::tables::number_at;
use crate::text::Text;
use crate::{CARD_BYTES, FormatFault, FormatRefusal, Head, TABLE};

// How tables that make no card are refused.
const BAD_TABLE: FormatRefusal = FormatRefusal {
    fault: FormatFault::BadTable,
    bit: 0,
};

// Spells the numbers of a card, field after field, until the card ends; no card has more than TABLE. (The numbers are counted: those past the table's
// end are 0, which no iterator over it would give.) A number that does not fit its field is not
// one of a card's (see Lines). Two wrong writers that this rules out: one that counts a byte too many, and one that refuses at the number of a
// field instead of its bit.
pub(crate) fn spell_numbers(numbers: &[u16]) -> Result<Text<CARD_BYTES>, FormatRefusal>
    ensures { (c : Card) → Lines c numbers.now → IsSpelt (read_card (encode c)) result }
{
    let mut bytes = [0; CARD_BYTES];
    let mut l = start();
    let mut at = 0;
    for n in 0..TABLE {
        let w = width(l);
        let v = number_at(numbers, n);
        if too_wide(v, w) {
            return Err(BAD_TABLE);
        }
        put_field(&mut bytes, at, w, v);
        l = match arc_step(l) {
            Some(m) => m,
            None => match step(l, v) {
                Ok(Next::More(m)) => m,
                Ok(Next::Done(_counts)) => return Ok(Text::of(bytes, (at + w + 7) / 8)),
                Err(fault) => return Err(FormatRefusal { fault, bit: at }),
            },
        };
        at += w;
    }
    Err(BAD_TABLE)
}

// Spells the card that tables make: a head, and numbers in lent slices, row after row. Two wrong writers that this rules out: one that
// lets a count differ from the rows, and one that cuts a number down to its field.
#[tactic(auto, using(crate::proofs::TableSpell::rows_ragged, crate::proofs::TableSpell::rows_uncounted, crate::proofs::TableSpell::rows_unfit), unfolding(crate::specs::Grammar::header))]
pub fn spell(head: Head, rows: &Rows<'_>) -> Result<Text<CARD_BYTES>, FormatRefusal>
    ensures { IsSpelt (on_rows (read_rows head) rows.now) result }
{
    if !rows.is_whole() || !rows.counts_match() || !rows.values_fit(head) {
        return Err(BAD_TABLE);
    }
    let numbers = rows.gather(head);
    spell_numbers(&numbers)
}

// Copies a card's bytes into a lent buffer, and says whether they had room. Two wrong copies that this rules out: one that says no once
// it has written, and one that goes on to the end of the buffer.
#[tactic(auto, using(crate::proofs::Copy::copy_none, crate::proofs::Copy::put_is))]
pub fn put_card(card: &[u8], out: &mut [u8]) -> bool
    ensures value { result ≡ leb (length card.now) (length out.old) }
    ensures out_after { out.new ≡ put_into card.now out.old }
{
    if out.len() < card.len() {
        return false;
    }
    out[..card.len()].copy_from_slice(card);
    true
}
