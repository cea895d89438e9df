// Flattening: the flat card of a card, written into a lent buffer, or as tables beside the card's own. specs/ says which card it is.
#![tactic(auto)]

mod tables;

ghost use Rattle.std.specs.Prelude.{◌≡◌, true, length, IfOk};
ghost use Rattle.card.specs.Parsing.{read_card};
ghost use Rattle.card.specs.Tables.{IsTable, IsRoomFor};
ghost use Rattle.hierarchy.specs.Judgement.{judge};
ghost use Rattle.hierarchy.specs.Output.{IsWritten};
ghost use Rattle.flattening.specs.Flattening.{flatten_call};
ghost use Rattle.flattening.specs.FlatCards.{flat_room, IsFlatCard, IsFlatTable, IsLentFlat, IsFlattened, IsCheckedFlatCard};

use card::index::CardIndex;
use card::reader::has_room;
use card::room::with_table;
use card::{Counts, STARTS, TABLE};
use hierarchy::check::{checked, load};
use hierarchy::write::put_written;
use hierarchy::{CardRefusal, WriteRefusal};
use tables::flat_tables;

// The indexes of an accepted card and of its flat card.
#[derive(Clone, Copy)]
pub struct FlatCard {
    pub card: CardIndex,
    pub flat: CardIndex,
}

// The check's answer, and where the rows begin of the card that pass one read and of an accepted card's flat card.
#[derive(Clone, Copy)]
pub struct CheckedFlatCard {
    pub answer: Result<Counts, CardRefusal>,
    pub starts: [u32; STARTS],
    pub flat_starts: [u32; STARTS],
}

// Whether two tables of these lengths have room for the numbers of any card of so many bytes, and for those of its flat card.
fn has_flat_room(bytes: usize, size: usize, flat_size: usize) -> bool
    ensures { result ≡ flat_room bytes size flat_size }
{
    has_room(bytes, size) && size == flat_size
}

// Loads a card and makes the tables of its flat card, in lent tables of one length that have room for them.
fn load_flat_into(
    card: &[u8],
    numbers: &mut [u16],
    flat: &mut [u16],
) -> Result<FlatCard, CardRefusal>
    requires { flat_room (length card.now) (length numbers.old) (length flat.old) ≡ true }
    ensures numbers_len_unchanged { length numbers.new ≡ length numbers.old }
    ensures flat_len_unchanged { length flat.new ≡ length flat.old }
    ensures flat_card { IsFlatCard card.now result }
    ensures table { IsTable (read_card card.now) (length numbers.old) numbers.new }
    ensures flat_table { IsFlatTable (judge card.now) (length flat.old) flat.new }
    ensures flattened { IfOk result (IsFlattened card.now numbers.new flat.new) }
{
    flat.fill(0);
    let index = load(card, numbers)?;
    Ok(FlatCard {
        card: index,
        flat: flat_tables(&index.view(numbers), flat),
    })
}

// Loads a card, and makes the two tables of its flat card: no bytes are written or read in between, and the card's own tables are kept. Tables that
// may be too small, or are not of one length, are left as they were. (The choice of the tables is written out, as in `read`.) Two wrong ones that this rules out: one that makes a flat card of a
// refused card, and one that leaves an arc's place counted in its subnet.
#[tactic(auto, using(crate::proofs::FlatCardLaws::lent_flat, crate::proofs::FlatCardLaws::lent_flat_kept))]
pub fn load_flat(
    card: &[u8],
    numbers: &mut [u16],
    flat: &mut [u16],
) -> Result<FlatCard, CardRefusal>
    ensures numbers_len_unchanged { length numbers.new ≡ length numbers.old }
    ensures flat_len_unchanged { length flat.new ≡ length flat.old }
    ensures flat_card { IsFlatCard card.now result }
    ensures lent_flat { IsLentFlat card.now (flat_room (length card.now) (length numbers.old) (length flat.old)) numbers.old numbers.new flat.old flat.new }
    ensures flattened { flat_room (length card.now) (length numbers.old) (length flat.old) ≡ true → IfOk result (IsFlattened card.now numbers.new flat.new) }
{
    if has_flat_room(card.len(), numbers.len(), flat.len()) {
        return load_flat_into(card, numbers, flat);
    }
    let mut own = [0; TABLE];
    let mut own_flat = [0; TABLE];
    load_flat_into(card, &mut own, &mut own_flat)
}

// Loads a card and makes the tables of its flat card, for a caller that goes on with the card's own also where pass two turns it back. (Of a card that
// is turned back it is read once more.) Two wrong ones that this rules out: one whose starts are zeros wherever the card is turned back, and one that
// answers with the card's starts for its flat card's.
pub fn checked_flat(card: &[u8], numbers: &mut [u16], flat: &mut [u16]) -> CheckedFlatCard
    ensures numbers_len_unchanged { length numbers.new ≡ length numbers.old }
    ensures flat_len_unchanged { length flat.new ≡ length flat.old }
    ensures checked { IsCheckedFlatCard card.now result }
    ensures lent_flat { IsLentFlat card.now (flat_room (length card.now) (length numbers.old) (length flat.old)) numbers.old numbers.new flat.old flat.new }
{
    match load_flat(card, numbers, flat) {
        Ok(loaded) => {
            let starts = loaded.card.starts;
            let flat_starts = loaded.flat.starts;
            CheckedFlatCard {
                answer: Ok(loaded.card.counts),
                starts,
                flat_starts,
            }
        }
        Err(refusal) => {
            let mut own = [0; TABLE];
            let read = checked(card, &mut own);
            let starts = read.starts;
            let flat_starts = [0; STARTS];
            CheckedFlatCard {
                answer: Err(refusal),
                starts,
                flat_starts,
            }
        }
    }
}

// Flattens a card, with tables for its numbers and those of its flat card that have room for them.
fn flatten_in(
    card: &[u8],
    out: &mut [u8],
    numbers: &mut [u16],
    flat: &mut [u16],
) -> Result<usize, WriteRefusal>
    requires { flat_room (length card.now) (length numbers.old) (length flat.old) ≡ true }
    ensures { IsWritten (flatten_call card.now out.old) result out.new }
{
    let loaded = load_flat_into(card, numbers, flat)?;
    put_written(loaded.flat.view(flat).encode().as_slice(), out)
}

// The same, with a table for the card's numbers: the flat card's is as large.
fn flatten_beside(card: &[u8], out: &mut [u8], numbers: &mut [u16]) -> Result<usize, WriteRefusal>
    requires { IsRoomFor (length card.now) numbers.old }
    ensures { IsWritten (flatten_call card.now out.old) result out.new }
{
    with_table(card.len(), &mut |flat| flatten_in(card, out, numbers, flat))
}

// Flattens a card into a lent buffer. Two wrong flattenings that this rules out: one that leaves an arc's place counted in its subnet, and
// one that tells a short buffer before the card's own refusal.
pub fn flatten(card: &[u8], out: &mut [u8]) -> Result<usize, WriteRefusal>
    ensures { IsWritten (flatten_call card.now out.old) result out.new }
{
    with_table(
        card.len(),
        &mut |numbers| flatten_beside(card, out, numbers),
    )
}
