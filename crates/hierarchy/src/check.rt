// The check: pass one by the layer below, then pass two.
ghost use Rattle.std.specs.Prelude.{◌≡◌, true, length, IfOk};
ghost use Rattle.card.specs.Parsing.{read_card};
ghost use Rattle.card.specs.Tables.{has_room, IsTable, IsLent};
ghost use Rattle.hierarchy.specs.Numbers.{check_outcome};
ghost use Rattle.hierarchy.specs.Check.{finding_of, check as first_fault};
ghost use Rattle.hierarchy.specs.Judgement.{answer, starts_read, IsChecked, IsAccepted, IsCheckedCard};

use crate::CardRefusal;
use crate::arcs::arcs_fault;
use crate::interfaces::interfaces_fault;
use crate::types::types_fault;
use card::index::CardIndex;
use card::reader::{has_room, read};
use card::view::CardView;
use card::{Counts, SMALL_TABLE, STARTS, TABLE};

// The check's answer, and where the rows begin of the card that pass one read.
#[derive(Clone, Copy)]
pub struct CheckedCard {
    pub answer: Result<Counts, CardRefusal>,
    pub starts: [u32; STARTS],
}

// The first fault of pass two.
#[tactic(auto, using(crate::proofs::CheckLaws::found_first, crate::proofs::CheckLaws::found_later), unfolding(crate::specs::Check::check))]
fn first_fault(card: &CardView<'_>) -> Result<(), CardRefusal>
    ensures { finding_of result ≡ first_fault card.now }
{
    arcs_fault(card)?;
    interfaces_fault(card)?;
    types_fault(card)
}

// Checks a card in a lent table that has room for it.
fn load_into(card: &[u8], numbers: &mut [u16]) -> Result<CardIndex, CardRefusal>
    requires { has_room (length card.now) (length numbers.old) ≡ true }
    ensures numbers_len_unchanged { length numbers.new ≡ length numbers.old }
    ensures checked { IsChecked card.now result }
    ensures table { IsTable (read_card card.now) (length numbers.old) numbers.new }
    ensures accepted { IfOk result (IsAccepted card.now numbers.new) }
{
    let index = read(card, numbers)?;
    first_fault(&index.view(numbers))?;
    Ok(index)
}

// Checks a card, for a caller that goes on with its tables: the numbers that pass one read are left in a lent table, as the reader leaves them, and
// make a view of an accepted card if the table has room. Two wrong checks that this rules out: one that looks at the types of subnets before
// their interface places, and one that clears the table of an accepted card. The choice of the table is written out, as in `read`.
pub fn load(card: &[u8], numbers: &mut [u16]) -> Result<CardIndex, CardRefusal>
    ensures numbers_len_unchanged { length numbers.new ≡ length numbers.old }
    ensures checked { IsChecked card.now result }
    ensures lent { IsLent (read_card card.now) (has_room (length card.now) (length numbers.old)) numbers.old numbers.new }
    ensures accepted { has_room (length card.now) (length numbers.old) ≡ true → IfOk result (IsAccepted card.now numbers.new) }
{
    if has_room(card.len(), numbers.len()) {
        return load_into(card, numbers);
    }
    let mut own = [0; TABLE];
    load_into(card, &mut own)
}

// Where the rows of a card begin, whatever pass two says of it; zeros where pass one refuses it.
#[tactic(auto, using(crate::proofs::CheckLaws::starts_whole, crate::proofs::CheckLaws::starts_none))]
fn starts_in(card: &[u8], numbers: &mut [u16]) -> [u32; STARTS]
    ensures numbers_len_unchanged { length numbers.new ≡ length numbers.old }
    ensures starts { result ≡ starts_read (read_card card.now) }
    ensures lent { IsLent (read_card card.now) (has_room (length card.now) (length numbers.old)) numbers.old numbers.new }
{
    let none = [0; STARTS];
    match read(card, numbers) {
        Ok(index) => index.starts,
        Err(_refusal) => none,
    }
}

// Checks a card, for a caller that goes on with its tables also where pass two turns it back: the answer and both tables of what pass one read. (Of a
// card that is turned back it is read once more.) Two wrong ones that this rules out: one whose starts are zeros wherever the card is turned back,
// and one that answers what pass one answers.
#[tactic(auto, using(crate::proofs::CheckLaws::starts_accepted, crate::proofs::CheckLaws::lent_again))]
pub fn checked(card: &[u8], numbers: &mut [u16]) -> CheckedCard
    ensures numbers_len_unchanged { length numbers.new ≡ length numbers.old }
    ensures checked { IsCheckedCard card.now result }
    ensures lent { IsLent (read_card card.now) (has_room (length card.now) (length numbers.old)) numbers.old numbers.new }
{
    match load(card, numbers) {
        Ok(index) => {
            let starts = index.starts;
            CheckedCard {
                answer: Ok(index.counts),
                starts,
            }
        }
        Err(refusal) => {
            let starts = starts_in(card, numbers);
            CheckedCard {
                answer: Err(refusal),
                starts,
            }
        }
    }
}

// Checks a card. Two wrong checks that this rules out: one that invents the counts, and one that answers with a later fault.
pub fn check(card: &[u8]) -> Result<Counts, CardRefusal>
    ensures { check_outcome result ≡ answer card.now }
{
    // A larger card is loaded into a table of its own.
    let mut numbers = [0; SMALL_TABLE];
    let index = load(card, &mut numbers)?;
    Ok(index.counts())
}
