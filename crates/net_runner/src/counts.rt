// The check's answer to a card, with the number of its signals, which a caller needs for a state's last slice.
ghost use Rattle.std.specs.Prelude.{◌≡◌, true, length};
ghost use Rattle.card.specs.Tables.{has_room};
ghost use Rattle.hierarchy.specs.Judgement.{judge, answer};
ghost use Rattle.net_runner.specs.Told.{check_told, counts_told, answer_told};
ghost use Rattle.net_runner.specs.Copies.{IsCounted};

use crate::told::Told;
use card::room::with_table;
use hierarchy::CardRefusal;
use hierarchy::check::load;

// An accepted card's numbers of subnets, places, transitions and signals, with a table for the card's numbers that has room for them.
fn counted_in(card: &[u8], numbers: &mut [u16]) -> Result<[usize; 4], CardRefusal>
    requires { has_room (length card.now) (length numbers.old) ≡ true }
    ensures { IsCounted (judge card.now) result }
{
    let index = load(card, numbers)?;
    let card = index.view(numbers);
    Ok([
        card.subnets() as usize,
        card.places() as usize,
        card.transitions() as usize,
        card.signals() as usize,
    ])
}

fn counted(card: &[u8]) -> Result<[usize; 4], CardRefusal>
    ensures { IsCounted (judge card.now) result }
{
    with_table(card.len(), &mut |numbers| counted_in(card, numbers))
}

// Stores the numbers of an accepted card.
pub fn check_into(card: &[u8], counts: &mut [usize; 4]) -> Result<usize, Told>
    ensures told { answer_told result ≡ check_told (answer card.now) }
    ensures counts_after { counts.new ≡ counts_told (judge card.now) counts.old }
{
    *counts = counted(card)?;
    Ok(0)
}
