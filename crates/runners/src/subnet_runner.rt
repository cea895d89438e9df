// The subnet runner: it visits the card's own subnets, in the order that is lent. Neither this module nor what it calls makes
// or reads a flat card.
ghost use Rattle.std.specs.Prelude.{◌≡◌, true, length};
ghost use Rattle.card.specs.Tables.{has_room};
ghost use Rattle.runners.specs.Calls.{subnet_call};
ghost use Rattle.runners.specs.Answers.{IsRow};
ghost use Rattle.runners.specs.inner.Steps.{answer_of};

use crate::places::{Capacity, by_place};
use crate::row::{NetView, called_row};
use crate::{Refusal, RowAnswer, State};
use card::room::with_table;
use hierarchy::check::load;

// The row call, with a table for the card's numbers that has room for them.
#[tactic(auto, using(crate::proofs::NetLaws::loaded_meets, crate::proofs::CallLaws::subnet_refused, crate::proofs::CallLaws::subnet_called))]
fn subnet_row_in(
    card: &[u8],
    state: &State,
    order: &[u16],
    row: &[u16],
    numbers: &mut [u16],
) -> Result<State, Refusal>
    requires { has_room (length card.now) (length numbers.old) ≡ true }
    ensures { answer_of state.now result ≡ subnet_call card.now order.now state.now row.now }
{
    let index = load(card, numbers)?;
    let card = index.view(numbers);
    let full = by_place::<Capacity>(&card);
    called_row(&NetView::new(card, &full), order, state, row)
}

// The subnet runner's row call. Two wrong ones that this rules out: one that tests the order in front of the state, and one that stores the
// degrees of a refused row.
pub fn subnet_row(card: &[u8], state: State, order: &[u16], row: &[u16]) -> RowAnswer
    ensures { IsRow (subnet_call card.now order.now state row.now) result }
{
    let next = with_table(
        card.len(),
        &mut |numbers| subnet_row_in(card, &state, order, row, numbers),
    );
    RowAnswer::new(state, next)
}
