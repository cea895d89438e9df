// The flat runner: the step on a card's flat card, which is a card of one subnet. Its tables are made from the card's, which are kept.
ghost use Rattle.std.specs.Prelude.{◌≡◌, true, length};
ghost use Rattle.hierarchy.specs.Judgement.{judge};
ghost use Rattle.flattening.specs.FlatCards.{flat_room};
ghost use Rattle.runners.specs.Calls.{flat_call};
ghost use Rattle.runners.specs.Answers.{IsRow};
ghost use Rattle.runners.specs.Nets.{flat_judged, IsNet};
ghost use Rattle.runners.specs.inner.Steps.{answer_of};

use crate::nets::Net;
use crate::places::{Capacity, by_place};
use crate::row::{NetView, called_row};
use crate::{Refusal, RowAnswer, State};
use card::TABLE;
use card::room::with_table;
use flattening::load_flat;
use hierarchy::CardRefusal;

// The order that names a flat card's one subnet.
pub const ORDER: [u16; 1] = [0];

// The flat card's row, with tables for the numbers of both cards that have room for them.
#[tactic(auto, using(crate::proofs::NetLaws::flat_loaded_meets, crate::proofs::CallLaws::flat_refused, crate::proofs::CallLaws::flat_row_called))]
fn flat_row_in(
    card: &[u8],
    state: &State,
    row: &[u16],
    numbers: &mut [u16],
    flat: &mut [u16],
) -> Result<State, Refusal>
    requires { flat_room (length card.now) (length numbers.old) (length flat.old) ≡ true }
    ensures { answer_of state.now result ≡ flat_call card.now state.now row.now }
{
    let loaded = load_flat(card, numbers, flat)?;
    let card = loaded.flat.view(flat);
    let full = by_place::<Capacity>(&card);
    called_row(&NetView::new(card, &full), &ORDER, state, row)
}

// The flat runner's row call: the step on the flat card. Two wrong ones that this rules out: one that reports a conflict before it looks at a
// claim, and one that leaves the markings untouched.
pub fn flat_row(card: &[u8], state: State, row: &[u16]) -> RowAnswer
    ensures { IsRow (flat_call card.now state row.now) result }
{
    let next = with_table(
        card.len(),
        &mut |numbers| {
            with_table(
                card.len(),
                &mut |flat| flat_row_in(card, &state, row, numbers, flat),
            )
        },
    );
    RowAnswer::new(state, next)
}

// The net of a card's flat card. Two wrong ones that this rules out: one that hands on the card's own net, and one that takes a refused card's
// header for a net.
#[tactic(auto, using(crate::proofs::NetLaws::flat_loaded_meets, crate::proofs::NetLaws::flat_loaded_starts))]
pub fn flat_net(card: &[u8]) -> Result<Net, CardRefusal>
    ensures { IsNet (flat_judged (judge card.now)) result }
{
    let mut numbers = [0; TABLE];
    let mut flat = [0; TABLE];
    let loaded = load_flat(card, &mut numbers, &mut flat)?;
    Ok(Net::whole(flat, loaded.flat))
}
