// The fresh state of a card.
ghost use Rattle.std.specs.Prelude.{◌≡◌, true, length};
ghost use Rattle.card.specs.Tables.{has_room};
ghost use Rattle.hierarchy.specs.Conditions.{Meets};
ghost use Rattle.hierarchy.specs.Judgement.{Judgement};
ghost use Rattle.flattening.specs.Flattening.{flatten};
ghost use Rattle.runners.specs.Calls.{fresh_lent, fresh_of, fresh_call};
ghost use Rattle.runners.specs.Answers.{IsFreshState};

use crate::places::{Tokens, by_place};
use crate::{State, Transfer};
use card::room::with_table;
use card::view::CardView;
use card::{Counts, MOST_PLACES, MOST_SIGNALS, MOST_TRANSITIONS};
use hierarchy::CardRefusal;
use hierarchy::check::load;

// How many subnets, places and transitions an accepted card has, and its fresh state.
#[derive(Clone, Copy)]
pub struct FreshState {
    pub counts: Counts,
    pub state: State,
}

// The first tokens of each place, idle transitions, and degrees of zero.
#[tactic(auto, using(crate::proofs::FreshLaws::fresh_is))]
fn fresh_state(card: &CardView<'_>) -> State
    requires { Meets card.now }
    ensures { result ≡ fresh_lent (flatten card.now) }
{
    State {
        markings: by_place::<Tokens>(card),
        transfers: [Transfer::Idle; MOST_TRANSITIONS],
        degrees: [0; MOST_SIGNALS],
        places: card.places() as usize,
        transitions: card.transitions() as usize,
        signals: card.signals() as usize,
    }
}

// The fresh state, with a table for the card's numbers that has room for them.
#[tactic(auto, using(crate::proofs::NetLaws::loaded_meets, crate::proofs::FreshLaws::fresh_refused, crate::proofs::FreshLaws::fresh_accepted))]
fn fresh_in(card: &[u8], numbers: &mut [u16]) -> Result<FreshState, CardRefusal>
    requires { has_room (length card.now) (length numbers.old) ≡ true }
    ensures { IsFreshState (fresh_call card.now) result }
{
    let index = load(card, numbers)?;
    Ok(FreshState {
        counts: index.counts(),
        state: fresh_state(&index.view(numbers)),
    })
}

// The fresh state of a card, and the check's counts. Two wrong ones that this rules out: one that counts first tokens as thousandths, and one that makes a state of a
// refused card.
pub fn fresh(card: &[u8]) -> Result<FreshState, CardRefusal>
    ensures { IsFreshState (fresh_call card.now) result }
{
    with_table(card.len(), &mut |numbers| fresh_in(card, numbers))
}

// The state that a call is lent first: the fresh one, and of a refused card the blank state of no net. Two wrong ones that this rules out: one
// that hands a net's counts on where the card is refused, and one that hands out the blank state of each card.
pub fn first_state(fresh: &Result<FreshState, CardRefusal>) -> State
    ensures { (j : Judgement) → IsFreshState (fresh_of j) fresh.now → result ≡ (fresh_of j).1 }
{
    match fresh {
        Ok(fresh) => fresh.state,
        Err(_) => State {
            markings: [0; MOST_PLACES],
            transfers: [Transfer::Idle; MOST_TRANSITIONS],
            degrees: [0; MOST_SIGNALS],
            places: 0,
            transitions: 0,
            signals: 0,
        },
    }
}
