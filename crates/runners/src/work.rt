// What a row works on, and what it reads there of one transition.
ghost use Rattle.std.specs.Prelude.{◌≡◌, ℕ, ◌<◌, min};
ghost use Rattle.card.specs.Card.{transition_at, arc_at};
ghost use Rattle.card.specs.Finite.{every};
ghost use Rattle.card.specs.View.{arc_in};
ghost use Rattle.hierarchy.specs.Conditions.{Meets};
ghost use Rattle.flattening.specs.Flattening.{flatten};
ghost use Rattle.runners.specs.State.{entry, transfer as transfer_of, remaining};
ghost use Rattle.runners.specs.Step.{allows as allows_of, candidate_on, degree, asked};
ghost use Rattle.runners.specs.Columns.{state_in, posted, begun, noted};

use crate::claims::{Claims, entry_at};
use crate::{State, Transfer, rules};
use card::MOST_TRANSITIONS;
use card::view::{Arc, CardView, Direction};

// The state that the row makes, the claims of unfinished transfers and those of candidates, and which transitions are candidates.
#[derive(Clone, Copy)]
pub struct Work {
    pub state: State,
    pub standing: Claims,
    pub claimed: Claims,
    pub candidates: [bool; MOST_TRANSITIONS],
}

// The degree of the signal of transition t.
#[tactic(auto, unfolding(flattening::specs::Flattening::flatten))]
fn degree_of(card: &CardView<'_>, t: u16, degrees: &[u16]) -> u16
    ensures { result ≡ degree (flatten card.now) degrees.now t }
{
    let signal = card.transition(t).signal;
    degrees.get(signal as usize).copied().unwrap_or(0)
}

// How far a transition moves: the smaller of what is asked of it and what remains of its transfer.
pub fn distance(
    card: &CardView<'_>,
    t: u16,
    starting: bool,
    transfer: Transfer,
    last: &[u16],
    row: &[u16],
) -> u16
    ensures { result ≡ min (asked (flatten card.now) starting (degree (flatten card.now) last.now t) (degree (flatten card.now) row.now t)) (remaining (flatten card.now) transfer) }
{
    let rest = transfer.remaining(card);
    if rest == 0 {
        return 0;
    }
    let asked = rules::asked(
        card,
        starting,
        degree_of(card, t, last),
        degree_of(card, t, row),
    );
    asked.min(rest)
}

impl Work {
    // A row begins on a state, with a board of zeros and no candidates.
    pub fn new(state: State) -> Work
        ensures { result ≡ begun state }
    {
        Work {
            state,
            standing: Claims::none(),
            claimed: Claims::none(),
            candidates: [false; MOST_TRANSITIONS],
        }
    }

    // The transfer of transition t; past the last one it is idle.
    pub fn transfer(&self, t: u16) -> Transfer
        ensures { result ≡ transfer_of self.now.state.transfers t }
    {
        self.state
            .transfers
            .get(t as usize)
            .copied()
            .unwrap_or(Transfer::Idle)
    }

    // Whether transition t is noted as a candidate; one past the last is none.
    pub fn is_noted(&self, t: u16) -> bool
        ensures { result ≡ noted self.now.candidates t }
    {
        self.candidates.get(t as usize).copied().unwrap_or(false)
    }

    // Whether the place that the arc names has the tokens, or the room, for the arc's whole weight beside the claims that stand.
    fn allows(&self, card: &CardView<'_>, arc: Arc) -> bool
        ensures { (t j : ℕ) → Meets card.now → j < (transition_at card.now t).arcs → arc_in arc ≡ arc_at card.now t j → result ≡ allows_of (flatten card.now) (posted self.now.standing) self.now.state.markings (arc_at (flatten card.now) t j) }
    {
        let p = card.flat_place(arc);
        let scale = u64::from(rules::scale(card));
        let m = entry_at(&self.state.markings, p);
        let w = scale * u64::from(arc.weight);
        match arc.direction {
            Direction::Draws => entry_at(&self.standing.owed, p) + w <= m,
            Direction::Fills => {
                let k = u64::from(card.place(arc.subnet, arc.place).capacity);
                m + entry_at(&self.standing.due, p) + w <= scale * k
            }
        }
    }

    // Whether each arc of transition t allows it to start.
    fn all_allow(&self, card: &CardView<'_>, t: u16) -> bool
        ensures { Meets card.now → result ≡ every (transition_at card.now t).arcs (λ j. allows_of (flatten card.now) (posted self.now.standing) self.now.state.markings (arc_at (flatten card.now) t j)) }
    {
        card.arcs(t).all(|arc| self.allows(card, arc))
    }

    // A candidate is an idle transition with a new degree above 0 that each of its arcs allows.
    #[tactic(auto, unfolding(crate::specs::Step::candidate_on, flattening::specs::Flattening::flatten))]
    pub fn is_candidate(&self, card: &CardView<'_>, t: u16, row: &[u16]) -> bool
        ensures { Meets card.now → result ≡ candidate_on (flatten card.now) (posted self.now.standing) (state_in self.now) row.now t }
    {
        self.transfer(t).is_idle() && 0 < degree_of(card, t, row) && self.all_allow(card, t)
    }
}
