// Layer 3: the step and the two runners. specs/ says what they do.
#![tactic(auto)]

ghost use Rattle.std.specs.Prelude.{◌≡◌, ◌≤◌, length, take};

use card::{MOST_PLACES, MOST_SIGNALS, MOST_TRANSITIONS};

mod claims;
pub mod codes;
pub mod flat_runner;
pub mod fresh;
mod guards;
pub mod nets;
mod order;
mod places;
pub mod replies;
mod row;
mod rules;
pub mod subnet_runner;
mod transfers;
mod verdict;
mod visits;
mod work;

// A transition is idle, or carrying and has come so many thousandths of its way. An enum of its own and no `Option`: the cases are the paper's.
#[derive(Clone, Copy, PartialEq, Eq)]
pub enum Transfer {
    Idle,
    Carrying(u16),
}

// A lent state: markings by flat place, transfers by flat transition, each signal's last degree. Of each array the net uses as many entries,
// from the first on, as the number below says: there is no heap here, and a state has room for any net's.
#[derive(Clone, Copy)]
pub struct State {
    pub markings: [u32; MOST_PLACES],
    pub transfers: [Transfer; MOST_TRANSITIONS],
    pub degrees: [u16; MOST_SIGNALS],
    pub places: usize,
    pub transitions: usize,
    pub signals: usize,
}

impl State {
    // The entries that the net uses. Two wrong ones that this rules out: one that hands out the whole array, and one that counts the markings by
    // the transitions.
    pub fn markings(&self) -> &[u32]
        ensures value { result.now ≡ take self.now.places self.now.markings }
        ensures long { self.now.places ≤ MOST_PLACES → length result.now ≡ self.now.places }
        ensures few { length result.now ≤ MOST_PLACES }
    {
        &self.markings[..self.places.min(MOST_PLACES)]
    }

    pub fn transfers(&self) -> &[Transfer]
        ensures value { result.now ≡ take self.now.transitions self.now.transfers }
        ensures long { self.now.transitions ≤ MOST_TRANSITIONS → length result.now ≡ self.now.transitions }
        ensures few { length result.now ≤ MOST_TRANSITIONS }
    {
        &self.transfers[..self.transitions.min(MOST_TRANSITIONS)]
    }

    pub fn degrees(&self) -> &[u16]
        ensures value { result.now ≡ take self.now.signals self.now.degrees }
        ensures long { self.now.signals ≤ MOST_SIGNALS → length result.now ≡ self.now.signals }
        ensures few { length result.now ≤ MOST_SIGNALS }
    {
        &self.degrees[..self.signals.min(MOST_SIGNALS)]
    }
}

// Why a call is turned back. specs/Numbers.antt gives the paper's number and value of each.
#[derive(Clone, Copy, PartialEq, Eq, Debug)]
pub enum Refusal {
    BadCard(hierarchy::CardRefusal),
    BadState,
    BadOrder,
    BadRow,
    BadDegree(usize),
    Conflict(usize),
}

// The reply, and the next state; where the row is refused, the state as it was. Both are always there, so that it is no `Result`.
#[derive(Clone, Copy)]
pub struct RowAnswer {
    pub reply: Result<(), Refusal>,
    pub state: State,
}
