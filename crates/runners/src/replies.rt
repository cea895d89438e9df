// The paper's number and value of each refusal.
ghost use Rattle.std.specs.Prelude.{◌≡◌};
ghost use Rattle.runners.specs.Numbers.{refusal, number_of, value_of};
ghost use Rattle.runners.specs.declared.Refusal.TheVariants.{BadCard};

use crate::Refusal;
use hierarchy::CardRefusal;

impl From<CardRefusal> for Refusal {
    ghost from_gives = { λ r e. e ≡ BadCard r };

    fn from(r: CardRefusal) -> Refusal {
        Refusal::BadCard(r)
    }
}

impl Refusal {
    // Two wrong tables that this rules out: one that gives a conflict the number of a degree, and one that counts an order as a state.
    pub fn number(self) -> u64
        ensures { result ≡ number_of (refusal self) }
    {
        match self {
            Refusal::BadCard(r) => r.fault.number(),
            Refusal::BadRow => 20,
            Refusal::BadDegree(_signal) => 21,
            Refusal::Conflict(_place) => 22,
            Refusal::BadOrder => 23,
            Refusal::BadState => 25,
        }
    }

    // The signal or place, or a refused card's bit. Two wrong ones that this rules out: one that leaves out the bit, and one that gives a row of
    // another length a value.
    pub fn value(self) -> Option<usize>
        ensures { result ≡ value_of (refusal self) }
    {
        match self {
            Refusal::BadCard(r) => Some(r.bit),
            Refusal::BadDegree(signal) => Some(signal),
            Refusal::Conflict(place) => Some(place),
            Refusal::BadRow | Refusal::BadOrder | Refusal::BadState => None,
        }
    }
}
