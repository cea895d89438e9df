// Layer 2: the conditions on a card's hierarchy. specs/ says what they are, what the check answers and what the writer leaves.
#![tactic(auto)]

mod arcs;
pub mod check;
mod children;
mod interfaces;
mod types;
pub mod write;

ghost use Rattle.std.specs.Prelude.{◌≡◌};
ghost use Rattle.hierarchy.specs.Numbers.{number, as_refusal, write_number, write_value};
ghost use Rattle.hierarchy.specs.declared.WriteRefusal.TheVariants.{Card};

use card::{FormatFault, FormatRefusal};

// Why a card is turned back: its format is at fault, or its hierarchy is. specs/Numbers.antt gives the paper's number of each.
#[derive(Clone, Copy, PartialEq, Eq, Debug)]
pub enum CardFault {
    Format(FormatFault),
    Unseen,
    Direction,
    Weight,
    Repeated,
    DeadLoop,
    NoUnit,
    NoInterface,
    Unlike,
}

impl CardFault {
    // The paper's number of a fault. Two wrong tables that this rules out: one that numbers a dead loop as a repeated arc, and one that numbers it
    // 17, behind the others.
    pub fn number(self) -> u64
        ensures { result ≡ number self }
    {
        match self {
            CardFault::Format(fault) => fault.number(),
            CardFault::Unseen => 10,
            CardFault::Direction => 11,
            CardFault::Weight => 12,
            CardFault::Repeated => 13,
            CardFault::DeadLoop => 26,
            CardFault::NoUnit => 14,
            CardFault::NoInterface => 15,
            CardFault::Unlike => 16,
        }
    }

    // Two wrong ones that this rules out: one that refuses at the first bit, and one that tells another fault.
    pub fn at(self, bit: usize) -> CardRefusal
        ensures { result ≡ record { fault = self; bit = bit } }
    {
        CardRefusal { fault: self, bit }
    }
}

// Why a card is turned back, and at which bit.
#[derive(Clone, Copy, PartialEq, Eq, Debug)]
pub struct CardRefusal {
    pub fault: CardFault,
    pub bit: usize,
}

impl From<FormatRefusal> for CardRefusal {
    ghost from_gives = { λ r e. e ≡ as_refusal r };

    fn from(r: FormatRefusal) -> CardRefusal {
        CardFault::Format(r.fault).at(r.bit)
    }
}

// Why nothing was written into a lent buffer: the card is turned back, or the buffer is too short and needs so many bytes.
#[derive(Clone, Copy, PartialEq, Eq, Debug)]
pub enum WriteRefusal {
    Card(CardRefusal),
    Short(usize),
}

// The paper's number of a buffer that is too short.
pub const SHORT_BUFFER: u64 = 24;

impl WriteRefusal {
    // The paper's number of a refusal. Two wrong tables that this rules out: one that numbers a short buffer as a bad table, and one that gives
    // each refused card that number.
    pub fn number(self) -> u64
        ensures { result ≡ write_number self }
    {
        match self {
            WriteRefusal::Card(r) => r.fault.number(),
            WriteRefusal::Short(_length) => SHORT_BUFFER,
        }
    }

    // What the paper gives beside the number: the bit, or the length that is needed. Two wrong ones that this rules out: one that leaves the length
    // out, and one that gives the byte for the bit.
    pub fn value(self) -> usize
        ensures { result ≡ write_value self }
    {
        match self {
            WriteRefusal::Card(r) => r.bit,
            WriteRefusal::Short(length) => length,
        }
    }
}

impl From<CardRefusal> for WriteRefusal {
    ghost from_gives = { λ r e. e ≡ Card r };

    fn from(r: CardRefusal) -> WriteRefusal {
        WriteRefusal::Card(r)
    }
}

impl From<FormatRefusal> for WriteRefusal {
    ghost from_gives = { λ r e. e ≡ Card (as_refusal r) };

    fn from(r: FormatRefusal) -> WriteRefusal {
        WriteRefusal::Card(CardRefusal::from(r))
    }
}
