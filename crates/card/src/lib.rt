// Layer 1: the card's format. specs/ says what a card is, how it is read and how it is written.
#![tactic(auto)]

mod bits;
pub mod fields;
pub mod index;
mod layout;
pub mod reader;
pub mod room;
pub mod row;
mod rows;
pub mod tables;
pub mod text;
pub mod view;
pub mod writer;

ghost use Rattle.std.specs.Prelude.{◌≡◌};
ghost use Rattle.card.specs.Numbers.{number};

pub use rows::Rows;

// The newest version of a card, the most subnets, and the most places or transitions, as the numbers of 16 bits that they are compared with.
pub const MAX_VERSION: u16 = 2;

pub const MAX_SUBNETS: u16 = 32;

pub const MAX_COUNT: u16 = 255;

// The most subnets, places, transitions and signals of a card, and the most arcs of a transition.
pub const MOST_SUBNETS: usize = MAX_SUBNETS as usize;

pub const MOST_PLACES: usize = MAX_COUNT as usize;

pub const MOST_TRANSITIONS: usize = MAX_COUNT as usize;

pub const MOST_SIGNALS: usize = 63;

pub const MOST_ARCS: usize = 31;

// How many numbers the header and a row have.
pub const HEADER_FIELDS: usize = layout::HEADER.len();

pub const SUBNET_FIELDS: usize = layout::SUBNET.len();

pub const PLACE_FIELDS: usize = layout::PLACE.len();

pub const TRANSITION_FIELDS: usize = layout::TRANSITION.len();

pub const ARC_FIELDS: usize = layout::ARC.len();

// The most numbers of a card.
pub const TABLE: usize = HEADER_FIELDS
    + SUBNET_FIELDS * MOST_SUBNETS
    + PLACE_FIELDS * MOST_PLACES
    + (TRANSITION_FIELDS + ARC_FIELDS * MOST_ARCS) * MOST_TRANSITIONS;

// The most bytes of a card (`bytes_few` in proofs/Length.antt).
pub const CARD_BYTES: usize = 22770;

// Cards of up to so many bytes, a robot's among them, get by with a table of so many numbers: a card has at least a bit for each of its numbers.
pub const SMALL_CARD: usize = 256;

pub const SMALL_TABLE: usize = 8 * SMALL_CARD;

// Of a longer input as many bytes decide (`long_input` in proofs/LongInput.antt).
pub const INPUT_BYTES: usize = CARD_BYTES + 1;

// The second table, column by column (specs/Index.antt): where each begins behind the rows of subnets, and where the last one ends.
pub const SUBNET_BITS: usize = MOST_SUBNETS + 1;

pub const FIRST_PLACES: usize = 2 * SUBNET_BITS;

pub const FIRST_TRANSITIONS: usize = 3 * SUBNET_BITS;

pub const TRANSITION_ROWS: usize = 4 * SUBNET_BITS;

pub const TRANSITION_BITS: usize = TRANSITION_ROWS + MOST_TRANSITIONS + 1;

pub const STARTS: usize = TRANSITION_BITS + MOST_TRANSITIONS + 1;

// What a card's tables have beside its rows. The limit and the scale are of later versions, and 0 below them.
#[derive(Clone, Copy, PartialEq, Eq, Debug)]
pub struct Head {
    pub version: u16,
    pub signals: u16,
    pub limit: u16,
    pub scale: u16,
}

// How many subnets, places and transitions a card lists.
#[derive(Clone, Copy, PartialEq, Eq, Debug)]
pub struct Counts {
    pub subnets: u16,
    pub places: u16,
    pub transitions: u16,
}

// Why bytes, or tables, are no card. specs/Numbers.antt gives the paper's number of each.
#[derive(Clone, Copy, PartialEq, Eq, Debug)]
pub enum FormatFault {
    Truncated,
    BadVersion,
    BadSize,
    BadParent,
    BadType,
    BadCount,
    BadPlace,
    BadTransition,
    BadFill,
    BadTable,
}

impl FormatFault {
    // The paper's number of a fault. Two wrong tables that this rules out: one that numbers a bad table 10, as the first fault of the check, and one
    // that gives two faults the same number.
    pub fn number(self) -> u64
        ensures { result ≡ number self }
    {
        match self {
            FormatFault::Truncated => 1,
            FormatFault::BadVersion => 2,
            FormatFault::BadSize => 3,
            FormatFault::BadParent => 4,
            FormatFault::BadType => 5,
            FormatFault::BadCount => 6,
            FormatFault::BadPlace => 7,
            FormatFault::BadTransition => 8,
            FormatFault::BadFill => 9,
            FormatFault::BadTable => 17,
        }
    }
}

// Why bytes, or tables, are no card, and at which bit.
#[derive(Clone, Copy, PartialEq, Eq, Debug)]
pub struct FormatRefusal {
    pub fault: FormatFault,
    pub bit: usize,
}
