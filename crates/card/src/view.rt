// A card in its two tables, as the layers above see it: contracts speak of the card, and the tables stay inside.
ghost use Rattle.std.specs.Prelude.{◌≡◌, ◌+◌, ◌*◌, ◌≤◌, ◌<◌, ℕ, suc, length, map};
ghost use Rattle.std.proofs.Common.{rules};
ghost use Rattle.card.specs.Card.{Card, no_place, no_arc, subnet_at, place_at, transition_at, arc_at, first_place, first_transition, flat_place, place_fields, arc_fields};
ghost use Rattle.card.specs.Format.{size};
ghost use Rattle.card.specs.Grammar.{transition, arc};
ghost use Rattle.card.specs.Index.{Lists};
ghost use Rattle.card.specs.Writing.{encode, subnet_bit, transition_bit, arc_bit};
ghost use Rattle.card.specs.View.{card_in, Holds, IsCounted, kind_from, direction_from, subnet_in, place_in, transition_in, arc_in, place_from, arc_from, places_of, arcs_of};

use crate::index::CardIndex;
use crate::layout::{ARC, TRANSITION, row_width};
use crate::row::{Row, RowsOf};
use crate::text::Text;
use crate::writer::spell_numbers;
use crate::{
    ARC_FIELDS, CARD_BYTES, Counts, FIRST_PLACES, FIRST_TRANSITIONS, PLACE_FIELDS, SUBNET_BITS,
    SUBNET_FIELDS, TRANSITION_BITS, TRANSITION_FIELDS, TRANSITION_ROWS,
};
use std::marker::Model;
use std::ops::Range;

// The kind of a place: an interface place takes arcs of its owner's parent, by its kind.
#[derive(Clone, Copy, PartialEq, Eq)]
pub enum Kind {
    Normal,
    In,
    Out,
    InOut,
}

// The direction of an arc: it draws from its place, or fills it.
#[derive(Clone, Copy, PartialEq, Eq)]
pub enum Direction {
    Draws,
    Fills,
}

// The rows of a card. A subnet lists so many places and transitions, a transition so many arcs; an arc's place is counted in the subnet that it names.
#[derive(Clone, Copy)]
pub struct Subnet {
    pub parent: u16,
    pub subnet_type: u16,
    pub places: u16,
    pub transitions: u16,
}

#[derive(Clone, Copy)]
pub struct Place {
    pub kind: Kind,
    pub capacity: u16,
    pub tokens: u16,
}

#[derive(Clone, Copy)]
pub struct Transition {
    pub signal: u16,
    pub arcs: u16,
    pub rank: u16,
}

#[derive(Clone, Copy)]
pub struct Arc {
    pub direction: Direction,
    pub subnet: u16,
    pub place: u16,
    pub weight: u16,
}

// A card's numbers, field after field, and its index. That the card meets the conditions is no part of the invariant: the check looks at a view of
// which it is still to be found.
#[derive(Drop)]
pub struct CardView<'a> {
    numbers: &'a [u16],
    index: &'a CardIndex,
}

impl<'a> Model for CardView<'a> {
    ghost use Rattle.card.specs.Card.{Card};
    ghost use Rattle.card.specs.View.{card_in, Holds};

    ghost Value = { Card };

    ghost view = { λ v. card_in v.numbers.now };

    ghost invariant = { λ v. Holds (card_in v.numbers.now) v.numbers.now v.index.now };
}

// The number that a card has for a direction.
impl From<Direction> for u16 {
    ghost use Rattle.std.specs.Prelude.{◌≡◌};
    ghost use Rattle.card.specs.View.{direction_number};

    ghost from_gives = { λ direction number. number ≡ direction_number direction };

    fn from(direction: Direction) -> u16 {
        match direction {
            Direction::Draws => 0,
            Direction::Fills => 1,
        }
    }
}

// No card has another number for a kind or a direction. Functions and no From: not every number of 16 bits is one of a kind.
#[inline(always)]
fn kind_of(number: u16) -> Kind
    ensures { result ≡ kind_from number }
{
    match number {
        0 => Kind::Normal,
        1 => Kind::In,
        2 => Kind::Out,
        _ => Kind::InOut,
    }
}

#[inline(always)]
fn direction_of(number: u16) -> Direction
    ensures { result ≡ direction_from number }
{
    match number {
        0 => Direction::Draws,
        _ => Direction::Fills,
    }
}

impl Row for Place {
    const FIELDS: usize = PLACE_FIELDS;

    ghost FIELDS = { place_fields };

    ghost made = { place_from };

    ghost some = { Prim.search rules };

    #[inline(always)]
    fn of(numbers: &[u16]) -> Place {
        Place {
            kind: kind_of(numbers[0]),
            capacity: numbers[1],
            tokens: numbers[2],
        }
    }
}

impl Row for Arc {
    const FIELDS: usize = ARC_FIELDS;

    ghost FIELDS = { arc_fields };

    ghost made = { arc_from };

    ghost some = { Prim.search rules };

    #[inline(always)]
    fn of(numbers: &[u16]) -> Arc {
        Arc {
            direction: direction_of(numbers[0]),
            subnet: numbers[1],
            place: numbers[2],
            weight: numbers[3],
        }
    }
}

impl CardIndex {
    // The card, with the table that holds its numbers. Two wrong programs that this rules out: one that leaves the version out of what it views,
    // and a caller that views a flat card's numbers by the card's own index.
    pub fn view<'a>(&'a self, numbers: &'a [u16]) -> CardView<'a>
        requires { Holds (card_in numbers.now) numbers.now self.now }
        ensures { result ≡ card_in numbers.now }
    {
        CardView {
            numbers,
            index: self,
        }
    }
}

impl<'a> CardView<'a> {
    pub fn counts(&self) -> Counts
        ensures { IsCounted self.now result }
    {
        self.index.counts
    }

    pub fn subnets(&self) -> u16
        ensures value { result ≡ length self.now.subnets }
        ensures few { result ≤ 32 }
    {
        self.index.counts.subnets
    }

    pub fn places(&self) -> u16
        ensures value { result ≡ length self.now.places }
        ensures few { result ≤ 255 }
    {
        self.index.counts.places
    }

    pub fn transitions(&self) -> u16
        ensures value { result ≡ length self.now.transitions }
        ensures few { result ≤ 255 }
    {
        self.index.counts.transitions
    }

    pub fn version(&self) -> u16
        ensures { result ≡ self.now.version }
    {
        self.numbers[0]
    }

    pub fn signals(&self) -> u16
        ensures value { result ≡ self.now.signals }
        ensures few { result ≤ 63 }
    {
        self.numbers[2]
    }

    pub fn limit(&self) -> u16
        ensures { result ≡ self.now.limit }
    {
        self.numbers[3]
    }

    pub fn scale(&self) -> u16
        ensures { result ≡ self.now.scale }
    {
        self.numbers[4]
    }

    // A row past the last holds zeros.
    pub fn subnet(&self, s: u16) -> Subnet
        ensures { subnet_in result ≡ subnet_at self.now s }
    {
        if self.index.counts.subnets <= s {
            return Subnet {
                parent: 0,
                subnet_type: 0,
                places: 0,
                transitions: 0,
            };
        }
        let row = self.index.starts[s as usize] as usize;
        Subnet {
            parent: self.numbers[row],
            subnet_type: self.numbers[row + 1],
            places: self.numbers[row + 2],
            transitions: self.numbers[row + 3],
        }
    }

    // Past the subnet's places, zeros.
    pub fn place(&self, s: u16, n: u16) -> Place
        ensures value { n < (subnet_at self.now s).places → place_in result ≡ place_at self.now (first_place self.now s + n) }
        ensures past { (subnet_at self.now s).places ≤ n → place_in result ≡ no_place }
    {
        if self.subnet(s).places <= n {
            return Place {
                kind: Kind::Normal,
                capacity: 0,
                tokens: 0,
            };
        }
        let row = self.index.starts[s as usize] as usize;
        let at = row + SUBNET_FIELDS + PLACE_FIELDS * n as usize;
        Place::of(&self.numbers[at..at + PLACE_FIELDS])
    }

    pub fn transition(&self, t: u16) -> Transition
        ensures { transition_in result ≡ transition_at self.now t }
    {
        if self.index.counts.transitions <= t {
            return Transition {
                signal: 0,
                arcs: 0,
                rank: 0,
            };
        }
        let row = self.index.starts[TRANSITION_ROWS + t as usize] as usize;
        Transition {
            signal: self.numbers[row],
            arcs: self.numbers[row + 1],
            rank: self.numbers[row + 2],
        }
    }

    // Past the transition's arcs, zeros.
    pub fn arc(&self, t: u16, j: u16) -> Arc
        ensures value { j < (transition_at self.now t).arcs → arc_in result ≡ arc_at self.now t j }
        ensures past { (transition_at self.now t).arcs ≤ j → arc_in result ≡ no_arc }
    {
        if self.transition(t).arcs <= j {
            return Arc {
                direction: Direction::Draws,
                subnet: 0,
                place: 0,
                weight: 0,
            };
        }
        let row = self.index.starts[TRANSITION_ROWS + t as usize] as usize;
        let at = row + TRANSITION_FIELDS + ARC_FIELDS * j as usize;
        Arc::of(&self.numbers[at..at + ARC_FIELDS])
    }

    // The places of a subnet, whose row is found once. Two wrong programs that this rules out: one that begins with the subnet's own numbers, and one
    // that gives a place too few.
    pub fn places_of(&self, s: u16) -> RowsOf<'a, Place>
        ensures rows { map place_in result ≡ places_of self.now s }
        ensures few { length result ≤ 255 }
    {
        if self.index.counts.subnets <= s {
            return RowsOf::new(&[]);
        }
        let first = self.index.starts[s as usize] as usize + SUBNET_FIELDS;
        let end = first + PLACE_FIELDS * self.subnet(s).places as usize;
        RowsOf::new(&self.numbers[first..end])
    }

    // The arcs of a transition, whose row is found once.
    pub fn arcs(&self, t: u16) -> RowsOf<'a, Arc>
        ensures rows { map arc_in result ≡ arcs_of self.now t }
        ensures few { length result ≤ 31 }
    {
        if self.index.counts.transitions <= t {
            return RowsOf::new(&[]);
        }
        let first = self.index.starts[TRANSITION_ROWS + t as usize] as usize + TRANSITION_FIELDS;
        let end = first + ARC_FIELDS * self.transition(t).arcs as usize;
        RowsOf::new(&self.numbers[first..end])
    }

    // The flat number of the subnet's first place: what all lower subnets list comes before it. This and the next, and the two of bits below, are a
    // look at one column of the index each: a function of the column would have all of these promises, or none.
    pub fn first_place(&self, s: u16) -> u16
        ensures value { result ≡ first_place self.now s }
        ensures few { result ≤ 255 }
    {
        let k = s.min(self.index.counts.subnets);
        self.index.starts[FIRST_PLACES + k as usize] as u16
    }

    fn first_transition(&self, s: u16) -> u16
        ensures value { result ≡ first_transition self.now s }
        ensures few { result ≤ 255 }
    {
        let k = s.min(self.index.counts.subnets);
        self.index.starts[FIRST_TRANSITIONS + k as usize] as u16
    }

    // The flat numbers of a subnet's own transitions.
    #[tactic(auto, using(crate::proofs::ViewLaws::first_transition_more))]
    pub fn transitions_of(&self, s: u16) -> Range<u16>
        ensures start { result.start ≡ first_transition self.now s }
        ensures end { result.end ≡ first_transition self.now (suc s) }
        ensures few { result.end ≤ 255 }
    {
        let first = self.first_transition(s);
        if self.subnets() <= s {
            return first..first;
        }
        first..self.first_transition(s + 1)
    }

    // The flat number of the place that an arc names.
    pub fn flat_place(&self, a: Arc) -> usize
        ensures { result ≡ flat_place self.now (arc_in a) }
    {
        self.first_place(a.subnet) as usize + a.place as usize
    }

    // Where rows begin on the card; past the last row, 0.
    pub fn subnet_bit(&self, s: u16) -> usize
        ensures value { s < length self.now.subnets → result ≡ subnet_bit self.now s }
        ensures past { length self.now.subnets ≤ s → result ≡ 0 }
        ensures small { result < 4294967296 }
    {
        if self.index.counts.subnets <= s {
            return 0;
        }
        self.index.starts[SUBNET_BITS + s as usize] as usize
    }

    pub fn transition_bit(&self, t: u32) -> usize
        ensures value { (i : ℕ) → Lists self.now i t → result ≡ transition_bit self.now i t }
        ensures past { length self.now.transitions ≤ t → result ≡ 0 }
        ensures small { result < 4294967296 }
    {
        if u32::from(self.index.counts.transitions) <= t {
            return 0;
        }
        self.index.starts[TRANSITION_BITS + t as usize] as usize
    }

    #[tactic(auto, unfolding(crate::specs::Grammar::arc, crate::specs::Format::size, crate::specs::Writing::arc_bit))]
    pub fn arc_bit(&self, t: u32, j: u16) -> usize
        ensures value { (i : ℕ) → Lists self.now i t → result ≡ arc_bit self.now i t j }
        ensures past { length self.now.transitions ≤ t → result ≡ size (transition self.now.version 0) + size arc * j }
    {
        self.transition_bit(t)
            + row_width(&TRANSITION, self.version()) as usize
            + row_width(&ARC, 0) as usize * j as usize
    }

    // The card's bytes. Two wrong spellings that this rules out: one of another version's widths, and one that counts a byte too many.
    pub fn encode(&self) -> Text<CARD_BYTES>
        ensures { result ≡ encode self.now }
    {
        match spell_numbers(self.numbers) {
            Ok(text) => text,
            Err(_refusal) => unreachable!(),
        }
    }
}
