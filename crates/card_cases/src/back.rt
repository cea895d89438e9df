// The numbers of a card, in its order, taken apart into tables.
ghost use Rattle.std.specs.Prelude.{◌≡◌, ◌+◌, ◌≤◌, ◌++◌, length};
ghost use Rattle.arrayvec.specs.ArrayVec.{array_vec_len};

use crate::tables::Tables;
use arrayvec::ArrayVec;
use card::{
    ARC_FIELDS, HEADER_FIELDS, Head, MOST_ARCS, MOST_PLACES, MOST_SUBNETS, MOST_TRANSITIONS,
    PLACE_FIELDS, Rows, SUBNET_FIELDS, TABLE, TRANSITION_FIELDS,
};

// The most numbers of a card in rows of each kind.
const SUBNET_NUMBERS: usize = SUBNET_FIELDS * MOST_SUBNETS;

const PLACE_NUMBERS: usize = PLACE_FIELDS * MOST_PLACES;

const TRANSITION_NUMBERS: usize = TRANSITION_FIELDS * MOST_TRANSITIONS;

const ARC_NUMBERS: usize = ARC_FIELDS * MOST_ARCS * MOST_TRANSITIONS;

// What stands on a card: its head, and the rows of each kind, with room for those of any card, since the program takes no heap.
#[derive(Drop)]
pub struct CardRows {
    head: Head,
    subnets: ArrayVec<u16, SUBNET_NUMBERS>,
    places: ArrayVec<u16, PLACE_NUMBERS>,
    transitions: ArrayVec<u16, TRANSITION_NUMBERS>,
    arcs: ArrayVec<u16, ARC_NUMBERS>,
}

// The first n numbers, and those behind them; all, where there are fewer.
fn cut(numbers: &[u16], n: usize) -> (&[u16], &[u16]) {
    numbers.split_at(n.min(numbers.len()))
}

// Puts rows behind those of a table; nothing where there is no room, which no card that was read comes to.
fn push<const ROOM: usize>(table: &mut ArrayVec<u16, ROOM>, rows: &[u16])
    ensures { array_vec_len table.old + length rows.now ≤ ROOM → table.new.items ≡ table.old.items ++ rows.now }
{
    let _full = table.try_extend_from_slice(rows);
}

impl CardRows {
    // Those of a card that was read.
    pub fn of_card(numbers: &[u16; TABLE]) -> CardRows {
        let [version, subnets, signals, limit, scale, ..] = *numbers;
        let mut rows = CardRows {
            head: Head {
                version,
                signals,
                limit,
                scale,
            },
            subnets: ArrayVec::new(),
            places: ArrayVec::new(),
            transitions: ArrayVec::new(),
            arcs: ArrayVec::new(),
        };
        let mut rest = &numbers[HEADER_FIELDS..];
        for _ in 0..subnets {
            rest = rows.push_subnet(rest);
        }
        rows
    }

    // A subnet's row, its places and its transitions; the numbers behind them.
    fn push_subnet<'a>(&mut self, numbers: &'a [u16]) -> &'a [u16] {
        let (row, rest) = cut(numbers, SUBNET_FIELDS);
        let &[_parent, _kind, places, transitions] = row else {
            return rest;
        };
        push(&mut self.subnets, row);
        let (places, mut rest) = cut(rest, PLACE_FIELDS * usize::from(places));
        push(&mut self.places, places);
        for _ in 0..transitions {
            rest = self.push_transition(rest);
        }
        rest
    }

    // A transition's row and its arcs; the numbers behind them.
    fn push_transition<'a>(&mut self, numbers: &'a [u16]) -> &'a [u16] {
        let (row, rest) = cut(numbers, TRANSITION_FIELDS);
        let &[_signal, arcs, _rank] = row else {
            return rest;
        };
        push(&mut self.transitions, row);
        let (arcs, rest) = cut(rest, ARC_FIELDS * usize::from(arcs));
        push(&mut self.arcs, arcs);
        rest
    }

    // The tables, for a buffer of so many bytes.
    pub fn tables(&self, room: usize) -> Tables<'_> {
        Tables {
            head: self.head,
            rows: Rows {
                subnets: &self.subnets,
                places: &self.places,
                transitions: &self.transitions,
                arcs: &self.arcs,
            },
            room,
        }
    }
}
