// A card's rows, out of the table of its numbers and the table of where they start. Each function takes any tables and any row: where there
// is no such entry, it gives 0.
ghost use Rattle.std.specs.Prelude.{◌≡◌, ◌+◌, ◌*◌, ◌≤◌, ◌<◌, length, get_or, set, replicate};
ghost use Rattle.card.specs.Index.{ArcThere, arc_of, place_field, arc_field, subnet_bit_start, first_place_start, first_transition_start, transition_row_start, transition_bit_start};
ghost use Rattle.card.specs.Format.{size};
ghost use Rattle.card.specs.Grammar.{transition, arc};

use crate::bits::put_entry;
use crate::layout::{ARC, TRANSITION, row_width};
use crate::{
    ARC_FIELDS, FIRST_PLACES, FIRST_TRANSITIONS, PLACE_FIELDS, SUBNET_BITS, SUBNET_FIELDS,
    TRANSITION_BITS, TRANSITION_FIELDS, TRANSITION_ROWS,
};

// Entry i of a slice, and 0 past its end.
pub fn number_at(numbers: &[u16], i: usize) -> u16
    ensures { result ≡ get_or numbers.now i 0 }
{
    numbers.get(i).copied().unwrap_or(0)
}

fn start_at(starts: &[u32], i: usize) -> u32
    ensures { result ≡ get_or starts.now i 0 }
{
    starts.get(i).copied().unwrap_or(0)
}

// Stores zeros in a table. Two wrong ones that this rules out: one that leaves the last number, and one that stores zeros up to the first zero.
pub fn clear(numbers: &mut [u16])
    ensures { numbers.new ≡ replicate (length numbers.old) 0 }
{
    numbers.fill(0);
}

// Stores entry i of a slice; past its end it stores nothing.
pub fn put_number(numbers: &mut [u16], i: usize, v: u16)
    ensures { numbers.new ≡ set numbers.old i v }
{
    put_entry(numbers, i, v);
}

pub fn put_wide(numbers: &mut [u32], i: usize, v: u32)
    ensures { numbers.new ≡ set numbers.old i v }
{
    put_entry(numbers, i, v);
}

// Number k of a place: n counts from the first of the subnet whose row begins at row.
#[tactic(auto, unfolding(crate::specs::Index::place_field, crate::specs::Format::count, crate::specs::Grammar::subnet, crate::specs::Grammar::place))]
fn place_number(numbers: &[u16], row: u32, n: u16, k: u16) -> u16
    ensures { result ≡ get_or numbers.now (place_field row n k) 0 }
{
    number_at(
        numbers,
        row as usize + SUBNET_FIELDS + PLACE_FIELDS * n as usize + k as usize,
    )
}

// Where the numbers of an arc begin: j counts from the first of the transition whose row begins at row.
#[tactic(auto, unfolding(crate::specs::Index::arc_field, crate::specs::Format::count, crate::specs::Grammar::transition, crate::specs::Grammar::arc, crate::specs::Grammar::since))]
pub fn arc_start(row: u32, j: u16) -> usize
    ensures { (result ≡ arc_field row j 0) × (result ≤ 5000000000) }
{
    row as usize + TRANSITION_FIELDS + ARC_FIELDS * j as usize
}

// Number k of an arc.
fn arc_number(numbers: &[u16], row: u32, j: u16, k: u16) -> u16
    ensures { result ≡ get_or numbers.now (arc_field row j k) 0 }
{
    number_at(numbers, arc_start(row, j) + k as usize)
}

// A number as one of 16 bits: 0 for a larger one, which no count and no number of a row is.
pub fn narrow(n: usize) -> u16
    ensures { (n < 65536 → result ≡ n) × (65536 ≤ n → result ≡ 0) }
{
    u16::try_from(n).unwrap_or(0)
}

// The card's version, and how many signals there are.
pub fn version(numbers: &[u16]) -> u16
    ensures { result ≡ get_or numbers.now 0 0 }
{
    number_at(numbers, 0)
}

pub fn signals(numbers: &[u16]) -> u16
    ensures { result ≡ get_or numbers.now 2 0 }
{
    number_at(numbers, 2)
}

// What later versions bring: 0 below them.
pub fn limit(numbers: &[u16]) -> u16
    ensures { result ≡ get_or numbers.now 3 0 }
{
    number_at(numbers, 3)
}

pub fn scale(numbers: &[u16]) -> u16
    ensures { result ≡ get_or numbers.now 4 0 }
{
    number_at(numbers, 4)
}

// The fields of a subnet's row.
pub fn parent(numbers: &[u16], row: u32) -> u16
    ensures { result ≡ get_or numbers.now row 0 }
{
    number_at(numbers, row as usize)
}

pub fn subnet_type(numbers: &[u16], row: u32) -> u16
    ensures { result ≡ get_or numbers.now (row + 1) 0 }
{
    number_at(numbers, row as usize + 1)
}

pub fn place_count(numbers: &[u16], row: u32) -> u16
    ensures { result ≡ get_or numbers.now (row + 2) 0 }
{
    number_at(numbers, row as usize + 2)
}

pub fn transition_count(numbers: &[u16], row: u32) -> u16
    ensures { result ≡ get_or numbers.now (row + 3) 0 }
{
    number_at(numbers, row as usize + 3)
}

// The fields of a place.
pub fn kind(numbers: &[u16], row: u32, n: u16) -> u16
    ensures { result ≡ get_or numbers.now (place_field row n 0) 0 }
{
    place_number(numbers, row, n, 0)
}

pub fn capacity(numbers: &[u16], row: u32, n: u16) -> u16
    ensures { result ≡ get_or numbers.now (place_field row n 1) 0 }
{
    place_number(numbers, row, n, 1)
}

pub fn tokens(numbers: &[u16], row: u32, n: u16) -> u16
    ensures { result ≡ get_or numbers.now (place_field row n 2) 0 }
{
    place_number(numbers, row, n, 2)
}

// The fields of a transition's row.
pub fn signal(numbers: &[u16], row: u32) -> u16
    ensures { result ≡ get_or numbers.now row 0 }
{
    number_at(numbers, row as usize)
}

pub fn arc_count(numbers: &[u16], row: u32) -> u16
    ensures { result ≡ get_or numbers.now (row + 1) 0 }
{
    number_at(numbers, row as usize + 1)
}

pub fn rank(numbers: &[u16], row: u32) -> u16
    ensures { result ≡ get_or numbers.now (row + 2) 0 }
{
    number_at(numbers, row as usize + 2)
}

// The fields of an arc.
pub fn arc_direction(numbers: &[u16], row: u32, j: u16) -> u16
    ensures { result ≡ get_or numbers.now (arc_field row j 0) 0 }
{
    arc_number(numbers, row, j, 0)
}

pub fn arc_subnet(numbers: &[u16], row: u32, j: u16) -> u16
    ensures { result ≡ get_or numbers.now (arc_field row j 1) 0 }
{
    arc_number(numbers, row, j, 1)
}

pub fn arc_place(numbers: &[u16], row: u32, j: u16) -> u16
    ensures { result ≡ get_or numbers.now (arc_field row j 2) 0 }
{
    arc_number(numbers, row, j, 2)
}

pub fn arc_weight(numbers: &[u16], row: u32, j: u16) -> u16
    ensures { result ≡ get_or numbers.now (arc_field row j 3) 0 }
{
    arc_number(numbers, row, j, 3)
}

// A whole arc.
#[derive(Clone, Copy)]
pub struct Arc {
    pub direction: u16,
    pub subnet: u16,
    pub place: u16,
    pub weight: u16,
}

// Arc j of the transition whose row begins at row. Where its four numbers are there, one test is enough.
pub fn arc_at(numbers: &[u16], row: u32, j: u16) -> Arc
    ensures { ArcThere numbers.now row j (arc_of result) }
{
    let i = arc_start(row, j);
    if i + 3 < numbers.len() {
        return Arc {
            direction: numbers[i],
            subnet: numbers[i + 1],
            place: numbers[i + 2],
            weight: numbers[i + 3],
        };
    }
    Arc {
        direction: arc_direction(numbers, row, j),
        subnet: arc_subnet(numbers, row, j),
        place: arc_place(numbers, row, j),
        weight: arc_weight(numbers, row, j),
    }
}

// Where subnet s begins: its row among the numbers, and its first bit on the card.
pub fn subnet_row(starts: &[u32], s: u16) -> u32
    ensures { result ≡ get_or starts.now s 0 }
{
    start_at(starts, s as usize)
}

pub fn subnet_bit(starts: &[u32], s: u16) -> u32
    ensures { result ≡ get_or starts.now (subnet_bit_start s) 0 }
{
    start_at(starts, SUBNET_BITS + s as usize)
}

// The flat number of subnet s's first place, and of its first transition.
pub fn first_place(starts: &[u32], s: u16) -> u32
    ensures { result ≡ get_or starts.now (first_place_start s) 0 }
{
    start_at(starts, FIRST_PLACES + s as usize)
}

pub fn first_transition(starts: &[u32], s: u16) -> u32
    ensures { result ≡ get_or starts.now (first_transition_start s) 0 }
{
    start_at(starts, FIRST_TRANSITIONS + s as usize)
}

// Where transition t begins, and the first bit of its arc j.
pub fn transition_row(starts: &[u32], t: u32) -> u32
    ensures { result ≡ get_or starts.now (transition_row_start t) 0 }
{
    start_at(starts, TRANSITION_ROWS + t as usize)
}

pub fn transition_bit(starts: &[u32], t: u32) -> u32
    ensures { result ≡ get_or starts.now (transition_bit_start t) 0 }
{
    start_at(starts, TRANSITION_BITS + t as usize)
}

pub fn arc_bit(numbers: &[u16], starts: &[u32], t: u32, j: u16) -> usize
    ensures { result ≡ get_or starts.now (transition_bit_start t) 0 + size (transition (get_or numbers.now 0 0) 0) + size arc * j }
{
    transition_bit(starts, t) as usize
        + row_width(&TRANSITION, version(numbers)) as usize
        + row_width(&ARC, 0) as usize * j as usize
}
