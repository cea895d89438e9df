// Where the rows of a card stand: among its numbers, and on the card.
ghost use Rattle.std.specs.Prelude.{◌≡◌, ℕ, ◌+◌, ◌*◌, ◌≤◌, length, get_or, set};
ghost use Rattle.card.specs.Card.{Card};
ghost use Rattle.card.specs.Format.{count, size};
ghost use Rattle.card.specs.Grammar.{subnet, place, transition, arc};
ghost use Rattle.card.specs.Wellformed.{Wellformed};
ghost use Rattle.card.specs.Index.{Laid, starts_of};
ghost use Rattle.card.specs.inner.Indexing.{Moved, OnCard, put_subnet, AtSubnet, TransitionsIndexed};
ghost use Rattle.card.specs.inner.Runs.{Tells};

use crate::bits::put_entry;
use crate::layout::{ARC, HEADER, PLACE, SUBNET, TRANSITION, row_width};
pub use crate::tables::number_at;
use crate::tables::{arc_count, place_count, transition_count, version};
use crate::{
    ARC_FIELDS, Counts, FIRST_PLACES, FIRST_TRANSITIONS, HEADER_FIELDS, PLACE_FIELDS, STARTS,
    SUBNET_BITS, SUBNET_FIELDS, TRANSITION_BITS, TRANSITION_FIELDS, TRANSITION_ROWS,
};

// Where a card's rows begin, among its numbers and on the card, and how many it has.
#[derive(Clone, Copy)]
pub struct CardIndex {
    pub counts: Counts,
    pub starts: [u32; STARTS],
}

impl CardIndex {
    // Two wrong answers that this rules out: one that mixes up places and transitions, and one that counts the flat card's one subnet.
    pub fn counts(&self) -> Counts
        ensures { result ≡ self.now.counts }
    {
        self.counts
    }
}

// Where a row begins: at which number, and at which bit.
#[derive(Clone, Copy)]
struct Position {
    pub row: u32,
    pub bit: u32,
}

impl Position {
    // Whether it can be on a card. A walk ends where it is not, so that no sum overflows, whatever the table holds.
    fn is_on_card(self) -> bool
        ensures { Tells result (OnCard self) }
    {
        self.row <= 100000 && self.bit <= 1000000
    }

    // So many numbers and bits further on.
    fn after(self, numbers: u32, bits: u32) -> Position
        requires on_card { OnCard self }
        requires few_numbers { numbers ≤ 1000000 }
        requires few_bits { bits ≤ 10000000 }
        ensures { Moved self result numbers bits }
    {
        Position {
            row: self.row + numbers,
            bit: self.bit + bits,
        }
    }

    // Behind a transition and its arcs.
    #[tactic(auto, unfolding(crate::specs::Format::count, crate::specs::Format::size, crate::specs::Grammar::transition, crate::specs::Grammar::arc, crate::specs::Grammar::since))]
    fn after_transition(self, version: u16, arcs: u16) -> Position
        requires { OnCard self }
        ensures { Moved self result (count (transition 0 0) + count arc * arcs) (size (transition version 0) + size arc * arcs) }
    {
        self.after(
            TRANSITION_FIELDS as u32 + ARC_FIELDS as u32 * arcs as u32,
            row_width(&TRANSITION, version) + row_width(&ARC, version) * arcs as u32,
        )
    }

    // Behind a subnet's row and its places.
    #[tactic(auto, unfolding(crate::specs::Format::count, crate::specs::Format::size, crate::specs::Grammar::subnet, crate::specs::Grammar::place))]
    fn after_places(self, places: u16) -> Position
        requires { OnCard self }
        ensures { Moved self result (count (subnet 0 0 0) + count (place 0) * places) (size (subnet 0 0 0) + size (place 0) * places) }
    {
        self.after(
            SUBNET_FIELDS as u32 + PLACE_FIELDS as u32 * places as u32,
            row_width(&SUBNET, 0) + row_width(&PLACE, 0) * places as u32,
        )
    }
}

// Stores where subnet s begins, and the flat numbers of its first place and transition.
fn put_subnet(starts: &mut [u32], s: u16, p: Position, place: u32, transition: u32)
    ensures { starts.new ≡ put_subnet starts.old s p.row p.bit place transition }
{
    let i = s as usize;
    put_entry(starts, i, p.row);
    put_entry(starts, SUBNET_BITS + i, p.bit);
    put_entry(starts, FIRST_PLACES + i, place);
    put_entry(starts, FIRST_TRANSITIONS + i, transition);
}

// Stores where transitions begin, from transition first on, and says where the last one ends.
fn index_transitions(
    numbers: &[u16],
    starts: &mut [u32],
    from: Position,
    first: u32,
    count: u16,
) -> Position
    ensures starts_len_unchanged { length starts.new ≡ length starts.old }
    ensures by_index { (c : Card) → (s : ℕ) → AtSubnet c s numbers.now starts.old from first count → TransitionsIndexed c s starts.old starts.new result }
{
    if 1000 < first {
        return from;
    }
    let mut p = from;
    for t in first..first + count as u32 {
        if !p.is_on_card() {
            return p;
        }
        put_entry(starts, TRANSITION_ROWS + t as usize, p.row);
        put_entry(starts, TRANSITION_BITS + t as usize, p.bit);
        p = p.after_transition(version(numbers), arc_count(numbers, p.row));
    }
    p
}

// The table of starts (specs/Index.antt) of a card whose numbers the table holds.
fn starts_of(numbers: &[u16], subnets: u16) -> [u32; STARTS]
    ensures { (c : Card) → Wellformed c → Laid c numbers.now → subnets ≡ length c.subnets → result ≡ starts_of c }
{
    let mut starts = [0; STARTS];
    let mut p = Position {
        row: HEADER_FIELDS as u32,
        bit: row_width(&HEADER, version(numbers)),
    };
    let mut place = 0;
    let mut transition = 0;
    for s in 0..subnets {
        if !p.is_on_card() {
            return starts;
        }
        put_subnet(&mut starts, s, p, place, transition);
        let n = place_count(numbers, p.row);
        let k = transition_count(numbers, p.row);
        p = index_transitions(numbers, &mut starts, p.after_places(n), transition, k);
        place += n as u32;
        transition += k as u32;
    }
    put_subnet(&mut starts, subnets, p, place, transition);
    starts
}

// The index of a card that has so many rows, and whose numbers the table holds.
pub fn index(numbers: &[u16], counts: Counts) -> CardIndex
    ensures counts { result.counts ≡ counts }
    ensures starts { (c : Card) → Wellformed c → Laid c numbers.now → counts.subnets ≡ length c.subnets → result.starts ≡ starts_of c }
{
    CardIndex {
        counts,
        starts: starts_of(numbers, counts.subnets),
    }
}
