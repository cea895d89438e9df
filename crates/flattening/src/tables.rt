// The two tables of the flat card. Every function takes any table; what it stores is the flat card's where the card meets the conditions and
// the table has room.
ghost use Rattle.std.specs.Prelude.{◌≡◌, ℕ, suc, ◌+◌, ◌≤◌, ◌<◌, length, replicate};
ghost use Rattle.card.specs.Card.{arc_at};
ghost use Rattle.flattening.specs.inner.FlatNumbers.{place_position, transition_position, stored, Fills, FlatTables};

use card::index::{CardIndex, index};
use card::view::CardView;
use card::{ARC_FIELDS, Counts, HEADER_FIELDS, PLACE_FIELDS, SUBNET_FIELDS, TRANSITION_FIELDS};

// Where the places begin: behind the header and the row of the one subnet.
const PLACES: usize = HEADER_FIELDS + SUBNET_FIELDS;

// Stores a row's numbers from position at on, if the table has room for all of them.
fn put(out: &mut [u16], at: usize, row: &[u16])
    ensures { at + length row.now ≤ length out.old → out.new ≡ stored row.now at out.old }
{
    if at <= out.len() && row.len() <= out.len() - at {
        out[at..at + row.len()].copy_from_slice(row);
    }
}

// The header and the row of the one subnet.
fn put_head(card: &CardView<'_>, out: &mut [u16])
    ensures { Fills card.now 0 (place_position 0) out.old out.new }
{
    let header = [
        card.version(),
        1,
        card.signals(),
        card.limit(),
        card.scale(),
    ];
    put(out, 0, &header);
    let main_net = [0, 0, card.places(), card.transitions()];
    put(out, HEADER_FIELDS, &main_net);
}

// The places of all subnets.
#[tactic(auto, using(crate::proofs::FlatPut::fills_none, crate::proofs::FlatPut::fills_to, crate::proofs::FlatPut::no_place_before, crate::proofs::FlatPut::place_after, crate::proofs::FlatPut::all_places))]
fn put_places(card: &CardView<'_>, out: &mut [u16])
    ensures { Fills card.now (place_position 0) (place_position (length card.now.places)) out.old out.new }
{
    for s in 0..card.subnets() {
        for (n, place) in card.places_of(s).enumerate() {
            let at = PLACES + PLACE_FIELDS * (card.first_place(s) as usize + n);
            put(out, at, &[0, place.capacity, place.tokens]);
        }
    }
}

// Transition t with its arcs, from position at on. The answer is where the next one goes.
#[tactic(auto, using(crate::proofs::FlatPut::fills_to, crate::proofs::FlatPut::next_transition))]
fn put_transition(card: &CardView<'_>, t: u16, at: usize, out: &mut [u16]) -> usize
    requires position { at ≡ transition_position card.now t }
    requires small { at ≤ 100000000 }
    ensures next { result ≡ transition_position card.now (suc t) }
    ensures near { result ≤ at + 300000 }
    ensures filled { t < length card.now.transitions → Fills card.now (transition_position card.now t) (transition_position card.now (suc t)) out.old out.new }
{
    let transition = card.transition(t);
    let row = [transition.signal, transition.arcs, transition.rank];
    put(out, at, &row);
    let first = at + TRANSITION_FIELDS;
    for (j, arc) in card.arcs(t).enumerate() {
        // No flat number is too large; the other arm is for a card that does not meet the conditions.
        let place = u16::try_from(card.flat_place(arc)).unwrap_or(0);
        let row = [u16::from(arc.direction), 0, place, arc.weight];
        put(out, first + ARC_FIELDS * j, &row);
    }
    first + ARC_FIELDS * transition.arcs as usize
}

// All transitions.
#[tactic(auto, using(crate::proofs::FlatPut::fills_none, crate::proofs::FlatPut::no_arc_before))]
fn put_transitions(card: &CardView<'_>, out: &mut [u16])
    ensures { Fills card.now (transition_position card.now 0) (transition_position card.now (length card.now.transitions)) out.old out.new }
{
    let mut at = PLACES + PLACE_FIELDS * card.places() as usize;
    for t in 0..card.transitions() {
        at = put_transition(card, t, at, out);
    }
}

// Stores the numbers of the flat card in a lent table of zeros, and answers its index: all places and transitions are in one subnet.
pub fn flat_tables(card: &CardView<'_>, out: &mut [u16]) -> CardIndex
    ensures { out.old ≡ replicate (length out.old) 0 → FlatTables card.now out.new result }
{
    put_head(card, out);
    put_places(card, out);
    put_transitions(card, out);
    let counts = Counts {
        subnets: 1,
        ..card.counts()
    };
    index(out, counts)
}
