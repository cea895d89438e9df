// What a transition's arcs post on the claims board, and what they move. Each arc is resolved to a flat place as it is met.
ghost use Rattle.std.specs.Prelude.{◌≡◌, ℕ, ◌+◌, ◌*◌, ◌<◌};
ghost use Rattle.card.specs.Card.{draws, fills};
ghost use Rattle.card.specs.View.{direction_number};
ghost use Rattle.flattening.specs.Flattening.{flatten};
ghost use Rattle.runners.specs.State.{entry, incidence};
ghost use Rattle.runners.specs.Columns.{Moved, Grown, Claimed, nothing, no_claims};
ghost use Rattle.runners.specs.inner.Transitions.{share};

use card::MOST_PLACES;
use card::view::{CardView, Direction};

// The claims of transfers, by flat place: what is owed there, and what is due.
#[derive(Clone, Copy)]
pub struct Claims {
    pub owed: [u32; MOST_PLACES],
    pub due: [u32; MOST_PLACES],
}

// Entry p, and 0 past the end.
pub fn entry_at(column: &[u32], p: usize) -> u64
    ensures value { result ≡ entry column.now p }
    ensures fits { result < 4294967296 }
{
    u64::from(column.get(p).copied().unwrap_or(0))
}

// Adds v to entry p, in 32 bits, which go round. No accepted card's claims come near more. By index, here and below: of a write through get_mut no proof was found.
fn add_at(column: &mut [u32], p: usize, v: u32)
    ensures { Grown column.old column.new (share 0 0 p v) }
{
    if p < column.len() {
        column[p] = column[p].wrapping_add(v);
    }
}

// Takes v from entry p, in 32 bits.
fn take_at(column: &mut [u32], p: usize, v: u32)
    ensures { Moved column.old column.new (share 0 0 p v) nothing }
{
    if p < column.len() {
        column[p] = column[p].wrapping_sub(v);
    }
}

// Columns by flat place that a transition's arcs change: the markings, or claims.
pub trait ByPlace {
    ghost changed: { (before after : Self) → (drawn filled : ℕ → ℕ) → Type 0 };

    // An arc of this direction draws v from flat place p, or fills it with v.
    fn change(&mut self, direction: Direction, p: usize, v: u32)
        ensures { changed self.old self.new (share draws (direction_number direction) p v) (share fills (direction_number direction) p v) };

    ghost unchanged: { (a : Self) → changed a a nothing nothing };

    ghost changed_then: { (a b e : Self) (d u x y : ℕ → ℕ) → changed a b d u → changed b e x y → changed a e (λ p. d p + x p) (λ p. u p + y p) };

    ghost changed_alike: { (a b : Self) (d u x y : ℕ → ℕ) → ((p : ℕ) → d p ≡ x p) → ((p : ℕ) → u p ≡ y p) → changed a b d u → changed a b x y };
}

// What is drawn leaves the markings, and what is filled comes to them.
impl ByPlace for [u32; MOST_PLACES] {
    ghost use Rattle.runners.specs.inner.Changes.{moved_none, moved_then, moved_same};

    ghost changed = { Moved };

    ghost unchanged = { moved_none };

    ghost changed_then = { moved_then };

    ghost changed_alike = { moved_same };

    fn change(&mut self, direction: Direction, p: usize, v: u32) {
        match direction {
            Direction::Draws => take_at(self, p, v),
            Direction::Fills => add_at(self, p, v),
        }
    }
}

// What is drawn is owed, and what is filled is due.
impl ByPlace for Claims {
    ghost use Rattle.runners.specs.inner.Changes.{claimed_none, claimed_then, claimed_same};

    ghost changed = { Claimed };

    ghost unchanged = { claimed_none };

    ghost changed_then = { claimed_then };

    ghost changed_alike = { claimed_same };

    fn change(&mut self, direction: Direction, p: usize, v: u32) {
        match direction {
            Direction::Draws => add_at(&mut self.owed, p, v),
            Direction::Fills => add_at(&mut self.due, p, v),
        }
    }
}

impl Claims {
    pub fn none() -> Claims
        ensures { result ≡ no_claims }
    {
        Claims {
            owed: [0; MOST_PLACES],
            due: [0; MOST_PLACES],
        }
    }
}

// Transition t changes them by this part of its weights, in thousandths. One that changes nothing costs nothing.
#[tactic(auto, using(crate::proofs::ClaimLaws::no_weights, crate::proofs::ClaimLaws::weights_all))]
pub fn change_by<C: ByPlace>(columns: &mut C, card: &CardView<'_>, t: u16, part: u16)
    ensures { C.changed columns.old columns.new (λ p. part * incidence (flatten card.now) draws t p) (λ p. part * incidence (flatten card.now) fills t p) }
{
    if part == 0 {
        return;
    }
    for arc in card.arcs(t) {
        let v = u32::from(part) * u32::from(arc.weight);
        columns.change(arc.direction, card.flat_place(arc), v);
    }
}
