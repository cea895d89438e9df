// Pass two over a card's arcs: 10 to 13 and 26 at an arc, 14 after a transition's arcs.
ghost use Rattle.std.specs.Prelude.{◌≡◌, ◌<◌, true, length};
ghost use Rattle.card.specs.Card.{transition_at, arc_at};
ghost use Rattle.card.specs.Finite.{first_of};
ghost use Rattle.card.specs.Index.{Lists};
ghost use Rattle.card.specs.View.{kind_number, direction_number, arc_in};
ghost use Rattle.hierarchy.specs.Conditions.{IsPlace};
ghost use Rattle.hierarchy.specs.Check.{seen as is_seen, takes as takes_it, directed as is_directed, weighted as is_weighted, same_place as at_same_place, repeats as is_repeated, single, loop_fits as fits_in, loops_fit, has_unit, finding_of, arc_fault, transition_fault, subnet_fault};
ghost use Rattle.hierarchy.specs.inner.Arcs.{PlacesThere};

use crate::{CardFault, CardRefusal};
use card::view::{Arc, CardView, Direction, Kind};

// Whether subnet i sees the place that the arc names. Subnets past the last list no place.
#[tactic(auto, using(crate::proofs::ArcLaws::seen_is, crate::proofs::ArcLaws::seen_place))]
fn seen(card: &CardView<'_>, i: u16, a: Arc) -> bool
    ensures value { result ≡ is_seen card.now i (arc_in a) }
    ensures there { result ≡ true → IsPlace card.now a.subnet a.place }
{
    let owner = card.subnet(a.subnet);
    a.place < owner.places
        && (a.subnet == i
            || (owner.parent == i && card.place(a.subnet, a.place).kind != Kind::Normal))
}

// Whether a child's place of this kind takes an arc of this direction.
fn takes(kind: Kind, direction: Direction) -> bool
    ensures { result ≡ takes_it (kind_number kind) (direction_number direction) }
{
    match direction {
        Direction::Draws => matches!(kind, Kind::Out | Kind::InOut),
        Direction::Fills => matches!(kind, Kind::In | Kind::InOut),
    }
}

#[tactic(auto, unfolding(crate::specs::Check::directed))]
fn directed(card: &CardView<'_>, i: u16, a: Arc) -> bool
    ensures { IsPlace card.now a.subnet a.place → result ≡ is_directed card.now i (arc_in a) }
{
    a.subnet == i || takes(card.place(a.subnet, a.place).kind, a.direction)
}

#[tactic(auto, unfolding(crate::specs::Check::weighted))]
fn weighted(card: &CardView<'_>, a: Arc) -> bool
    ensures { IsPlace card.now a.subnet a.place → result ≡ is_weighted card.now (arc_in a) }
{
    1 <= a.weight && a.weight <= card.place(a.subnet, a.place).capacity
}

// Places differ most often, so they are compared first. (A part of the fields, as in the likeness of places and arcs in types.rt: no derive says it.)
#[inline(always)]
fn same_place(a: Arc, b: Arc) -> bool
    ensures { result ≡ at_same_place (arc_in a) (arc_in b) }
{
    a.place == b.place && a.subnet == b.subnet
}

#[inline(always)]
fn repeats(a: Arc, b: Arc) -> bool
    ensures { result ≡ is_repeated (arc_in a) (arc_in b) }
{
    same_place(a, b) && a.direction == b.direction
}

// Whether two arcs have their weights within this capacity together, where they are a self-loop at a place that has it.
#[inline(always)]
fn loop_fits(capacity: u16, a: Arc, b: Arc) -> bool
    ensures { result ≡ fits_in capacity (arc_in a) (arc_in b) }
{
    !same_place(a, b)
        || a.direction == b.direction
        || u32::from(a.weight) + u32::from(b.weight) <= u32::from(capacity)
}

// What the lower arcs of a transition leave of an arc: whether none repeats it, and whether each that is a self-loop with it has its weight within
// the capacity together with it. Two flags and no `Option`: both may be wanting, and which of them is told is the caller's business.
#[derive(Clone, Copy)]
struct Beside {
    single: bool,
    fits: bool,
}

// One walk serves both tests, and finds the transition's row once: on a card with many arcs it is most of pass two.
#[tactic(auto, using(crate::proofs::FirstLaws::every_more), unfolding(crate::specs::Check::single, crate::specs::Check::loops_fit, card::specs::Finite::every))]
fn beside_lower(card: &CardView<'_>, t: u16, j: u16) -> Beside
    requires { j < (transition_at card.now t).arcs }
    ensures single_value { result.single ≡ single card.now t j }
    ensures fits_value { IsPlace card.now (arc_at card.now t j).subnet (arc_at card.now t j).place → result.fits ≡ loops_fit card.now t j }
{
    let a = card.arc(t, j);
    let capacity = card.place(a.subnet, a.place).capacity;
    let mut known = Beside {
        single: true,
        fits: true,
    };
    for lower in card.arcs(t).take(j as usize) {
        known.single &= !repeats(lower, a);
        known.fits &= loop_fits(capacity, lower, a);
    }
    known
}

// Whether one of the arcs of the transition is at a place of capacity 1.
fn has_unit(card: &CardView<'_>, t: u16) -> bool
    ensures { PlacesThere card.now t → result ≡ has_unit card.now t }
{
    card.arcs(t)
        .any(|a| card.place(a.subnet, a.place).capacity == 1)
}

// The first fault of 10 to 13 and 26 at arc j of transition t of subnet i.
#[tactic(auto, unfolding(crate::specs::Check::arc_fault))]
fn arc_fault(card: &CardView<'_>, i: u16, t: u16, j: u16) -> Result<(), CardRefusal>
    requires { j < (transition_at card.now t).arcs }
    ensures { Lists card.now i t → finding_of result ≡ arc_fault card.now i t j }
{
    let a = card.arc(t, j);
    if !seen(card, i, a) {
        return Err(CardFault::Unseen.at(card.arc_bit(u32::from(t), j)));
    }
    if !directed(card, i, a) {
        return Err(CardFault::Direction.at(card.arc_bit(u32::from(t), j)));
    }
    if !weighted(card, a) {
        return Err(CardFault::Weight.at(card.arc_bit(u32::from(t), j)));
    }
    let lower = beside_lower(card, t, j);
    if !lower.single {
        return Err(CardFault::Repeated.at(card.arc_bit(u32::from(t), j)));
    }
    if !lower.fits {
        return Err(CardFault::DeadLoop.at(card.arc_bit(u32::from(t), j)));
    }
    Ok(())
}

// The first fault of 10 to 14 and 26 at transition t of subnet i. By index, which the bit of an arc's fault is found by.
#[tactic(auto, using(crate::proofs::FirstLaws::walks, crate::proofs::ArcLaws::places_there), unfolding(crate::specs::Check::transition_fault))]
fn transition_fault(card: &CardView<'_>, i: u16, t: u16) -> Result<(), CardRefusal>
    ensures { Lists card.now i t → finding_of result ≡ transition_fault card.now i t }
{
    for j in 0..card.transition(t).arcs {
        arc_fault(card, i, t, j)?;
    }
    if !has_unit(card, t) {
        return Err(CardFault::NoUnit.at(card.transition_bit(u32::from(t))));
    }
    Ok(())
}

// The same over the transitions of subnet i.
#[tactic(auto, using(crate::proofs::FirstLaws::walks, crate::proofs::ArcLaws::lists, crate::proofs::ArcLaws::subnet_start))]
fn subnet_fault(card: &CardView<'_>, i: u16) -> Result<(), CardRefusal>
    ensures { finding_of result ≡ subnet_fault card.now i }
{
    for t in card.transitions_of(i) {
        transition_fault(card, i, t)?;
    }
    Ok(())
}

// The first fault of 10 to 14 and 26 over all subnets, by subnet, transition and arc. Wrong passes that this rules out: one that lets a subnet see
// the interface places of its children's children, one that tests weights before directions, and one that tells of a loop at its first arc.
#[tactic(auto, using(crate::proofs::FirstLaws::walks))]
pub fn arcs_fault(card: &CardView<'_>) -> Result<(), CardRefusal>
    ensures { finding_of result ≡ first_of 0 (length card.now.subnets) (subnet_fault card.now) }
{
    for i in 0..card.subnets() {
        subnet_fault(card, i)?;
    }
    Ok(())
}
