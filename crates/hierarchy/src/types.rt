// Fault 16: a subnet that is unlike a lower one of its type.
ghost use Rattle.std.specs.Prelude.{◌≡◌, true, ◌&&◌, ◌||◌, ℕ, ◌<◌, length, eqb};
ghost use Rattle.card.specs.Finite.{first_of};
ghost use Rattle.card.specs.Writing.{subnet_bit};
ghost use Rattle.card.specs.View.{place_in, arc_in};
ghost use Rattle.hierarchy.specs.Conditions.{children};
ghost use Rattle.hierarchy.specs.inner.Ordinals.{AllOrdinals};
ghost use Rattle.hierarchy.specs.Check.{alike_places, alike_arcs, alike_transitions, same_type, alike, like_lower, fault_unless, finding_of};
ghost use Rattle.hierarchy.specs.inner.Likeness.{places_alike, children_alike, transitions_alike, both_kth};
ghost use Rattle.hierarchy.specs.declared.CardFault.TheVariants.{Unlike};

use crate::children::{is_child, ordinal};
use crate::{CardFault, CardRefusal};
use card::MOST_SUBNETS;
use card::view::{Arc, CardView, Place};

fn same_type(card: &CardView<'_>, r: u16, s: u16) -> bool
    ensures { result ≡ same_type card.now r s }
{
    let upper = card.subnet(s).subnet_type;
    card.subnet(r).subnet_type == upper && upper != 0
}

fn alike_place(p: Place, q: Place) -> bool
    ensures { result ≡ alike_places (place_in p) (place_in q) }
{
    p.kind == q.kind && p.capacity == q.capacity
}

// Whether subnets r and s have as many places, of equal kinds and capacities.
fn alike_places(card: &CardView<'_>, r: u16, s: u16) -> bool
    ensures { result ≡ places_alike card.now r s }
{
    card.subnet(r).places == card.subnet(s).places
        && card
            .places_of(r)
            .zip(card.places_of(s))
            .all(|(p, q)| alike_place(p, q))
}

// Whether subnets r and s have as many children, the k-th two of equal nonzero type.
#[tactic(auto, using(crate::proofs::WalkLaws::counts_differ, crate::proofs::ChildLaws::child_counted))]
fn alike_children(card: &CardView<'_>, r: u16, s: u16) -> bool
    ensures { result ≡ children_alike card.now r s }
{
    let subnets = card.subnets();
    let lower = (0..subnets).filter(|j| is_child(card, r, *j));
    let upper = (0..subnets).filter(|j| is_child(card, s, *j));
    ordinal(card, r, subnets) == ordinal(card, s, subnets)
        && lower.zip(upper).all(|(a, b)| same_type(card, a, b))
}

// Two subnets with as many children, whose arcs are compared.
#[derive(Clone, Copy)]
struct Pair<'a> {
    card: &'a CardView<'a>,
    ordinals: &'a [u16; MOST_SUBNETS],
    lower: u16,
    upper: u16,
    ghost known: { AllOrdinals card.now ordinals.now },
    ghost as_many: { length (children card.now lower) ≡ length (children card.now upper) },
}

impl<'a> Pair<'a> {
    // Whether subnet a is the k-th child of the lower subnet and b that of the upper one, for one k.
    #[tactic(auto, using(crate::proofs::WalkLaws::part_fails, crate::proofs::WalkLaws::part_holds, crate::proofs::ChildLaws::both_kth_is))]
    fn both_kth(&self, a: u16, b: u16) -> bool
        ensures { result ≡ both_kth self.now.card.now self.now.lower self.now.upper a b }
    {
        if !is_child(self.card, self.lower, a) || !is_child(self.card, self.upper, b) {
            return false;
        }
        self.ordinals[b as usize] == self.ordinals[a as usize]
    }

    fn alike_arc(&self, a: Arc, b: Arc) -> bool
        ensures { result ≡ alike_arcs self.now.card.now self.now.lower self.now.upper (arc_in a) (arc_in b) }
    {
        a.direction == b.direction
            && a.weight == b.weight
            && a.place == b.place
            && ((a.subnet == self.lower && b.subnet == self.upper)
                || self.both_kth(a.subnet, b.subnet))
    }

    // Whether transitions t, of the lower subnet, and u, of the upper one, have as many arcs, each two alike.
    fn alike_arcs(&self, t: u16, u: u16) -> bool
        ensures { result ≡ alike_transitions self.now.card.now self.now.lower self.now.upper t u }
    {
        self.card.transition(t).arcs == self.card.transition(u).arcs
            && self
                .card
                .arcs(t)
                .zip(self.card.arcs(u))
                .all(|(a, b)| self.alike_arc(a, b))
    }

    // Whether both have as many transitions, each two alike.
    fn alike_transitions(&self) -> bool
        ensures { result ≡ transitions_alike self.now.card.now self.now.lower self.now.upper }
    {
        let lower = self.card.transitions_of(self.lower);
        let upper = self.card.transitions_of(self.upper);
        lower.len() == upper.len() && lower.zip(upper).all(|(t, u)| self.alike_arcs(t, u))
    }
}

// A card with the ordinal of each subnet among the children of its parent, made once, so that comparing two arcs counts no children.
#[derive(Drop)]
struct Family<'a> {
    card: &'a CardView<'a>,
    ordinals: [u16; MOST_SUBNETS],
    ghost known: { AllOrdinals card.now ordinals },
}

impl<'a> Family<'a> {
    fn of(card: &'a CardView<'a>) -> Family<'a>
        ensures { result.card.now ≡ card.now }
    {
        // By index: no contract of `iter_mut` beside another iterator says what the array has afterwards.
        let mut ordinals = [0; MOST_SUBNETS];
        for j in 0..card.subnets() {
            ordinals[j as usize] = ordinal(card, card.subnet(j).parent, j);
        }
        Family { card, ordinals }
    }

    #[tactic(auto, using(crate::proofs::WalkLaws::part_fails, crate::proofs::WalkLaws::part_holds, crate::proofs::TypeLaws::alike_parts))]
    fn alike(&self, r: u16, s: u16) -> bool
        ensures { result ≡ alike self.now.card.now r s }
    {
        if !alike_places(self.card, r, s) || !alike_children(self.card, r, s) {
            return false;
        }
        let pair = Pair {
            card: self.card,
            ordinals: &self.ordinals,
            lower: r,
            upper: s,
        };
        pair.alike_transitions()
    }

    // Whether subnet s is like each lower one of its type, where each of those is like each one below it: then it is enough to compare s with
    // the lowest of its type.
    fn like_lower(&self, s: u16) -> bool
        ensures { ((r : ℕ) → r < s → like_lower self.now.card.now r ≡ true) → result ≡ like_lower self.now.card.now s }
    {
        match (0..s).find(|r| same_type(self.card, *r, s)) {
            Some(r) => self.alike(r, s),
            None => true,
        }
    }
}

// The first subnet that is unlike a lower one of its type.
pub fn types_fault(card: &CardView<'_>) -> Result<(), CardRefusal>
    ensures { finding_of result ≡ first_of 0 (length card.now.subnets) (λ s. fault_unless (subnet_bit card.now s) (like_lower card.now s) Unlike) }
{
    let family = Family::of(card);
    for s in 0..card.subnets() {
        if !family.like_lower(s) {
            return Err(CardFault::Unlike.at(card.subnet_bit(s)));
        }
    }
    Ok(())
}
