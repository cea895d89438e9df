// Columns by flat place, out of a card: 1000 for each token of a place's capacity, or of its first tokens.
ghost use Rattle.std.specs.Prelude.{◌≡◌, ℕ, suc, ◌<◌, length, refl};
ghost use Rattle.card.specs.Card.{Place as CardPlace, first_place};
ghost use Rattle.card.specs.View.{place_in};
ghost use Rattle.hierarchy.specs.Conditions.{Meets};
ghost use Rattle.runners.specs.inner.Markings.{capacity, tokens, SameFlat, FilledTo, Filled};

use crate::rules;
use card::MOST_PLACES;
use card::view::{CardView, Place};

// Which number of a place.
pub trait PlaceNumber {
    ghost number: { CardPlace → ℕ };

    fn of(place: Place) -> u16
        ensures { result ≡ number (place_in place) };

    ghost same: { SameFlat number };
}

pub struct Capacity;

impl PlaceNumber for Capacity {
    ghost number = { capacity };

    ghost same = { λ p. refl };

    fn of(place: Place) -> u16 {
        place.capacity
    }
}

pub struct Tokens;

impl PlaceNumber for Tokens {
    ghost number = { tokens };

    ghost same = { λ p. refl };

    fn of(place: Place) -> u16 {
        place.tokens
    }
}

// The places of subnet s. By index: no contract of `iter_mut` beside another iterator says what the column has afterwards.
#[tactic(auto, using(crate::proofs::MarkingLaws::few_places, crate::proofs::MarkingLaws::subnet_end, flattening::proofs::FlatPut::next_place))]
fn fill_subnet<N: PlaceNumber>(card: &CardView<'_>, s: u16, column: &mut [u32])
    requires meets { Meets card.now }
    requires there { s < length card.now.subnets }
    requires filled { FilledTo N.number card.now (first_place card.now s) column.old }
    ensures { FilledTo N.number card.now (first_place card.now (suc s)) column.new }
{
    let first = card.first_place(s) as usize;
    for (n, place) in card.places_of(s).enumerate() {
        column[first + n] = u32::from(rules::scale(card)) * u32::from(N::of(place));
    }
}

// The places of all subnets.
pub fn by_place<N: PlaceNumber>(card: &CardView<'_>) -> [u32; MOST_PLACES]
    requires { Meets card.now }
    ensures { Filled N.number card.now result }
{
    let mut column = [0; MOST_PLACES];
    for s in 0..card.subnets() {
        fill_subnet::<N>(card, s, &mut column);
    }
    column
}
