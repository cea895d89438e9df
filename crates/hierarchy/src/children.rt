// The children of a subnet: the others that name it as their parent, in number order.
ghost use Rattle.std.specs.Prelude.{◌≡◌, true, ◌<◌};
ghost use Rattle.hierarchy.specs.Conditions.{is_child};
ghost use Rattle.hierarchy.specs.inner.Ordinals.{ordinal};

use card::view::CardView;

pub fn is_child(card: &CardView<'_>, i: u16, j: u16) -> bool
    ensures value { result ≡ is_child card.now i j }
    ensures few { result ≡ true → j < 32 }
{
    j != i && j < card.subnets() && card.subnet(j).parent == i
}

// How many children of subnet i are below j.
pub fn ordinal(card: &CardView<'_>, i: u16, j: u16) -> u16
    ensures { result ≡ ordinal card.now i j }
{
    (0..j).filter(|h| is_child(card, i, *h)).count() as u16
}
