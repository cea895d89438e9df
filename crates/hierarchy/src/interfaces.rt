// Fault 15: a subnet that owns no interface place.
ghost use Rattle.std.specs.Prelude.{◌≡◌, ◌||◌, length, eqb};
ghost use Rattle.card.specs.Finite.{first_of};
ghost use Rattle.card.specs.Writing.{subnet_bit};
ghost use Rattle.hierarchy.specs.Check.{has_interface, fault_unless, finding_of};
ghost use Rattle.hierarchy.specs.declared.CardFault.TheVariants.{NoInterface};

use crate::{CardFault, CardRefusal};
use card::view::{CardView, Kind};

// Whether subnet i owns an interface place.
fn has_interface(card: &CardView<'_>, i: u16) -> bool
    ensures { result ≡ has_interface card.now i }
{
    card.places_of(i).any(|p| p.kind != Kind::Normal)
}

// The first subnet but 0 that owns no interface place.
pub fn interfaces_fault(card: &CardView<'_>) -> Result<(), CardRefusal>
    ensures { finding_of result ≡ first_of 0 (length card.now.subnets) (λ i. fault_unless (subnet_bit card.now i) (eqb i 0 || has_interface card.now i) NoInterface) }
{
    for i in 1..card.subnets() {
        if !has_interface(card, i) {
            return Err(CardFault::NoInterface.at(card.subnet_bit(i)));
        }
    }
    Ok(())
}
