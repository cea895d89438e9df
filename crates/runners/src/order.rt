// The visiting order that the subnet runner is lent.
ghost use Rattle.std.specs.Prelude.{◌≡◌, ◌≤◌, length};
ghost use Rattle.card.specs.Finite.{some_unless};
ghost use Rattle.runners.specs.Calls.{each_once};
ghost use Rattle.runners.specs.inner.Steps.{refusal_in};
ghost use Rattle.runners.specs.declared.Refusal.TheVariants.{BadOrder};

use crate::Refusal;
use card::view::CardView;

// Whether the order names each subnet once: as many entries as there are subnets, all of them subnets, and so many distinct ones. A card has
// at most 32 subnets, and a set of 32 bits is the paper's form. Two wrong tests that this rules out: one that lets an order of more entries name a subnet twice, and one that counts
// the number past the last subnet as one.
#[tactic(auto, using(crate::proofs::OrderLaws::gathered_more, crate::proofs::OrderLaws::wrong_length, crate::proofs::OrderLaws::past_last, crate::proofs::OrderLaws::all_gathered))]
fn each_once(order: &[u16], subnets: u16) -> bool
    ensures { subnets ≤ 32 → result ≡ each_once subnets order.now }
{
    if order.len() != subnets as usize {
        return false;
    }
    let mut set: u32 = 0;
    for &s in order {
        if subnets <= s {
            return false;
        }
        if 32 <= s {
            return false;
        }
        set |= 1 << s;
    }
    set.count_ones() == u32::from(subnets)
}

// 23.
pub fn order_test(card: &CardView<'_>, order: &[u16]) -> Result<(), Refusal>
    ensures { refusal_in result ≡ some_unless (each_once (length card.now.subnets) order.now) BadOrder }
{
    if !each_once(order, card.subnets()) {
        return Err(Refusal::BadOrder);
    }
    Ok(())
}
