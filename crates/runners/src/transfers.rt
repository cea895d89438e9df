// What one transition does with its transfer: what remains of it, and how it starts and advances.
ghost use Rattle.std.specs.Prelude.{◌≡◌, ◌≤◌};
ghost use Rattle.flattening.specs.Flattening.{flatten};
ghost use Rattle.runners.specs.State.{remaining as remaining_of};
ghost use Rattle.runners.specs.Step.{idle, advanced as advanced_of};

use crate::{Transfer, rules};
use card::view::CardView;

impl Transfer {
    pub fn is_idle(self) -> bool
        ensures { result ≡ idle self }
    {
        self == Transfer::Idle
    }

    // What remains of a transfer: 1000 - c.
    pub fn remaining(self, card: &CardView<'_>) -> u16
        ensures { result ≡ remaining_of (flatten card.now) self }
    {
        match self {
            Transfer::Idle => 0,
            Transfer::Carrying(c) => rules::scale(card).saturating_sub(c),
        }
    }

    // c grows by d, which is no more than remains; at 1000 the transition is idle.
    pub fn advanced(self, card: &CardView<'_>, d: u16) -> Transfer
        ensures { d ≤ remaining_of (flatten card.now) self → result ≡ advanced_of (flatten card.now) self d }
    {
        match self {
            Transfer::Idle => Transfer::Idle,
            Transfer::Carrying(c) => {
                let grown = c.wrapping_add(d);
                if grown == rules::scale(card) {
                    return Transfer::Idle;
                }
                Transfer::Carrying(grown)
            }
        }
    }
}
