// What the step takes from a card beside its net.
ghost use Rattle.std.specs.Prelude.{◌≡◌, ◌-◌};
ghost use Rattle.flattening.specs.Flattening.{flatten};
ghost use Rattle.runners.specs.State.{scale as scale_of};
ghost use Rattle.runners.specs.Step.{start_move, asked as asked_of};

use card::view::CardView;

// Tokens are counted in thousandths.
const SCALE: u16 = 1000;

// The full degree of a signal, and one token, of a card.
#[tactic(auto, unfolding(crate::specs::State::scale))]
pub fn scale(card: &CardView<'_>) -> u16
    ensures { result ≡ scale_of (flatten card.now) }
{
    SCALE
}

// What a starting transition moves: on version 1 the rise, from version 2 on the whole new degree of its signal. Two wrong ones that this rules
// out: one that completes a transfer of version 1 in its starting row, and one that moves version 2 by the rise.
#[tactic(auto, unfolding(crate::specs::Step::start_move, flattening::specs::Flattening::flatten))]
fn start_move(card: &CardView<'_>, last: u16, new: u16) -> u16
    ensures { result ≡ start_move (flatten card.now) last new }
{
    if card.version() < 2 {
        return new.saturating_sub(last);
    }
    new
}

// What is asked of a transition as its signal goes from its last degree to a new one, in the row in which it starts and in later ones. Two wrong
// ones that this rules out: one that counts later rows from zero too, and one that moves by the rise whatever the version.
pub fn asked(card: &CardView<'_>, starting: bool, last: u16, new: u16) -> u16
    ensures { result ≡ asked_of (flatten card.now) starting last new }
{
    if starting {
        return start_move(card, last, new);
    }
    new.saturating_sub(last)
}
