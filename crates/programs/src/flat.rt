// What the program flatten writes.
ghost use Rattle.std.specs.Prelude.{◌≡◌};
ghost use Rattle.programs.specs.Programs.{card_line, flatten_program};

use crate::line::refusal_line;
use card::CARD_BYTES;
use card::text::Text;
use flattening::flatten;

// The flat card's bytes, or a refused card's line. There is room for the longest card, and a line of a refused card is shorter.
pub type FlatText = Text<CARD_BYTES>;

fn refusal_text(number: u64, value: usize) -> FlatText
    ensures { result ≡ card_line number value }
{
    let mut text = FlatText::new();
    text.extend_from_slice(refusal_line(number, value).as_slice());
    text
}

// All that is written for a card. (None is short: no card has more bytes than there is room for.) Two wrong ones that this rules out: one that
// prints the bit before the number, and one that writes the card itself.
pub fn flat_text(card: &[u8]) -> FlatText
    ensures { result ≡ flatten_program card.now }
{
    let mut bytes = [0; CARD_BYTES];
    match flatten(card, &mut bytes) {
        Ok(length) => Text::of(bytes, length),
        Err(why) => refusal_text(why.number(), why.value()),
    }
}
