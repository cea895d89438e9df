// Fields at any bit of bytes, for the layers above.
ghost use Rattle.std.specs.Prelude.{◌≡◌};
ghost use Rattle.card.specs.Fields.{field_at};

use crate::bits::bit_field;

// The field of width bits from bit at on; 0 where it is wider than 16 bits or the bytes end before it does. Two wrong readers that this
// rules out: one that gives the bits that are there of a field that is cut off, and one that takes a byte's lowest bit for its first.
#[tactic(auto, using(crate::proofs::FieldLaws::field_in, crate::proofs::FieldLaws::field_wide, crate::proofs::FieldLaws::field_cut))]
pub fn field_at(bytes: &[u8], at: usize, width: usize) -> u16
    ensures { result ≡ field_at bytes.now at width }
{
    if 16 < width {
        return 0;
    }
    if bytes.len() < at / 8 + (at % 8 + width + 7) / 8 {
        return 0;
    }
    bit_field(bytes, at, width)
}
