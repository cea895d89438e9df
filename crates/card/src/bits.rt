// Fields of up to 16 bits, at any bit of a byte slice.
ghost use Rattle.std.specs.Prelude.{◌≡◌, ◌+◌, ◌*◌, ◌^◌, ◌<◌, ◌≤◌, length, get_or, set, leb};
ghost use Rattle.card.specs.Bits.{bit, bit_field};
ghost use Rattle.card.specs.inner.Spans.{Span, patch, Put};

// Byte k, and 0 past the end.
fn byte_at(card: &[u8], k: usize) -> u8
    ensures { result ≡ get_or card.now k 0 }
{
    card.get(k).copied().unwrap_or(0)
}

pub fn pow2(n: usize) -> u32
    requires { n < 32 }
    ensures { (result ≡ 2 ^ n) × (0 < result) }
{
    1u32 << n
}

// Whether a number is too large for a field of width bits.
pub fn too_wide(value: u16, width: usize) -> bool
    requires { width < 32 }
    ensures { result ≡ leb (2 ^ width) value }
{
    pow2(width) <= value as u32
}

// The three bytes from byte k on as one number. Nearly always they are all there, and then one test is enough.
#[tactic(auto, unfolding(crate::specs::inner::Spans::span))]
fn span_at(card: &[u8], k: usize) -> u32
    requires { k ≤ length card.now }
    ensures { Span card.now k result }
{
    match &card[k..] {
        [a, b, c, ..] => u32::from_be_bytes([0, *a, *b, *c]),
        _ => u32::from_be_bytes([
            0,
            byte_at(card, k),
            byte_at(card, k + 1),
            byte_at(card, k + 2),
        ]),
    }
}

// The field of width bits from bit at on.
#[tactic(auto, using(crate::proofs::BitLaws::field_read))]
pub fn bit_field(card: &[u8], at: usize, width: usize) -> u16
    requires inside { at + width ≤ 8 * length card.now }
    requires narrow { width ≤ 16 }
    ensures { (result ≡ bit_field (bit card.now) at width) × (result < 2 ^ width) }
{
    let x = span_at(card, at / 8);
    (x / pow2(24 - (at % 8 + width)) % pow2(width)) as u16
}

// Stores entry i of a slice; past its end it stores nothing.
pub fn put_entry<T: Copy>(slice: &mut [T], i: usize, v: T)
    ensures { slice.new ≡ set slice.old i v }
{
    if i < slice.len() {
        slice[i] = v;
    }
}

// The span x with the width bits above its low bits replaced by value.
#[tactic(auto, using(crate::proofs::Patch::patch_is, crate::proofs::Patch::patch_fits, crate::proofs::Patch::sum_fits, crate::proofs::Patch::times_fits))]
fn patched(x: u32, low: usize, width: usize, value: u16) -> u32
    requires { (x < 2 ^ 24) × (low + width ≤ 24) × (value < 2 ^ width) }
    ensures { (result ≡ patch x low width value) × (result < 2 ^ 24) }
{
    let p = pow2(low);
    let q = pow2(width);
    (x / p / q * q + value as u32) * p + x % p
}

// Writes the field of width bits from bit at on; every other bit stays.
pub fn put_field(out: &mut [u8], at: usize, width: usize, value: u16)
    requires inside { at + width ≤ 8 * length out.old }
    requires narrow { (width ≤ 16) × (value < 2 ^ width) }
    ensures { Put out.old at width value out.new }
{
    let k = at / 8;
    let y = patched(span_at(out, k), 24 - (at % 8 + width), width, value);
    let [_, a, b, c] = y.to_be_bytes();
    put_entry(out, k, a);
    put_entry(out, k + 1, b);
    put_entry(out, k + 2, c);
}
