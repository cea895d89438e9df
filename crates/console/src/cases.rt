// Cases on standard input, as the programs for the tests read them: a kind, a byte, and a length, a 16-bit number, and then so many bytes.
// Numbers are of 16 bits, most significant byte first.
ghost use Rattle.std.specs.Prelude.{◌≡◌, ◌/◌, ◌<◌, min, length, IfSome};
ghost use Rattle.io.specs.Counts.{IsPrefixLen};
ghost use Rattle.console.specs.Cases.{number_at, IsNumbers, IsLead};

use crate::read_input;

// A kind that ends the run.
#[derive(Clone, Copy)]
pub struct EndOfRun;

// What the buffers that answers are written into are filled with.
pub const FILLER: u8 = 165;

// How long these buffers are, and those of the cases: a 16-bit number never says more. Of the first as much is lent as a case names.
pub const BUFFER_BYTES: usize = 65536;

// A case's kind and length. The kind is a number here: each of the two programs that read cases has kinds of its own.
#[derive(Clone, Copy)]
pub struct Lead {
    pub kind: u8,
    pub length: usize,
}

// Ruled out: the length's low byte alone; the length and one.
impl From<[u8; 3]> for Lead {
    ghost from_gives = { λ head lead. IsLead head lead.kind lead.length };

    fn from([kind, high, low]: [u8; 3]) -> Lead {
        Lead {
            kind,
            length: usize::from(u16::from_be_bytes([high, low])),
        }
    }
}

// The number at byte at; a byte past the end is 0. Ruled out: least significant byte first; 0 for a number of which one byte is there.
pub fn number_at(bytes: &[u8], at: usize) -> u16
    ensures { result ≡ number_at bytes.now at }
{
    match bytes.get(at..) {
        Some([high, low, ..]) => u16::from_be_bytes([*high, *low]),
        Some([high]) => u16::from_be_bytes([*high, 0]),
        _ => 0,
    }
}

// Puts the numbers of a case at the front of a table, as far as there is room, and says how many; those behind them stay. Ruled out: numbers
// that begin at each byte instead of each second one; a table whose further numbers become 0. It writes by index, since no contract of `iter_mut`
// says what the table has afterwards.
pub fn numbers_in(bytes: &[u8], table: &mut [u16]) -> usize
    ensures prefix_len { IsPrefixLen result table.new }
    ensures value { result ≡ min (length bytes.now / 2) (length table.old) }
    ensures numbers { IsNumbers bytes.now table.old table.new result }
{
    let n = (bytes.len() / 2).min(table.len());
    for i in 0..n {
        table[i] = number_at(bytes, 2 * i);
    }
    n
}

// The next case's kind and length; `None` where the input ends before it. Ruled out: a length of three bytes; the length with those of the lead,
// which for the longest case is too much.
pub fn read_lead(rt: &HostRuntime) -> Option<Lead>
    ensures { IfSome result (λ lead. lead.length < 65536) }
{
    let mut head = [0; 3];
    if read_input(rt, &mut head) < head.len() {
        return None;
    }
    Some(Lead::from(head))
}

// The bytes of the case that is led so, at the buffer's start; `None` if they are not all there, or do not fit. Ruled out: a length that passes
// the buffer's; the case with another kind.
pub fn read_rest(rt: &HostRuntime, lead: Lead, buffer: &mut [u8]) -> Option<Lead>
    ensures prefix_len { IfSome result (λ case. IsPrefixLen case.length buffer.new) }
    ensures buffer_len_unchanged { length buffer.new ≡ length buffer.old }
    ensures rest { IfSome result (λ case. case ≡ lead) }
{
    let rest = buffer.get_mut(..lead.length)?;
    if read_input(rt, rest) < lead.length {
        return None;
    }
    Some(lead)
}
