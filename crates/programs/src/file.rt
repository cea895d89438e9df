// A row of a file: 10 bits a signal, and zeros to the byte.
ghost use Rattle.std.specs.Prelude.{◌≡◌, ◌+◌, ◌-◌, ◌*◌, ◌≤◌, ◌<◌, ◌↔◌, [], ◌++◌, length, replicate, IsTrue, MatchOption, None};
ghost use Rattle.std.specs.List.{All};
ghost use Rattle.card.specs.Finite.{table};
ghost use Rattle.card.specs.Bits.{bytes_for};
ghost use Rattle.card.specs.Fields.{field_at};
ghost use Rattle.card.specs.Card.{Card};
ghost use Rattle.runners.specs.Rows.{or_no_row, cells, row_of};
ghost use Rattle.programs.specs.Files.{file_row};

use card::MOST_SIGNALS;
use card::fields::field_at;
use std::marker::Model;

// Bits a degree.
const DEGREE_BITS: usize = 10;

// What each degree of an empty row is written as.
const EMPTY_MARK: u16 = 1023;

// A degree for each signal; an empty row has none. There is no heap here, so that the degrees stand in the row itself.
#[derive(Clone, Copy)]
pub struct FileRow {
    degrees: [u16; MOST_SIGNALS],
    count: usize,
}

// Clauses see the degrees. Zeros stand behind them, so that the fields are known from the degrees.
impl Model for FileRow {
    ghost use Rattle.std.specs.Prelude.{ℕ, ◌-◌, List, ◌++◌, length, take, replicate};
    ghost use Rattle.card.specs.Rooms.{IsFilled, filled_long, filled_back};

    ghost Value = { List ℕ };

    ghost view = { λ r. take r.count r.degrees };

    ghost invariant = { λ r. IsFilled 63 r.degrees r.count };

    ghost inverse = { λ ds. record { degrees = ds ++ replicate (63 - length ds) 0; count = length ds } };

    ghost inverse_ok = { λ r h i. record { degrees = filled_back 63 r.degrees r.count h i; count = filled_long 63 r.degrees r.count h i } };
}

impl FileRow {
    fn empty() -> Self
        ensures { result ≡ [] }
    {
        FileRow {
            degrees: [0; MOST_SIGNALS],
            count: 0,
        }
    }

    pub fn degrees(&self) -> &[u16]
        ensures value { result.now ≡ self.now }
        ensures few { length self.now ≤ 63 }
    {
        &self.degrees[..self.count]
    }
}

// A row where bytes hold none. No card has as many signals as it has degrees, so that each runner refuses it; a row of none would be an empty
// row, which they take.
const NO_ROW: [u16; MOST_SIGNALS + 1] = [0; MOST_SIGNALS + 1];

// The degrees that a runner is given for what bytes hold. Two wrong ones that this rules out: one that gives an empty row's where there is no
// row, and one that gives all 63 whatever the card's signals.
pub fn degrees_of(row: &Option<FileRow>) -> &[u16]
    ensures { MatchOption row.now (63 < length result.now) (λ ds. result.now ≡ ds) }
{
    match row {
        Some(row) => row.degrees(),
        None => &NO_ROW,
    }
}

// How many bytes a row has. Two wrong counts that this rules out: one that cuts the last byte off, and one that takes 16 bits a degree.
pub fn row_bytes(signals: u16) -> usize
    ensures { result ≡ bytes_for (10 * signals) }
{
    (DEGREE_BITS * signals as usize).div_ceil(8)
}

// The number of each cell. It writes by index, since no contract of `iter_mut` beside `enumerate` says what the array has afterwards.
fn cells_in(bytes: &[u8], signals: u16) -> FileRow
    requires { signals ≤ 63 }
    ensures { result ≡ table 0 signals (λ g. field_at bytes.now (10 * g) 10) }
{
    let mut degrees = [0; MOST_SIGNALS];
    let count = signals as usize;
    for g in 0..count {
        degrees[g] = field_at(bytes, DEGREE_BITS * g, DEGREE_BITS);
    }
    FileRow { degrees, count }
}

// What bytes hold for each signal, if they are a row's.
fn cells_of(bytes: &[u8], signals: u16) -> Option<FileRow>
    requires { signals ≤ 63 }
    ensures { result ≡ file_row (or_no_row (cells 0 10 signals bytes.now)) }
{
    let width = DEGREE_BITS * signals as usize;
    let n = row_bytes(signals);
    if bytes.len() != n {
        return None;
    }
    if field_at(bytes, width, 8 * n - width) != 0 {
        return None;
    }
    Some(cells_in(bytes, signals))
}

// Whether each degree is the empty mark.
fn is_marked(degrees: &[u16]) -> bool
    ensures { IsTrue result ↔ All (λ d. d ≡ EMPTY_MARK) degrees.now }
{
    degrees.iter().all(|degree| *degree == EMPTY_MARK)
}

// The row that bytes hold; no card has more than 63 signals. Two wrong readers that this rules out: one that lets a fill bit be 1, and one
// that takes a row with one degree of 1023 for an empty one.
pub fn row_of(bytes: &[u8], signals: u16) -> Option<FileRow>
    ensures row { (f : Card) → f.signals ≡ signals → signals ≤ 63 → result ≡ file_row (row_of f bytes.now) }
    ensures too_many { 63 < signals → result ≡ None }
{
    if 63 < signals {
        return None;
    }
    let row = cells_of(bytes, signals)?;
    if is_marked(row.degrees()) {
        return Some(FileRow::empty());
    }
    Some(row)
}
