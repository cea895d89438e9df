// A card's tables in lent slices, and what 17 asks of them.
ghost use Rattle.std.specs.Prelude.{◌≡◌, ℕ, ◌+◌, ◌/◌, ◌<◌, List, ◌++◌, length, get_or, eqb};
ghost use Rattle.card.specs.Card.{subnet_fields};
ghost use Rattle.card.specs.declared.Head.{Head};
ghost use Rattle.card.specs.Rows.{on_rows, tables_in, whole_rows};
ghost use Rattle.card.specs.inner.Layout.{widths};
ghost use Rattle.card.specs.inner.Runs.{column_sum, RowsFit, Tells, HeaderFits, ValuesFit, Leads, arcs_before, transition_run, runs, RunsInside, subnet_run, TablesInside, Gathered, in_order};
ghost use Rattle.card.specs.Writing.{counted};

use crate::bits::{pow2, too_wide};
use crate::layout::{ARC, PLACE, Phase, SUBNET, TRANSITION, width_at};
use crate::{ARC_FIELDS, Head, PLACE_FIELDS, SUBNET_FIELDS, TABLE, TRANSITION_FIELDS};

// A card's tables: the numbers of each slice, row after row.
#[derive(Clone, Copy)]
pub struct Rows<'a> {
    pub subnets: &'a [u16],
    pub places: &'a [u16],
    pub transitions: &'a [u16],
    pub arcs: &'a [u16],
}

// Whether a column of rows of so many numbers adds up to total. Taking away from the total cannot overflow, as adding up could.
fn adds_up(rows: &[u16], width: usize, column: usize, total: usize) -> bool
    requires { column < width }
    ensures { result ≡ eqb total (column_sum rows.now width column) }
{
    let mut left = total;
    for row in rows.chunks_exact(width) {
        let Some(rest) = left.checked_sub(usize::from(row[column])) else {
            return false;
        };
        left = rest;
    }
    left == 0
}

// Whether the numbers of rows fit their fields.
#[tactic(auto, using(crate::proofs::RowLaws::column_width))]
fn rows_fit(rows: &[u16], row: &[Phase], version: u16) -> bool
    requires { 0 < length row.now }
    ensures { Tells result (RowsFit rows.now (widths row.now version)) }
{
    rows.iter().enumerate().all(|(i, v)| !too_wide(*v, width_at(row[i % row.len()], version)))
}

// The header has a test of its own: the number of subnets may be one of more than 16 bits.
fn header_fits(h: Head, subnets: usize) -> bool
    ensures { Tells result (HeaderFits h subnets) }
{
    let v = h.version;
    !too_wide(v, width_at(Phase::Version, v))
        && !too_wide(h.signals, width_at(Phase::SignalCount, v))
        && !too_wide(h.limit, width_at(Phase::Limit, v))
        && !too_wide(h.scale, width_at(Phase::Scale, v))
        && subnets < pow2(width_at(Phase::SubnetCount, v)) as usize
}

// Puts a run of numbers behind the n that a table holds, as far as there is room, and says how many it holds then. There is no heap here for
// a Vec, so the table is an array, and how much of it is filled stands beside it.
fn push(numbers: &mut [u16], n: usize, run: &[u16]) -> usize
    ensures numbers_len_unchanged { length numbers.new ≡ length numbers.old }
    ensures by_index { (xs : List ℕ) → Leads xs numbers.old n → Leads (xs ++ run.now) numbers.new result }
{
    if numbers.len() <= n {
        return n;
    }
    let end = n + run.len().min(numbers.len() - n);
    numbers[n..end].copy_from_slice(&run[..end - n]);
    end
}

// How many numbers a table holds, and the number of the next arc.
#[derive(Clone, Copy)]
struct Cursor {
    pub filled: usize,
    pub arc: usize,
}

impl Rows<'_> {
    // Whether each slice ends with a row. Two wrong tests that this rules out: one that lets the arcs end inside a row, and one that looks at the
    // places alone.
    #[tactic(auto, unfolding(crate::specs::Rows::whole_rows))]
    pub fn is_whole(&self) -> bool
        ensures { result ≡ on_rows whole_rows self.now }
    {
        self.subnets.len() % SUBNET_FIELDS == 0
            && self.places.len() % PLACE_FIELDS == 0
            && self.transitions.len() % TRANSITION_FIELDS == 0
            && self.arcs.len() % ARC_FIELDS == 0
    }

    // Whether there are as many rows as the counts say. Two wrong tests that this rules out: one that adds up another column, and one that does not
    // count the arcs.
    #[tactic(auto, using(crate::proofs::TableLaws::counted_sums))]
    pub fn counts_match(&self) -> bool
        ensures { (h : Head) → result ≡ counted (on_rows (tables_in h) self.now) }
    {
        let places = self.places.len() / PLACE_FIELDS;
        let transitions = self.transitions.len() / TRANSITION_FIELDS;
        let arcs = self.arcs.len() / ARC_FIELDS;
        adds_up(self.subnets, SUBNET_FIELDS, 2, places)
            && adds_up(self.subnets, SUBNET_FIELDS, 3, transitions)
            && adds_up(self.transitions, TRANSITION_FIELDS, 1, arcs)
    }

    // Whether each number of the tables fits its field. Two wrong tests that this rules out: one that holds arcs against the widths of subnets, and
    // one that leaves the header out.
    pub fn values_fit(&self, head: Head) -> bool
        ensures { Tells result (on_rows (ValuesFit head) self.now) }
    {
        let v = head.version;
        header_fits(head, self.subnets.len() / SUBNET_FIELDS)
            && rows_fit(self.subnets, &SUBNET, v)
            && rows_fit(self.places, &PLACE, v)
            && rows_fit(self.transitions, &TRANSITION, v)
            && rows_fit(self.arcs, &ARC, v)
    }

    // Puts transitions, each with its arcs, behind what a table holds. Rows are taken by their numbers: an iterator over them would be no plainer,
    // since which rows of the other slices are theirs is a sum that is carried along all the same.
    fn push_transitions(
        &self,
        numbers: &mut [u16],
        from: Cursor,
        first: usize,
        count: usize,
    ) -> Cursor
        requires { RunsInside self.now.transitions.now self.now.arcs.now first count from.arc }
        ensures numbers_len_unchanged { length numbers.new ≡ length numbers.old }
        ensures arc_value { result.arc ≡ arcs_before self.now.transitions.now (first + count) }
        ensures by_index { (xs : List ℕ) → Leads xs numbers.old from.filled → Leads (xs ++ runs first count (transition_run self.now.transitions.now self.now.arcs.now)) numbers.new result.filled }
    {
        let mut c = from;
        for t in first..first + count {
            let row = TRANSITION_FIELDS * t;
            let n = push(
                numbers,
                c.filled,
                &self.transitions[row..row + TRANSITION_FIELDS],
            );
            let next = c.arc + self.transitions[row + 1] as usize;
            let arcs = &self.arcs[ARC_FIELDS * c.arc..ARC_FIELDS * next];
            c = Cursor {
                filled: push(numbers, n, arcs),
                arc: next,
            };
        }
        c
    }

    // Puts subnets, each with its places and its transitions, behind the n numbers that a table holds. By their numbers too, for the same reason.
    fn push_subnets(&self, numbers: &mut [u16], n: usize) -> usize
        requires { on_rows TablesInside self.now }
        ensures numbers_len_unchanged { length numbers.new ≡ length numbers.old }
        ensures by_index { (xs : List ℕ) → Leads xs numbers.old n → Leads (xs ++ runs 0 (length self.now.subnets.now / subnet_fields) (on_rows subnet_run self.now)) numbers.new result }
    {
        let mut m = n;
        let mut place = 0;
        let mut transition = 0;
        let mut arc = 0;
        for s in 0..self.subnets.len() / SUBNET_FIELDS {
            let row = SUBNET_FIELDS * s;
            m = push(numbers, m, &self.subnets[row..row + SUBNET_FIELDS]);
            let next = place + self.subnets[row + 2] as usize;
            m = push(
                numbers,
                m,
                &self.places[PLACE_FIELDS * place..PLACE_FIELDS * next],
            );
            place = next;
            let k = self.subnets[row + 3] as usize;
            let c = self.push_transitions(numbers, Cursor { filled: m, arc }, transition, k);
            m = c.filled;
            arc = c.arc;
            transition += k;
        }
        m
    }

    // The numbers of tables in the order of the card, as many as a card can have. Two wrong ones that this rules out: one that writes the limit for
    // the signals, and one that leaves the header out.
    pub fn gather(&self, h: Head) -> [u16; TABLE]
        requires tables_inside { on_rows TablesInside self.now }
        requires few_subnets { length self.now.subnets.now / subnet_fields < 65536 }
        ensures { Gathered (on_rows (in_order h) self.now) result }
    {
        let mut numbers = [0; TABLE];
        let header = [
            h.version,
            (self.subnets.len() / SUBNET_FIELDS) as u16,
            h.signals,
            h.limit,
            h.scale,
        ];
        let n = push(&mut numbers, 0, &header);
        self.push_subnets(&mut numbers, n);
        numbers
    }
}
