// The board's verdict.
ghost use Rattle.std.specs.Prelude.{◌≡◌, not};
ghost use Rattle.card.specs.Finite.{lowest};
ghost use Rattle.runners.specs.inner.Verdict.{covered_by, found_of};

use crate::claims::{Claims, entry_at};

// Whether place p has all that is owed, and room for all that is due: its marking, the claims that stand and those of candidates, and its full
// marking.
fn covers(full: &[u32], p: u16, markings: &[u32], standing: &Claims, claimed: &Claims) -> bool
    ensures { result ≡ covered_by full.now markings.now standing.now claimed.now p }
{
    let at = p as usize;
    let m = entry_at(markings, at);
    entry_at(&standing.owed, at) + entry_at(&claimed.owed, at) <= m
        && m + (entry_at(&standing.due, at) + entry_at(&claimed.due, at)) <= entry_at(full, at)
}

// The lowest place that is not covered, if there is one.
pub fn uncovered(
    full: &[u32],
    places: u16,
    markings: &[u32],
    standing: &Claims,
    claimed: &Claims,
) -> Option<u16>
    ensures { found_of result ≡ lowest 0 places (λ p. not (covered_by full.now markings.now standing.now claimed.now p)) }
{
    (0..places).find(|p| !covers(full, *p, markings, standing, claimed))
}
