// The tests in front of a step: 25, 20 and 21.
ghost use Rattle.std.specs.Prelude.{◌≡◌, length, nat_le, nat_lt};
ghost use Rattle.card.specs.Finite.{every, lowest, some_unless};
ghost use Rattle.flattening.specs.Flattening.{flatten};
ghost use Rattle.runners.specs.State.{scale as scale_of, entry, transfer as transfer_of, covered};
ghost use Rattle.runners.specs.Calls.{view, in_range as in_range_of, consistent, in_state, valid};
ghost use Rattle.runners.specs.Rows.{row_fault};
ghost use Rattle.runners.specs.inner.Counts.{Counts};
ghost use Rattle.runners.specs.inner.Steps.{refusal_in};
ghost use Rattle.runners.specs.inner.Verdict.{found_of};
ghost use Rattle.runners.specs.declared.Refusal.TheVariants.{BadState};

use crate::row::NetView;
use crate::verdict::uncovered;
use crate::visits::{Posting, each};
use crate::work::Work;
use crate::{Refusal, State, Transfer, rules};
use card::view::CardView;

// The first signal with a degree above 1000.
fn high_degree(card: &CardView<'_>, row: &[u16]) -> Option<usize>
    ensures { found_of result ≡ lowest 0 (length row.now) (λ g. nat_lt (scale_of (flatten card.now)) (entry row.now g)) }
{
    let scale = rules::scale(card);
    row.iter().position(|degree| scale < *degree)
}

// 20 and 21: no degrees, or one for each signal and none above 1000. Two wrong tests that this rules out: one that names the highest such
// signal, and one that refuses the empty row.
#[tactic(auto, using(crate::proofs::GuardLaws::same_signals, crate::proofs::GuardLaws::row_empty, crate::proofs::GuardLaws::row_long))]
pub fn row_test(card: &CardView<'_>, row: &[u16]) -> Result<(), Refusal>
    ensures { refusal_in result ≡ row_fault (flatten card.now) row.now }
{
    if row.is_empty() {
        return Ok(());
    }
    if row.len() != card.signals() as usize {
        return Err(Refusal::BadRow);
    }
    match high_degree(card, row) {
        Some(signal) => Err(Refusal::BadDegree(signal)),
        None => Ok(()),
    }
}

// A progress is below 1000.
fn in_range(card: &CardView<'_>, transfer: Transfer) -> bool
    ensures { result ≡ in_range_of (flatten card.now) transfer }
{
    match transfer {
        Transfer::Idle => true,
        Transfer::Carrying(c) => c < rules::scale(card),
    }
}

fn transfers_in_range(card: &CardView<'_>, transfers: &[Transfer]) -> bool
    ensures { result ≡ every (length transfers.now) (λ t. in_range_of (flatten card.now) (transfer_of transfers.now t)) }
{
    transfers.iter().all(|transfer| in_range(card, *transfer))
}

fn degrees_in_range(card: &CardView<'_>, degrees: &[u16]) -> bool
    ensures { result ≡ every (length degrees.now) (λ g. nat_le (entry degrees.now g) (scale_of (flatten card.now))) }
{
    let scale = rules::scale(card);
    degrees.iter().all(|degree| *degree <= scale)
}

// Whether each place has all that is owed, and room for all that is due, by what remains of the transfers.
fn all_covered(net: &NetView<'_>, state: &State) -> bool
    ensures { Counts net.now state.now → result ≡ every (length net.now.places) (covered (flatten net.now) (view state.now).markings (view state.now).transfers) }
{
    let card = net.card();
    let mut work = Work::new(*state);
    each::<Posting>(card, 0..card.transitions(), &[], &mut work);
    uncovered(
        net.full(),
        card.places(),
        &state.markings,
        &work.standing,
        &work.claimed,
    )
    .is_none()
}

#[tactic(auto, using(crate::proofs::GuardLaws::flat_fits))]
fn has_counts(card: &CardView<'_>, state: &State) -> bool
    ensures { result ≡ in_state.fits (flatten card.now) state.now }
{
    state.places == card.places() as usize
        && state.transitions == card.transitions() as usize
        && state.signals == card.signals() as usize
}

#[tactic(auto, using(crate::proofs::GuardLaws::none_covered, crate::proofs::GuardLaws::none_ranged, crate::proofs::GuardLaws::few_used))]
fn is_consistent(net: &NetView<'_>, state: &State) -> bool
    ensures { Counts net.now state.now → result ≡ consistent (flatten net.now) (view state.now) }
{
    all_covered(net, state)
        && transfers_in_range(net.card(), state.transfers())
        && degrees_in_range(net.card(), state.degrees())
}

// Whether a lent state has the counts, the cover and the ranges of a net.
#[tactic(auto, using(crate::proofs::GuardLaws::unfit))]
fn is_valid(net: &NetView<'_>, state: &State) -> bool
    ensures { result ≡ valid (flatten net.now) state.now }
{
    has_counts(net.card(), state) && is_consistent(net, state)
}

// 25. Two wrong tests that this rules out: one that leaves out what is due, and one that lets a progress of 1000 pass.
pub fn state_test(net: &NetView<'_>, state: &State) -> Result<(), Refusal>
    ensures { refusal_in result ≡ some_unless (valid (flatten net.now) state.now) BadState }
{
    if !is_valid(net, state) {
        return Err(Refusal::BadState);
    }
    Ok(())
}
