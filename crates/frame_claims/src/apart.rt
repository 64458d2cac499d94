//! Whether claims of a history may be equal: one that was given back, or settled by an outcome that was behind, may be
//! made again, unless a lemma was added or raised since.

ghost use Rattle.std.specs.Prelude.{◌≡◌, ◌∷◌, [], List, true, false, IfOk, IfSome, MatchBool};
ghost use Rattle.clause_core.specs.Systems.{TransitionSystem};
ghost use Rattle.frame_core.specs.declared.parts.Lemma.{Lemma as ALemma};
ghost use Rattle.frame_history.specs.declared.entries.Limits.{Limits as ALimits};
ghost use Rattle.frame_history.specs.History.{start, replay, is_behind, IsLawful};
ghost use Rattle.frame_claims.specs.Apart.{VoidsAreOld, grown_by, says_spent, IsBelow, Leads};
ghost use Rattle.frame_claims.specs.Apart.{notes_spent as is_spent_note};

use frame_history::{Change, Entry};
use std::alloc::{AllocError, Global};

/// Whether each claim of the history that came to nothing is older than the last lemma that was added or raised by
/// then.
///
/// Then no two claims of a lawful history are equal. It looks at each entry once, and keeps a number for each. The only
/// error is out of memory.
pub fn are_apart(alloc: Global, history: &[Entry]) -> Result<bool, AllocError>
    ensures { IfOk result (λ apart. apart ≡ true → (limits : ALimits) (systems : List TransitionSystem) (carried : List ALemma) → IsLawful limits (start limits systems carried) history.now → VoidsAreOld (start limits systems carried) history.now) }
{
    let mut made = Vec::new(alloc);
    let mut growth = 0usize;
    'entries: for n in 0..history.len() {
        made.push(growth)?;
        match grown(&made, growth, &history[n]) {
            Some(now) => growth = now,
            None => return Ok(false),
        }
    }
    Ok(true)
}

// The growth after the entry; none where it makes a claim void that is not older.
fn grown(made: &Vec<usize>, growth: usize, entry: &Entry) -> Option<usize>
    ensures { IfSome result (Leads made.now.items growth entry.now) }
{
    match entry {
        Entry::Claim { .. } => Some(growth),
        Entry::Settle {
            worker: _,
            claim,
            changes,
        } => {
            let now = growth.checked_add(adds(changes.as_slice()))?;
            if is_late(changes.as_slice()) && !is_below(made, *claim, now) {
                return None;
            }
            Some(now)
        }
        Entry::Back { worker: _, claim } => {
            if is_below(made, *claim, growth) {
                Some(growth)
            } else {
                None
            }
        }
    }
}

// 1 where the first change adds or raises a lemma.
#[tactic(auto, using(crate::proofs::Firsts::grown_some, crate::proofs::Firsts::grown_none))]
fn adds(changes: &[Change]) -> usize
    ensures { result ≡ grown_by changes.now }
{
    match changes.first() {
        Some(change) => usize::from(grows(change)),
        None => 0,
    }
}

// Whether the change adds or raises a lemma.
fn grows(change: &Change) -> bool
    ensures { MatchBool result (grown_by (change.now ∷ []) ≡ 1) (grown_by (change.now ∷ []) ≡ 0) }
{
    match change {
        Change::Add { .. } => true,
        Change::Raise { .. } => true,
        _ => false,
    }
}

// Whether the outcome was behind.
#[tactic(auto, using(crate::proofs::Firsts::behind_some, crate::proofs::Firsts::behind_none))]
fn is_late(changes: &[Change]) -> bool
    ensures { result ≡ is_behind changes.now }
{
    match changes.first() {
        Some(change) => lags(change),
        None => false,
    }
}

// Whether the change says that the outcome was behind.
fn lags(change: &Change) -> bool
    ensures { result ≡ is_behind (change.now ∷ []) }
{
    matches!(change, Change::Behind(_))
}

// Whether a lesser number was noted for the entry.
fn is_below(made: &Vec<usize>, n: usize, growth: usize) -> bool
    ensures { result ≡ true → IsBelow made.now.items n growth }
{
    match made.get(n) {
        Some(noted) => *noted < growth,
        None => false,
    }
}

/// Whether no claim of the history was settled by an outcome that the purse was spent. It looks at each entry once.
pub fn is_unspent(history: &[Entry]) -> bool
    ensures { result ≡ true → (limits : ALimits) (systems : List TransitionSystem) (carried : List ALemma) → IsLawful limits (start limits systems carried) history.now → (replay (start limits systems carried) history.now).spent ≡ false }
{
    'entries: for n in 0..history.len() {
        if notes_spent(&history[n]) {
            return false;
        }
    }
    true
}

// Whether the entry settles a claim by an outcome that the purse was spent.
fn notes_spent(entry: &Entry) -> bool
    ensures { result ≡ is_spent_note entry.now }
{
    match entry {
        Entry::Settle {
            worker: _,
            claim: _,
            changes,
        } => is_out(changes.as_slice()),
        Entry::Claim { .. } => false,
        Entry::Back { .. } => false,
    }
}

// Whether the first change says that the purse was spent.
#[tactic(auto, using(crate::proofs::Firsts::spent_some, crate::proofs::Firsts::spent_none))]
fn is_out(changes: &[Change]) -> bool
    ensures { result ≡ says_spent changes.now }
{
    match changes.first() {
        Some(change) => is_spent(change),
        None => false,
    }
}

// Whether the change says that the purse was spent.
fn is_spent(change: &Change) -> bool
    ensures { result ≡ says_spent (change.now ∷ []) }
{
    matches!(change, Change::Spent)
}
