//! Compares receipts with the trail.

ghost use Rattle.std.specs.Prelude.{◌≡◌, ℕ, ◌+◌, ◌<◌, ◌↔◌, length, All, Any, IfOk, IfErr, IsTrue, MatchBool};
ghost use Rattle.audit_trail.specs.Trail.{refusal_count};
ghost use Rattle.session_workers.specs.Settle.{IsInTrail, AreInTrail, times_held, times_in, Settles, Faults, tick_count, fault_name};

use audit_trail::{Trail, is_same_event, is_same_reply};
use request_handlers::Receipt;
use session_pool::Quiet;
use std::alloc::Global;
use std::sync::ledger::Ledger;
use thiserror::Error;

/// Why receipts and trail don't agree.
#[derive(Clone, Copy, Debug, PartialEq, Eq, Error)]
pub enum SettleFault {
    /// A receipt whose event or reply isn't the trail's at its place.
    #[error("a receipt tells of another event or reply than the trail at its place")]
    Stray = 1,
    /// A place that more than one receipt holds.
    #[error("two receipts hold one place of the trail")]
    Twice = 2,
    /// A place that no receipt holds.
    #[error("no receipt holds a place of the trail")]
    Missing = 3,
    /// An allocation failed for the marks at the trail's places.
    #[error("there is not enough memory for a mark at each place of the trail")]
    NoMemory = 4,
}

impl SettleFault {
    /// The fault's name, as `settle failed:` prints it.
    pub fn name(self) -> &'static str
        ensures { result.now ≡ fault_name self }
    {
        match self {
            SettleFault::Stray => "Stray",
            SettleFault::Twice => "Twice",
            SettleFault::Missing => "Missing",
            SettleFault::NoMemory => "NoMemory",
        }
    }
}

/// What a settled core did.
#[derive(Clone, Copy, Debug, PartialEq, Eq)]
pub struct Settled {
    /// The entries of its trail.
    pub events: u64,
    /// The refusals in them.
    pub refusals: u64,
}

/// Whether a receipt's event and reply are those that the trail has at its place.
fn is_told(trail: &Trail, receipt: &Receipt) -> bool
    ensures { IsTrue result ↔ IsInTrail trail.now receipt.now }
{
    match trail.entry(receipt.place() as usize) {
        Some(entry) => {
            is_same_event(entry.event.value(), receipt.event())
                && is_same_reply(entry.reply.value(), receipt.reply())
        }
        None => false,
    }
}

/// Whether each of these receipts has the event and the reply that the trail has at its place.
fn all_told(trail: &Trail, receipts: &[Receipt]) -> bool
    ensures { MatchBool result (All (IsInTrail trail.now) receipts.now)
        (Any (λ r. ¬ IsInTrail trail.now r) receipts.now) }
{
    for receipt in receipts {
        if !is_told(trail, receipt) {
            return false;
        }
    }
    true
}

/// Marks the places of these receipts in `seen`; false where a place was marked before, so that two receipts hold it, and those
/// after it aren't marked then. Each place must be one of `seen`.
fn tick_off(seen: &mut [bool], receipts: &[Receipt]) -> bool
    requires { All (λ r. r.place < length seen.old) receipts.now }
    ensures { MatchBool result
        ((place : ℕ) → tick_count seen.new place ≡ tick_count seen.old place
        + times_held place receipts.now)
        ((place : ℕ) × (1 < tick_count seen.old place + times_held place receipts.now)) }
{
    for receipt in receipts {
        let place = receipt.place() as usize;
        if seen[place] {
            return false;
        }
        seen[place] = true;
    }
    true
}

/// Whether each receipt of each end has the event and the reply that the trail has at its place.
fn are_told(trail: &Trail, ends: &[Vec<Receipt>]) -> bool
    ensures { MatchBool result (AreInTrail trail.now ends.now)
        (Any (λ v. Any (λ r. ¬ IsInTrail trail.now r) v.items) ends.now) }
{
    for end in ends {
        if !all_told(trail, end.as_slice()) {
            return false;
        }
    }
    true
}

/// Marks the places of the receipts of all ends in `seen`; false where two receipts hold one place. Each place must be one of
/// `seen`.
fn tick_ends(seen: &mut [bool], ends: &[Vec<Receipt>]) -> bool
    requires { All (λ v. All (λ r. r.place < length seen.old) v.items) ends.now }
    ensures { MatchBool result
        ((place : ℕ) → tick_count seen.new place ≡ tick_count seen.old place
        + times_in place ends.now)
        ((place : ℕ) × (1 < tick_count seen.old place + times_in place ends.now)) }
{
    for end in ends {
        if !tick_off(seen, end.as_slice()) {
            return false;
        }
    }
    true
}

/// Whether each place was marked.
fn all_ticked(seen: &[bool]) -> bool
    ensures { MatchBool result
        ((place : ℕ) → place < length seen.now → tick_count seen.now place ≡ 1)
        ((place : ℕ) × (place < length seen.now) × (tick_count seen.now place ≡ 0)) }
{
    for place in seen {
        if !*place {
            return false;
        }
    }
    true
}

/// Compares the receipts of all ends with the trail, first each with the entry at its place, then how often each place is held.
/// Gives how many events and refusals the trail has, or the first fault: `Stray`, `NoMemory`, `Twice`, and at last `Missing`.
pub fn settle<L: Ledger>(
    alloc: Global,
    quiet: &Quiet<L>,
    ends: &[Vec<Receipt>],
) -> Result<Settled, SettleFault>
    ensures ok { IfOk result
        (λ s. Settles quiet.now.trail ends.now
        × (s ≡ record {
          events = length quiet.now.trail;
          refusals = refusal_count quiet.now.trail;
        })) }
    ensures err { IfErr result (λ f. Faults quiet.now.trail ends.now f) }
{
    let trail = quiet.core().trail();
    if !are_told(trail, ends) {
        return Err(SettleFault::Stray);
    }
    let mut seen = vec![in alloc; false; trail.len()].map_err(|_| SettleFault::NoMemory)?;
    if !tick_ends(seen.as_mut_slice(), ends) {
        return Err(SettleFault::Twice);
    }
    if !all_ticked(seen.as_slice()) {
        return Err(SettleFault::Missing);
    }
    Ok(Settled {
        events: trail.len() as u64,
        refusals: trail.refusals(),
    })
}
