//! The answer of a policy to a question: a permit, or a refusal with its reason.

use crate::permit::Permit;
use acl_binding::Question;

/// Why a question was refused.
#[derive(Clone, Copy, Debug, PartialEq, Eq)]
pub enum DenyReason {
    /// The creation number of the first binding that denies it.
    Denied(u64),
    /// No binding denies it, and none allows it.
    Nothing,
}

/// A question that was refused, and why.
#[derive(Clone, Debug, Drop)]
pub struct Refusal {
    pub question: Question,
    pub why: DenyReason,
}

/// The answer to a question: a permit, which must be spent or declined, or a refusal.
pub enum Answer {
    Granted(Permit),
    Refused(Refusal),
}
