//! The law of a rate: the contract of a function with nothing to do.

ghost use Rattle.admission.specs.PaceLaws.{RateIsKept};

/// Whatever requests a user has sent: at a moment at which it need not wait (`Pace::charge` gives 0), they cost together no more
/// than the time since the first of them, and a second; as far as moments fit in 64 bits of nanoseconds.
pub fn rate_is_kept()
    ensures { RateIsKept }
{}
