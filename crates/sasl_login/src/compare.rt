//! Texts are compared without stopping where they differ, so that the time doesn't tell the place.

ghost use Rattle.std.specs.Prelude.{◌≡◌};
ghost use Rattle.std.specs.Str.{bytes_eq};
ghost use Rattle.sasl_login.specs.Compared.{differences};

/// At how many places two texts differ, counting those that only one of them has. Each place is looked at. `told` is the client's
/// text, `kept` the user's.
fn differences(told: &[u8], kept: &[u8]) -> usize
    ensures { result ≡ differences told.now kept.now }
{
    let mut count = 0;
    let mut rest = kept;
    for byte in told {
        match rest.split_first() {
            Some((first, more)) => {
                count += usize::from(first != byte);
                rest = more;
            }
            None => count += 1,
        }
    }
    count + rest.len()
}

/// Whether two texts are the same, found out in a time that doesn't tell where they differ, but may tell their lengths.
#[tactic(auto, using(crate::proofs::Compared::same_bytes))]
pub(crate) fn are_same(told: &[u8], kept: &[u8]) -> bool
    ensures { result ≡ bytes_eq kept.now told.now }
{
    differences(told, kept) == 0
}
