//! The parts of a request.

ghost use Rattle.std.specs.Prelude.{◌≡◌};
ghost use Rattle.walk.specs.Woven.{has_part};

use wire_types::Topic;

/// Whether the topics have at least one part, such as a partition, among them.
pub fn has_part<P>(topics: &[Topic<P>]) -> bool
    ensures { result ≡ has_part topics.now }
{
    for topic in topics {
        if topic.partitions.len() > 0 {
            return true;
        }
    }
    false
}
