//! For which group a consumer commits, and as which member of it.

ghost use Rattle.std.specs.Prelude.{◌≡◌};
ghost use Rattle.group_offsets.specs.Group.{is_unmanaged};

use wire_types::Text;

/// For which group a consumer commits offsets, and as which of its members (the ConsumerGroupMetadata of KIP-447).
#[derive(Clone, Copy)]
pub struct GroupMetadata<'a> {
    /// The group's id.
    pub group: &'a Text,
    /// The group's generation as the member knows it; -1 where no member commits.
    pub generation: i32,
    /// The member's id; empty where no member commits.
    pub member: &'a Text,
}

impl<'a> GroupMetadata<'a> {
    /// Whether the consumer commits as no member: generation -1 and the empty id, as one does that assigns its partitions itself.
    pub(crate) fn is_unmanaged(&self) -> bool
        ensures { result ≡ is_unmanaged self.now.generation self.now.member.now }
    {
        self.generation == -1 && self.member.as_bytes().is_empty()
    }
}
