//! The laws of groups and their offsets, each the contract of a function with nothing to do.

ghost use Rattle.group_offsets.specs.Laws.{CommittedGoesOn, PendingGoesOn, StagedIsPending, GroupsAreApart, AnswersAreApart};

/// A partition's committed offset is the one that was committed last: by an OffsetCommit of it, or by the commit of a
/// transaction, with the offset of it that the producer staged last. Staging alone and aborts don't change it.
pub fn committed_goes_on()
    ensures { CommittedGoesOn }
{}

/// The offset of a partition that a producer staged last stays undecided until that producer's transaction is decided, or until
/// the producer stages another. Nothing else ends that.
pub fn pending_goes_on()
    ensures { PendingGoesOn }
{}

/// A partition counts as staged if, and only if, some producer has an undecided offset of it.
pub fn staged_is_pending()
    ensures { StagedIsPending }
{}

/// What a group holds after any calls and ticks depends only on what it held, on the calls that name it, and on the ticks. A
/// tick, which removes members whose session timeout is over, concerns every group.
pub fn groups_are_apart()
    ensures { GroupsAreApart }
{}

/// What a JoinGroup, SyncGroup, Heartbeat, LeaveGroup, commit or staging of offsets, or marker is answered after any calls and
/// ticks depends only on the call itself, on what its group held, on the earlier calls that name the group, and on the ticks.
/// OffsetFetch isn't among the calls.
pub fn answers_are_apart()
    ensures { AnswersAreApart }
{}
