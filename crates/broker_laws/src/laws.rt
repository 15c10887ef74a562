//! The laws of the whole broker, each the contract of a function with nothing to do. Most hold of the world that any list of
//! events reaches from any settings (`world_after_events`), and so of each core that isn't down (`cores`).

ghost use Rattle.api_dispatch.specs.Step.{refusals_of, reply_to, step};
ghost use Rattle.broker_world.specs.First.{first_world};
ghost use Rattle.broker_world.specs.World.{World};
ghost use Rattle.broker_laws.specs.Wrong.{entries_of_partitions_alone, first_for_everybody, first_without_acls, refusals_of_marks, step_committing_at_once, step_ending_early, step_going_back, step_removing_groups, step_with_retention, step_without_lapses};
ghost use Rattle.broker_laws.specs.WrongEnds.{step_deciding_nothing, step_ending_nothing, step_fencing_nobody, step_keeping_epochs, step_owing_nothing, step_swapping_outcomes, step_taking_nothing_over, step_without_timeouts};
ghost use Rattle.broker_laws.specs.WrongMembers.{reply_beating_for_anybody, reply_in_any_generation, reply_leaving_for_anybody, reply_letting_a_second_in, reply_telling_the_member, reply_unknown_for_full, step_keeping_generations, step_leaving_for_anybody, step_letting_a_second_in};
ghost use Rattle.broker_laws.specs.Targets.{HasTargets};
ghost use Rattle.broker_laws.specs.Laws.{InReached, InCores};
ghost use Rattle.broker_laws.specs.Laws.{EntriesAreTheLog, IsMoved, EventsAreMoves};
ghost use Rattle.broker_laws.specs.Laws.{Prepares, OwesMarkers, OwesPrepared, CompletesPrepared, CompletesWaiting, EndsComplete, MarksAreNotRefused};
ghost use Rattle.broker_laws.specs.Laws.{DecidesPrepared, DecidesWaiting, GroupsGoOn};
ghost use Rattle.broker_laws.specs.Laws.{Fences, FencesProducers, FencedWriteNothing, NoDataAfterAGreaterMarker};
ghost use Rattle.broker_laws.specs.LogEnds.{LogsGoOn, EndsPrepared, EndsWaiting};
ghost use Rattle.broker_laws.specs.Entries.{entries_in};
ghost use Rattle.broker_laws.specs.CommitAbort.{CommitsAreShown};
ghost use Rattle.broker_laws.specs.Scripts.{OffsetsFollowTheEnd};
ghost use Rattle.broker_laws.specs.FirstWorld.{FirstWorldIsTheSettings};
ghost use Rattle.broker_laws.specs.Time.{TicksEndWhatIsOver};
ghost use Rattle.broker_laws.specs.Trails.{TrailTells, CompletesOverATrail, CompletesBeforeIdle, CompletesOverARun, FencedOverATrail, FencedOverARun};
ghost use Rattle.broker_laws.specs.Members.{MembersComeAndGo};
ghost use Rattle.broker_laws.specs.Commits.{CommitsAreOfMembers};
ghost use Rattle.broker_laws.specs.MemberCodes.{CallsByNumber};
ghost use Rattle.broker_laws.specs.Fetches.{FetchesByEvents, OffsetsAreTold, CommitsAreFetched};
ghost use Rattle.broker_laws.specs.WrongOffsets.{fetch_of_nothing, fetch_of_staged, fetch_of_unstable, reply_committing_for_anybody, reply_committing_in_any_generation, reply_naming_nothing, reply_with_unstable_offsets, reply_without_offsets, step_committing_for_anybody, step_committing_in_any_generation, step_committing_nothing};
ghost use Rattle.group_offsets.specs.Offsets.{fetch_result};

/// A broker begins with the ACL bindings of its settings, each once, numbered from 1, and in their order where all are different;
/// and with their topics in order, each with so many empty partitions.
pub fn first_world_is_the_settings()
    ensures first { FirstWorldIsTheSettings first_world }
    ensures supers { ¬ FirstWorldIsTheSettings first_for_everybody }
    ensures acls { ¬ FirstWorldIsTheSettings first_without_acls }
{}

/// The broker's time never goes back. A tick aborts each open transaction whose timeout is over, removes each member of which
/// nothing was heard for longer than its session timeout, and leaves all other transactions and groups as they were.
pub fn ticks_end_what_is_over()
    ensures ends { TicksEndWhatIsOver step }
    ensures never_back { ¬ TicksEndWhatIsOver step_going_back }
    ensures members { ¬ TicksEndWhatIsOver step_without_lapses }
    ensures in_time { ¬ TicksEndWhatIsOver step_ending_early }
{}

/// The laws of transactions are about the real logs: what they see of a partition is its log, batch by batch, and of a group its
/// commits and decisions of offsets.
pub fn entries_are_the_log()
    ensures log { EntriesAreTheLog entries_in }
    ensures groups { ¬ EntriesAreTheLog entries_of_partitions_alone }
{}

/// Each event changes the coordinator, the time, the logs and the groups' offsets just as the steps do of which the laws of
/// transactions speak, one after the other.
pub fn events_are_moves()
    ensures each { InReached IsMoved }
    ensures all { EventsAreMoves }
{}

/// Each partition that was added to a transaction, and each for which a marker is pending, exists.
pub fn targets_exist()
    ensures reached { InReached HasTargets }
    ensures cores { InCores HasTargets }
{}

/// An open transaction is prepared for its end by an EndTxn that is answered no error, by an InitProducerId that takes its
/// transactional id over, and by a tick after its timeout.
pub fn prepares()
    ensures ends { Prepares step reply_to }
    ensures as_named { ¬ Prepares step_swapping_outcomes reply_to }
    ensures ended { ¬ Prepares step_ending_nothing reply_to }
    ensures taken_over { ¬ Prepares step_taking_nothing_over reply_to }
    ensures in_time { ¬ Prepares step_without_timeouts reply_to }
{}

/// Whatever prepares a transaction leaves a marker pending for each partition and group that was added: with the producer's own
/// epoch where an EndTxn of up to version 4 ends it, and else with the epoch raised by one.
pub fn owes_each()
    ensures reached { OwesMarkers step }
    ensures markers { ¬ OwesMarkers step_owing_nothing }
    ensures epochs { ¬ OwesMarkers step_keeping_epochs }
    ensures cores { InCores (OwesPrepared step) }
{}

/// A prepared transaction is completed at each partition and group that was added, by as many marks as markers are pending up to
/// its last one, whatever other events come between them; also where its owner loses the permission meanwhile.
pub fn completes_prepared()
    ensures reached { InReached CompletesPrepared }
    ensures cores { InCores CompletesPrepared }
{}

/// A transaction that waits for its markers is completed, by as many marks as are pending up to its last one, at each partition
/// and group for which one is still pending.
pub fn completes_waiting()
    ensures reached { InReached CompletesWaiting }
    ensures cores { InCores CompletesWaiting }
{}

/// Once a transaction's markers are written, all that its producer had open in the log of each partition that it took in is
/// ended: a commit makes those records committed, and an abort doesn't.
pub fn ends_batches()
    ensures prepared_reached { InReached EndsPrepared }
    ensures prepared_cores { InCores EndsPrepared }
    ensures waiting_reached { InReached EndsWaiting }
    ensures waiting_cores { InCores EndsWaiting }
{}

/// Once the markers are written, what a client's EndTxn commits is shown to each consumer with read_committed that is served it,
/// and what it aborts to none: the marker in each log has type 1 for a commit and 0 for an abort, and of a group's offsets a
/// commit shows what was staged, and an abort doesn't.
pub fn commits_are_shown()
    ensures ends { CommitsAreShown }
    ensures offsets { OffsetsFollowTheEnd step reply_to }
    ensures as_named { ¬ OffsetsFollowTheEnd step_swapping_outcomes reply_to }
    ensures after_the_end { ¬ OffsetsFollowTheEnd step_committing_at_once reply_to }
    ensures decided { ¬ OffsetsFollowTheEnd step_deciding_nothing reply_to }
{}

/// What a partition's log holds stays there, whatever event comes: batches and markers are only appended.
pub fn logs_go_on()
    ensures each { LogsGoOn step }
    ensures no_retention { ¬ LogsGoOn step_with_retention }
{}

/// Once a transaction's markers are written, all offsets that its producer had staged in each group that it took in are decided:
/// a commit makes them the group's committed offsets, and an abort doesn't.
pub fn decides_groups()
    ensures prepared_reached { InReached DecidesPrepared }
    ensures prepared_cores { InCores DecidesPrepared }
    ensures waiting_reached { InReached DecidesWaiting }
    ensures waiting_cores { InCores DecidesWaiting }
{}

/// What a group holds of commits and decisions stays there. More comes only by an OffsetCommit for the group, by a
/// TxnOffsetCommit for it of a transaction that takes the group in, or by the marker of such a transaction.
pub fn groups_go_on()
    ensures each { GroupsGoOn step }
    ensures no_removal { ¬ GroupsGoOn step_removing_groups }
    ensures by_the_end { ¬ GroupsGoOn step_committing_at_once }
{}

/// A transaction that waits for its markers is CompleteCommit or CompleteAbort once the last of them is written.
pub fn ends_complete()
    ensures reached { InReached EndsComplete }
    ensures cores { InCores EndsComplete }
{}

/// A mark, which writes the next pending marker, asks for no permission: the trail keeps no refusal of it.
pub fn marks_are_not_refused()
    ensures marks { MarksAreNotRefused refusals_of }
    ensures unasked { ¬ MarksAreNotRefused refusals_of_marks }
{}

/// The trail alone shows which events prepared an open transaction for its end: an EndTxn that was answered no error, an
/// InitProducerId that was answered CONCURRENT_TRANSACTIONS (51), and a tick after the transaction's timeout.
pub fn trail_tells()
    ensures { TrailTells }
{}

/// Where the trail holds an event that prepared a transaction, and later as many marks as markers were then pending up to the
/// transaction's last one, or a mark that found nothing to write, the transaction is completed.
pub fn completes_over_a_trail()
    ensures counted { CompletesOverATrail }
    ensures before_idle { CompletesBeforeIdle }
{}

/// Where a core took a list of events in which one prepared a transaction and as many marks came later as were needed, the
/// transaction is completed.
pub fn completes_over_a_run()
    ensures { CompletesOverARun }
{}

/// A transactional id leaves its producer id and epoch by each InitProducerId that is answered new ones, and by each event that
/// aborts its open transaction unasked.
pub fn fences()
    ensures reached { FencesProducers step reply_to }
    ensures by_time { ¬ FencesProducers step_keeping_epochs reply_to }
    ensures by_the_next { ¬ FencesProducers step_fencing_nobody reply_to }
    ensures cores { InCores (Fences step reply_to) }
{}

/// A producer whose transactional id has gone on to another producer id or epoch writes nothing more to any log or group, and is
/// refused.
pub fn fenced_write_nothing()
    ensures reached { InReached FencedWriteNothing }
    ensures cores { InCores FencedWriteNothing }
{}

/// Where the trail holds events by which a transactional id left a producer id and epoch, nothing of that producer and epoch is
/// written to any log or group after them, and it is refused.
pub fn fenced_over_a_trail()
    ensures { FencedOverATrail }
{}

/// Where a core took a list of events by some of which a transactional id left a producer id and epoch, the others after these
/// wrote nothing of that producer and epoch to any log or group, and it is refused.
pub fn fenced_over_a_run()
    ensures { FencedOverARun }
{}

/// In a log, no batch of a producer stands after a marker of the same producer id with a greater epoch.
pub fn no_data_after_a_greater_marker()
    ensures reached { InReached NoDataAfterAGreaterMarker }
    ensures cores { InCores NoDataAfterAGreaterMarker }
{}

/// A group has at most one member. It comes in by a JoinGroup that is told no error, which raises the generation by one as
/// nothing else does, and goes by its own LeaveGroup or when its session times out. Between two such joins of different members
/// there is one of these.
pub fn members_come_and_go()
    ensures members { MembersComeAndGo step reply_to }
    ensures one { ¬ MembersComeAndGo step_letting_a_second_in reply_letting_a_second_in }
    ensures generations { ¬ MembersComeAndGo step_keeping_generations reply_to }
    ensures own { ¬ MembersComeAndGo step_leaving_for_anybody reply_leaving_for_anybody }
    ensures lapses { ¬ MembersComeAndGo step_without_lapses reply_to }
{}

/// An OffsetCommit of a group's member in its generation, or one without a member where the group has none, commits each offset
/// for which it is told no error; one of another member or generation commits nothing. The same holds of what a TxnOffsetCommit
/// stages.
pub fn commits_are_of_members()
    ensures members { CommitsAreOfMembers step reply_to }
    ensures generations { ¬ CommitsAreOfMembers step_committing_in_any_generation reply_committing_in_any_generation }
    ensures strangers { ¬ CommitsAreOfMembers step_committing_for_anybody reply_committing_for_anybody }
    ensures told { ¬ CommitsAreOfMembers step_committing_nothing reply_to }
    ensures staged { ¬ CommitsAreOfMembers step_committing_at_once reply_to }
{}

/// By the numbers of the protocol guide: which error a JoinGroup, SyncGroup, Heartbeat and LeaveGroup is answered; and that
/// whoever gets one learns nothing of the group.
pub fn member_calls_by_number()
    ensures numbers { CallsByNumber reply_to }
    ensures strangers { ¬ CallsByNumber reply_beating_for_anybody }
    ensures generations { ¬ CallsByNumber reply_in_any_generation }
    ensures full { ¬ CallsByNumber reply_unknown_for_full }
    ensures nothing { ¬ CallsByNumber reply_telling_the_member }
{}

/// An offset whose OffsetCommit was told no error is what an OffsetFetch tells, until the group commits or decides another for
/// that partition; and so is one of a TxnOffsetCommit, once its transaction commits. For each commit and decision it is said what
/// is fetched after it.
pub fn commits_are_fetched()
    ensures by_events { FetchesByEvents fetch_result }
    ensures some { ¬ FetchesByEvents fetch_of_nothing }
    ensures committed { ¬ FetchesByEvents fetch_of_staged }
    ensures stable { ¬ FetchesByEvents fetch_of_unstable }
    ensures told { OffsetsAreTold reply_to }
    ensures offsets { ¬ OffsetsAreTold reply_without_offsets }
    ensures require_stable { ¬ OffsetsAreTold reply_with_unstable_offsets }
    ensures unnamed { ¬ OffsetsAreTold reply_naming_nothing }
    ensures over_events { (w : World) → CommitsAreFetched w }
{}
