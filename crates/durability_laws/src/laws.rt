//! The laws of what stays, each the contract of a function with nothing to do: the broker's step has the law, and each wrong step
//! hasn't.

ghost use Rattle.api_dispatch.specs.Step.{outcome};
ghost use Rattle.durability_laws.specs.Acknowledged.{KeepsWhatIsAcknowledged, KeepsWhatStands};
ghost use Rattle.durability_laws.specs.Committed.{KeepsWhatIsStable, ServesWhatIsStable};
ghost use Rattle.durability_laws.specs.ReadBack.{ReadsWhatIsAcknowledged};
ghost use Rattle.durability_laws.specs.OverATrail.{ReadsBackOverATrail};
ghost use Rattle.durability_laws.specs.Offsets.{KeepsCommittedOffsets, TellsUnstableOffsets};
ghost use Rattle.durability_laws.specs.WrongSteps.{step_forgetting_offsets, step_committing_nothing, step_telling_no_offset, step_ignoring_require_stable, step_always_unstable};
ghost use Rattle.durability_laws.specs.WrongSteps.{step_appending_nothing, step_telling_the_next_offset, step_keeping_the_offset_sent, step_keeping_the_last_batch, step_taking_transactions_out, step_taking_markers_out, step_without_the_last_batch, step_without_a_large_batch, step_fetching_as_committed};

/// What was sent to a partition that a Produce was told no error for stands in the partition's log at the offset that was told,
/// after all later events. Whatever stands in a log stays there, at its offset.
pub fn acknowledged_records_stay()
    ensures acknowledged { KeepsWhatIsAcknowledged outcome }
    ensures acknowledged_not_dropped { ¬ KeepsWhatIsAcknowledged step_appending_nothing }
    ensures acknowledged_at_its_offset { ¬ KeepsWhatIsAcknowledged step_telling_the_next_offset }
    ensures acknowledged_with_its_offset { ¬ KeepsWhatIsAcknowledged step_keeping_the_offset_sent }
    ensures acknowledged_not_the_last_alone { ¬ KeepsWhatIsAcknowledged step_keeping_the_last_batch }
    ensures stands { KeepsWhatStands outcome }
    ensures stands_not_the_last_alone { ¬ KeepsWhatStands step_keeping_the_last_batch }
    ensures stands_in_transactions { ¬ KeepsWhatStands step_taking_transactions_out }
{}

/// Where a Produce tells a partition no error and an offset, a Fetch from that offset begins with what was sent, after all later
/// events, for whoever may READ the topic then: with read_uncommitted at once, and with read_committed once it is below the last
/// stable offset. So it is of each Produce in the trail of a core.
pub fn acknowledged_records_are_read()
    ensures read { ReadsWhatIsAcknowledged outcome }
    ensures read_not_dropped { ¬ ReadsWhatIsAcknowledged step_appending_nothing }
    ensures read_also_last { ¬ ReadsWhatIsAcknowledged step_without_the_last_batch }
    ensures read_also_uncommitted { ¬ ReadsWhatIsAcknowledged step_fetching_as_committed }
    ensures over_a_trail { ReadsBackOverATrail }
{}

/// What ends at the last stable offset of a partition's log, or below, does so after all later events; and a Fetch of whoever may
/// READ the topic then, at either level, begins with the batch that it asks for, as `fetches_succeed` of `read_laws` says.
pub fn committed_records_stay()
    ensures stable { KeepsWhatIsStable outcome }
    ensures stable_also_markers { ¬ KeepsWhatIsStable step_taking_markers_out }
    ensures served { ServesWhatIsStable outcome }
    ensures served_not_the_last_alone { ¬ ServesWhatIsStable step_keeping_the_last_batch }
    ensures served_also_last { ¬ ServesWhatIsStable step_without_the_last_batch }
    ensures served_also_large { ¬ ServesWhatIsStable step_without_a_large_batch }
{}

/// An offset that an OffsetCommit was told no error for is what an OffsetFetch tells whoever may DESCRIBE the group and the topic,
/// after all later events that neither commit that partition for the group nor end a transaction in which an offset of it waits.
/// Whoever requires a stable offset is told it while none waits, and UNSTABLE_OFFSET_COMMIT (88) while one does.
pub fn committed_offsets_stay()
    ensures offsets { KeepsCommittedOffsets outcome }
    ensures offsets_not_forgotten { ¬ KeepsCommittedOffsets step_forgetting_offsets }
    ensures offsets_not_dropped { ¬ KeepsCommittedOffsets step_committing_nothing }
    ensures offsets_not_untold { ¬ KeepsCommittedOffsets step_telling_no_offset }
    ensures offsets_not_always_unstable { ¬ KeepsCommittedOffsets step_always_unstable }
    ensures unstable { TellsUnstableOffsets outcome }
    ensures unstable_not_ignored { ¬ TellsUnstableOffsets step_ignoring_require_stable }
{}
