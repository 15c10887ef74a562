//! The laws of reads, each the contract of a function with nothing to do: the broker's rule has the law, and each wrong rule hasn't.

ghost use Rattle.data_handlers.specs.Fetch.{fetch_outcome};
ghost use Rattle.data_handlers.specs.ListOffsets.{list_offsets_outcome};
ghost use Rattle.broker_world.specs.World.{World};
ghost use Rattle.broker_world.specs.Logs.{HoldLogs};
ghost use Rattle.read_laws.specs.Fetches.{LogsHaveBytes, TellsNoError, ServesTheNextBatch, ServesNothingElse, ServesWholeBatches, ServesAllThatFit, ServesWithinLimits, AnswersEachTopic, TellsTheHighWatermark, TellsOutOfRange, TellsMissing, IsOnlyFetch};
ghost use Rattle.read_laws.specs.WrongFetches.{fetch_always_out_of_range, fetch_answering_nobody, fetch_as_committed, fetch_as_uncommitted, fetch_after_the_offset, fetch_without_a_large_batch, fetch_one_partition, fetch_without_the_last_batch, fetch_cutting_batches, fetch_one_batch, fetch_above_the_level_end, fetch_never_used_up, fetch_without_a_partition_limit, fetch_never_an_error, fetch_out_of_range_at_the_end, fetch_telling_a_low_watermark, fetch_without_names};
ghost use Rattle.read_laws.specs.ListOffsets.{TellsTheLatest, TellsTheEarliest, TellsInvalidTimestamp, TellsUnlisted};
ghost use Rattle.read_laws.specs.WrongListOffsets.{list_always_invalid, list_as_committed, list_as_uncommitted, list_other_end, list_never_an_error};

/// A Fetch from a partition that the caller may READ is told no error at any offset from 0 to the log's end. The answer begins with
/// the first batch that ends after the offset, up to the log's end or, for read_committed, up to the last stable offset: whatever
/// its size where no partition before was given records, and else where max_bytes leaves room for it. Where there is no such
/// batch, the answer is empty. Each stands at its place, with the log's end as the high watermark, and the last stable offset.
pub fn fetches_succeed()
    ensures no_error { TellsNoError fetch_outcome }
    ensures no_error_not_out_of_range { ¬ TellsNoError fetch_always_out_of_range }
    ensures no_error_not_unanswered { ¬ TellsNoError fetch_answering_nobody }
    ensures no_error_at_the_end { ¬ TellsNoError fetch_out_of_range_at_the_end }
    ensures next { ServesTheNextBatch fetch_outcome }
    ensures next_not_out_of_range { ¬ ServesTheNextBatch fetch_always_out_of_range }
    ensures next_also_large { ¬ ServesTheNextBatch fetch_without_a_large_batch }
    ensures next_also_last { ¬ ServesTheNextBatch fetch_without_the_last_batch }
    ensures next_also_later { ¬ ServesTheNextBatch fetch_one_partition }
    ensures next_not_after { ¬ ServesTheNextBatch fetch_after_the_offset }
    ensures next_of_level { ¬ ServesTheNextBatch fetch_as_committed }
    ensures else_nothing { ServesNothingElse fetch_outcome }
    ensures else_nothing_of_level { ¬ ServesNothingElse fetch_as_uncommitted }
    ensures each { AnswersEachTopic fetch_outcome }
    ensures each_by_name { ¬ AnswersEachTopic fetch_without_names }
    ensures watermark { TellsTheHighWatermark fetch_outcome }
    ensures watermark_not_the_stable_offset { ¬ TellsTheHighWatermark fetch_telling_a_low_watermark }
    ensures bytes { (w : World) → HoldLogs w.topics → LogsHaveBytes w.topics }
{}

/// A Fetch is served whole batches that follow one another in the log, up to its end or, for read_committed, up to the last stable
/// offset: as many as max_bytes of the partition and of the request leave room for, and no more, but for a first batch that is
/// larger. These laws, with that of the next batch, leave nothing open: every rule that has them serves the same.
pub fn fetches_serve_whole_batches()
    ensures whole { ServesWholeBatches fetch_outcome }
    ensures whole_not_cut { ¬ ServesWholeBatches fetch_cutting_batches }
    ensures whole_below_the_level_end { ¬ ServesWholeBatches fetch_above_the_level_end }
    ensures fitting { ServesAllThatFit fetch_outcome }
    ensures fitting_not_one_alone { ¬ ServesAllThatFit fetch_one_batch }
    ensures within { ServesWithinLimits fetch_outcome }
    ensures within_what_is_left { ¬ ServesWithinLimits fetch_never_used_up }
    ensures within_the_partition_limit { ¬ ServesWithinLimits fetch_without_a_partition_limit }
    ensures alone { IsOnlyFetch fetch_outcome }
{}

/// A Fetch from an offset before the log or after its end is told OFFSET_OUT_OF_RANGE (1), and one from a partition that isn't there
/// UNKNOWN_TOPIC_OR_PARTITION (3), with no records.
pub fn fetches_fail_rightly()
    ensures out_of_range { TellsOutOfRange fetch_outcome }
    ensures out_of_range_is_told { ¬ TellsOutOfRange fetch_never_an_error }
    ensures missing { TellsMissing fetch_outcome }
    ensures missing_is_told { ¬ TellsMissing fetch_never_an_error }
{}

/// A ListOffsets of a partition that the caller may DESCRIBE is told no error. The latest offset (timestamp -1) is the log's end,
/// or for read_committed the last stable offset; the earliest (-2) is 0.
pub fn list_offsets_succeeds()
    ensures latest { TellsTheLatest list_offsets_outcome }
    ensures latest_not_invalid { ¬ TellsTheLatest list_always_invalid }
    ensures latest_of_level { ¬ TellsTheLatest list_as_committed }
    ensures latest_not_unstable { ¬ TellsTheLatest list_as_uncommitted }
    ensures latest_not_earliest { ¬ TellsTheLatest list_other_end }
    ensures earliest { TellsTheEarliest list_offsets_outcome }
    ensures earliest_not_invalid { ¬ TellsTheEarliest list_always_invalid }
    ensures earliest_not_latest { ¬ TellsTheEarliest list_other_end }
{}

/// A ListOffsets with any other timestamp is told INVALID_REQUEST (42), and one of a partition that isn't there
/// UNKNOWN_TOPIC_OR_PARTITION (3), with no offset.
pub fn list_offsets_fails_rightly()
    ensures invalid { TellsInvalidTimestamp list_offsets_outcome }
    ensures invalid_is_told { ¬ TellsInvalidTimestamp list_never_an_error }
    ensures missing { TellsUnlisted list_offsets_outcome }
    ensures missing_is_told { ¬ TellsUnlisted list_never_an_error }
{}
