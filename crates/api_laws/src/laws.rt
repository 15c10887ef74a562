//! The laws of each api, each the contract of a function with nothing to do.

ghost use Rattle.acl_handlers.specs.CreateAcls.{create_acls_outcome};
ghost use Rattle.acl_handlers.specs.DeleteAcls.{delete_acls_outcome};
ghost use Rattle.api_dispatch.specs.Step.{outcome, refusals_of, reply_to, world_after_events};
ghost use Rattle.msg_admin.specs.Response.{response};
ghost use Rattle.data_handlers.specs.Fetch.{fetch_outcome, served_at};
ghost use Rattle.data_handlers.specs.Metadata.{metadata_answer, metadata_topics, topic_refusals};
ghost use Rattle.partition_log.specs.Fetch.{served_of};
ghost use Rattle.walk.specs.Codes.{refusal_code};
ghost use Rattle.data_handlers.specs.ListOffsets.{list_offsets_outcome, listed_offset};
ghost use Rattle.txn_handlers.specs.InitProducerId.{init_producer_id_outcome};
ghost use Rattle.txn_handlers.specs.AddPartitions.{add_partitions_outcome};
ghost use Rattle.txn_handlers.specs.EndTxn.{end_txn_outcome};
ghost use Rattle.data_handlers.specs.Produce.{produce_answer, produce_outcome};
ghost use Rattle.group_handlers.specs.Members.{join_group_outcome};
ghost use Rattle.group_handlers.specs.OffsetFetch.{offset_fetch_outcome};
ghost use Rattle.txn_handlers.specs.AddOffsets.{add_offsets_outcome};
ghost use Rattle.txn_handlers.specs.TxnOffsetCommit.{txn_offset_commit_outcome};
ghost use Rattle.acl_handlers.specs.DescribeAcls.{describe_acls_outcome, describe_acls_reply};
ghost use Rattle.data_handlers.specs.Judged.{topics_produced, batch_to_append};
ghost use Rattle.producer_state.specs.Sequences.{judgment_of};
ghost use Rattle.partition_log.specs.Log.{last_stable_offset};
ghost use Rattle.api_laws.specs.Runs.{WholeRuns};
ghost use Rattle.api_laws.specs.Headline.{AnswersEachTopic, RefusesEachTopic, NullTellsDescribable};
ghost use Rattle.api_laws.specs.Framing.{ResponsesAreFramed};
ghost use Rattle.api_laws.specs.LastStable.{LastStableIsExact};
ghost use Rattle.api_laws.specs.Longest.{ServesWhatFits};
ghost use Rattle.api_laws.specs.Numbers.{RefusalsByNumber};
ghost use Rattle.api_laws.specs.OneNode.{OneNodeIsAll};
ghost use Rattle.api_laws.specs.Tenants.{DependsOnGrants};
ghost use Rattle.api_laws.specs.DataLaws.{ProducesAsAnswered, FetchesRuns, ListsEnds};
ghost use Rattle.api_laws.specs.FetchSizes.{FetchIsWithin};
ghost use Rattle.api_laws.specs.ProducerLaws.{HoldsOnce, InitsOnce, InitDependsOnGrants};
ghost use Rattle.api_laws.specs.TxnLaws.{AddsAllOrNone, TransactionsDependOnGrants, TransactionsKeepTheRest};
ghost use Rattle.api_laws.specs.GroupLaws.{GroupsDependOnGrants, GroupsKeepTheRest};
ghost use Rattle.api_laws.specs.StagingLaws.{StagingDependsOnGrants, StagingKeepsTheRest};
ghost use Rattle.api_laws.specs.AclLaws.{CreatesEach, DeletesEach, RefusedEditNothing, AclsDependOnTheBook, AclsKeepTopics};
ghost use Rattle.api_laws.specs.DescribeLaws.{DescribesEach};
ghost use Rattle.api_laws.specs.DataTenants.{ProduceKeepsTheRest, ProduceKeepsOtherPartitions, ProduceDependsOnGrants, FetchDependsOnGrants, ListOffsetsDependsOnGrants};
ghost use Rattle.api_laws.specs.CheckedLogs.{LogsHoldCheckedBatches, OffsetsCountRecords};
ghost use Rattle.api_laws.specs.Acceptance.{AcceptsWhatItOught, AcceptsNothingElse};
ghost use Rattle.api_laws.specs.Repeats.{LastFiveRepeat};
ghost use Rattle.api_laws.specs.AskedTable.{AsksByTable};
ghost use Rattle.api_laws.specs.RefusedRows.{RefusalsByTable};
ghost use Rattle.api_laws.specs.ErrorTable.{ErrorsByTable};
ghost use Rattle.api_laws.specs.KeptOut.{RefusedKeepsOut};
ghost use Rattle.api_laws.specs.Unchanged.{ErrorsChangeNothing};
ghost use Rattle.api_laws.specs.BareAnswers.{RefusalsTellNothing};
ghost use Rattle.api_laws.specs.ErrorCases.{ErrorsAreAnswered};
ghost use Rattle.api_laws.specs.Wrong.{adding_groups_unasked, adding_nothing, adding_unasked, adding_what_is_there, answering_without_error, batch_of_any_size, batch_under_any_acks, code_of_ids_as_groups, code_of_topics, creating_alone, creating_for_topics_there, creating_nothing, creating_topics, creating_unasked, deleting_everything, deleting_nothing, deleting_unasked, describing_each_alone, describing_one_resource, describing_topics_there, ending_keeping_one, ending_unasked, fetch_keeping_the_budget, fetch_without_max_bytes, fetching_offsets_unasked, fetching_telling_missing, fetching_unasked, first_refusal_of, first_refused_topic, initing_again, initing_unasked, joining_alone, joining_unasked, judging_gaps_as_next, judging_repeats_as_next, listing_the_end, listing_the_last, listing_unasked, metadata_of_everybody, metadata_telling_missing, producing_for_all_replicas, producing_nothing, producing_to_the_first, producing_unasked, refusals_of_no_topic, refusals_without_bindings, reply_beating_anyway, reply_ids_as_groups, reply_to_alterers, reply_to_anybody, reply_unfenced, reply_with_acls, reply_with_ends, reply_without_brokers, reply_without_leaders, response_under_another_id, response_without_size, serving_from_the_start, serving_one_less, serving_stable_as_high, serving_to_the_end, serving_too_much, stable_at_the_end, stable_at_the_last, staging_alone, staging_unasked, step_adding_the_others, step_beginning_groups, step_telling_missing_as_untried, topics_for_everybody, topics_for_nobody, topics_kept, topics_left_out, topics_unasked, topics_with_repeats, world_from_offset_one, world_of_headers, world_of_repeats};

/// A list of events that a core takes without a stop gives a receipt for each event, in order, and leaves the core in the state
/// to which these events lead.
pub fn whole_runs()
    ensures { WholeRuns }
{}

/// Each topic that a Metadata request names is answered at its place: one that may not be described by TOPIC_AUTHORIZATION_FAILED
/// (29), any other as by a broker without access control.
pub fn metadata_answers_each_topic()
    ensures answered { AnswersEachTopic metadata_topics }
    ensures asked { ¬ AnswersEachTopic topics_unasked }
    ensures each { ¬ AnswersEachTopic topics_left_out }
{}

/// The refusals that the trail keeps of a Metadata request are those of the named topics that may not be described, in order. A
/// null list, which asks for all topics, has none.
pub fn metadata_refuses_each_topic()
    ensures refused { RefusesEachTopic topic_refusals }
    ensures something { ¬ RefusesEachTopic refusals_of_no_topic }
    ensures all { ¬ RefusesEachTopic first_refused_topic }
{}

/// A Metadata request with a null list, which asks for all topics, is told exactly those that the caller may describe, each as
/// where it is asked for alone.
pub fn null_metadata_tells_describable()
    ensures told { NullTellsDescribable metadata_topics }
    ensures not_to_everybody { ¬ NullTellsDescribable topics_for_everybody }
    ensures to_somebody { ¬ NullTellsDescribable topics_for_nobody }
{}

/// At either isolation level a fetch is served the longest run of whole batches that its size limit has bytes for, up to the
/// log's end or the last stable offset; or the first batch alone, if not even that fits and one is forced.
pub fn serves_what_fits()
    ensures served { ServesWhatFits served_of }
    ensures until_stable { ¬ ServesWhatFits serving_to_the_end }
    ensures as_much { ¬ ServesWhatFits serving_one_less }
    ensures no_more { ¬ ServesWhatFits serving_too_much }
{}

/// A log's last stable offset is the base offset of the first batch whose transaction no control batch has ended; or the log's
/// end, where there is none.
pub fn last_stable_is_exact()
    ensures exact { LastStableIsExact last_stable_offset }
    ensures until_open { ¬ LastStableIsExact stable_at_the_end }
    ensures after_last { ¬ LastStableIsExact stable_at_the_last }
{}

/// Each response begins with the size of what follows, and the correlation id of its request. Between that and the body stands
/// nothing but, in a flexible version (KIP-482), an empty section of tagged fields.
pub fn responses_are_framed()
    ensures framed { ResponsesAreFramed response }
    ensures own_id { ¬ ResponsesAreFramed response_under_another_id }
    ensures sized { ¬ ResponsesAreFramed response_without_size }
{}

/// A part of a request that is refused is told TOPIC_, GROUP_, CLUSTER_ or TRANSACTIONAL_ID_AUTHORIZATION_FAILED (29, 30, 31,
/// 53), by the kind of resource that it asks about.
pub fn refusals_by_number()
    ensures told { RefusalsByNumber refusal_code }
    ensures by_kind { ¬ RefusalsByNumber code_of_topics }
    ensures ids_apart { ¬ RefusalsByNumber code_of_ids_as_groups }
{}

/// The node of the settings is the only broker, the controller, the leader and the only replica of each partition, and the
/// coordinator of each group and each transactional id.
pub fn one_node_is_all()
    ensures all { OneNodeIsAll reply_to }
    ensures leading { ¬ OneNodeIsAll reply_without_leaders }
    ensures listed { ¬ OneNodeIsAll reply_without_brokers }
{}

/// What a Metadata request is answered depends only on what it is allowed to see: worlds that agree on that answer it the same.
pub fn metadata_depends_on_grants()
    ensures granted { DependsOnGrants metadata_answer }
    ensures described { ¬ DependsOnGrants metadata_of_everybody }
    ensures existing { ¬ DependsOnGrants metadata_telling_missing }
{}

/// A partition of a Produce that is allowed is answered no error exactly where its batch stands in the log, appended now or
/// before. Of a batch that passes the other checks the log decides: the producer's next one is appended, and one sent again is
/// answered the offset that it got.
pub fn produces_as_answered()
    ensures answered { ProducesAsAnswered produce_answer topics_produced }
    ensures appended { ¬ ProducesAsAnswered produce_answer topics_kept }
    ensures once { ¬ ProducesAsAnswered produce_answer topics_with_repeats }
    ensures told { ¬ ProducesAsAnswered answering_without_error topics_produced }
{}

/// An allowed partition of a Fetch is served a run of its log's batches, whose bytes are taken off the budget that is left.
pub fn fetches_runs()
    ensures served { FetchesRuns served_at }
    ensures high { ¬ FetchesRuns serving_stable_as_high }
    ensures outside { ¬ FetchesRuns serving_from_the_start }
{}

/// The batches of a Fetch response have together at most the request's max_bytes, and those of a partition at most the
/// partition's own; or they are one batch alone.
pub fn fetch_is_within()
    ensures within { FetchIsWithin fetch_outcome }
    ensures taking_off { ¬ FetchIsWithin fetch_keeping_the_budget }
    ensures looking_at_it { ¬ FetchIsWithin fetch_without_max_bytes }
{}

/// An allowed partition of a ListOffsets is told, for the timestamp -1, the end of its log, or for read_committed the last stable
/// offset, and for -2 the start. Any other timestamp is INVALID_REQUEST (42), and a partition that isn't there
/// UNKNOWN_TOPIC_OR_PARTITION (3).
pub fn lists_ends()
    ensures listed { ListsEnds listed_offset }
    ensures until_stable { ¬ ListsEnds listing_the_end }
    ensures after_it { ¬ ListsEnds listing_the_last }
{}

/// A Produce leaves each topic to which it may not write as it was.
pub fn produce_keeps_the_rest()
    ensures kept { ProduceKeepsTheRest produce_outcome }
    ensures asked { ¬ ProduceKeepsTheRest producing_unasked }
{}

/// A Produce leaves each partition as it was for which it has no part that is allowed.
pub fn produce_keeps_other_partitions()
    ensures kept { ProduceKeepsOtherPartitions produce_outcome }
    ensures its_own { ¬ ProduceKeepsOtherPartitions producing_to_the_first }
{}

/// What a Produce is answered depends only on the topics and the transactional id that it is allowed to write: worlds that agree
/// on these answer it the same.
pub fn produce_depends_on_grants()
    ensures granted { ProduceDependsOnGrants produce_outcome }
    ensures asked { ¬ ProduceDependsOnGrants producing_unasked }
{}

/// What a Fetch is answered depends only on the topics that it is allowed to read: worlds that agree on these answer it the same.
pub fn fetch_depends_on_grants()
    ensures granted { FetchDependsOnGrants fetch_outcome }
    ensures asked { ¬ FetchDependsOnGrants fetching_unasked }
    ensures existing { ¬ FetchDependsOnGrants fetching_telling_missing }
{}

/// What a ListOffsets is answered depends only on the topics that it is allowed to describe: worlds that agree on these answer it
/// the same.
pub fn list_offsets_depends_on_grants()
    ensures granted { ListOffsetsDependsOnGrants list_offsets_outcome }
    ensures asked { ¬ ListOffsetsDependsOnGrants listing_unasked }
{}

/// After a CreateAcls that is allowed, each of its entries that is a valid binding is among the ACLs, whatever its other entries
/// are. The ACLs of before stand before those that are new, and each new one is an entry.
pub fn creates_each()
    ensures created { CreatesEach create_acls_outcome }
    ensures something { ¬ CreatesEach creating_nothing }
    ensures beside { ¬ CreatesEach creating_alone }
{}

/// After a DeleteAcls that is allowed, none of its filters matches an ACL any more. Each ACL that none matched is there as before,
/// and there is no other.
pub fn deletes_each()
    ensures deleted { DeletesEach delete_acls_outcome }
    ensures something { ¬ DeletesEach deleting_nothing }
    ensures no_other { ¬ DeletesEach deleting_everything }
{}

/// A DescribeAcls tells each ACL binding that its filter matches, once, grouped by resource type, name and pattern type.
pub fn describes_each()
    ensures described { DescribesEach describe_acls_reply }
    ensures all { ¬ DescribesEach describing_one_resource }
    ensures grouped { ¬ DescribesEach describing_each_alone }
{}

/// A CreateAcls or DeleteAcls that the ACLs of before don't allow changes nothing.
pub fn refused_edit_nothing()
    ensures unchanged { RefusedEditNothing create_acls_outcome delete_acls_outcome }
    ensures asked_to_create { ¬ RefusedEditNothing creating_unasked delete_acls_outcome }
    ensures asked_to_delete { ¬ RefusedEditNothing create_acls_outcome deleting_unasked }
{}

/// What DescribeAcls, CreateAcls and DeleteAcls are answered, and which ACLs they leave, depends on no topic, group or
/// transaction: two brokers with the same ACLs, super users, node, moment, number of events and producer ids agree on both.
pub fn acls_depend_on_the_book()
    ensures by_book { AclsDependOnTheBook describe_acls_outcome create_acls_outcome }
    ensures described { ¬ AclsDependOnTheBook describing_topics_there create_acls_outcome }
    ensures created { ¬ AclsDependOnTheBook describe_acls_outcome creating_for_topics_there }
{}

/// A CreateAcls or DeleteAcls changes no partition's log.
pub fn acls_keep_topics()
    ensures kept { AclsKeepTopics create_acls_outcome }
    ensures created { ¬ AclsKeepTopics creating_topics }
{}

/// Whatever the events were, each log holds what a producer with an id from 0 on wrote in one epoch once, in order and without
/// a gap: its first batch there begins at sequence number 0, and each next one where the one before ended, modulo 2^31.
pub fn holds_once()
    ensures held { HoldsOnce world_after_events }
    ensures once { ¬ HoldsOnce world_of_repeats }
{}

/// An InitProducerId without a transactional id that is allowed gives out a producer id that was never given out before. It is
/// allowed to whoever may WRITE to some topic, and else as IDEMPOTENT_WRITE on the cluster is. One that is refused, with a
/// transactional id or without, changes nothing.
pub fn inits_once()
    ensures given { InitsOnce init_producer_id_outcome }
    ensures once { ¬ InitsOnce initing_again }
    ensures asked { ¬ InitsOnce initing_unasked }
{}

/// What an InitProducerId is answered depends only on whether it is allowed and on the producer ids given out before; and it
/// changes no log.
pub fn init_depends_on_grants()
    ensures granted { InitDependsOnGrants init_producer_id_outcome }
    ensures asked { ¬ InitDependsOnGrants initing_unasked }
{}

/// An AddPartitionsToTxn adds all its partitions to the transaction where each may be added, and else none of them.
pub fn adds_all_or_none()
    ensures together { AddsAllOrNone add_partitions_outcome }
    ensures none { ¬ AddsAllOrNone adding_what_is_there }
    ensures all { ¬ AddsAllOrNone adding_nothing }
{}

/// What an AddPartitionsToTxn or an EndTxn is answered depends only on what it is allowed to use and on the producer ids given
/// out before.
pub fn transactions_depend_on_grants()
    ensures granted { TransactionsDependOnGrants end_txn_outcome add_partitions_outcome }
    ensures ends { ¬ TransactionsDependOnGrants ending_unasked add_partitions_outcome }
    ensures adds { ¬ TransactionsDependOnGrants end_txn_outcome adding_unasked }
{}

/// A request for one transactional id leaves all other ids, and every log, as they were; and where writing with the id isn't
/// allowed, that id too.
pub fn transactions_keep_the_rest()
    ensures kept { TransactionsKeepTheRest init_producer_id_outcome add_partitions_outcome end_txn_outcome }
    ensures others { ¬ TransactionsKeepTheRest init_producer_id_outcome add_partitions_outcome ending_keeping_one }
    ensures asked { ¬ TransactionsKeepTheRest init_producer_id_outcome add_partitions_outcome ending_unasked }
{}

/// What a request about a group or its offsets is answered depends only on the group and the topics that it is allowed to use.
pub fn groups_depend_on_grants()
    ensures granted { GroupsDependOnGrants join_group_outcome offset_fetch_outcome }
    ensures fetches { ¬ GroupsDependOnGrants join_group_outcome fetching_offsets_unasked }
    ensures joins { ¬ GroupsDependOnGrants joining_unasked offset_fetch_outcome }
{}

/// A request about one group leaves all other groups, every log and every transactional id as they were; and where reading the
/// group isn't allowed, that group too.
pub fn groups_keep_the_rest()
    ensures kept { GroupsKeepTheRest join_group_outcome }
    ensures others { ¬ GroupsKeepTheRest joining_alone }
    ensures asked { ¬ GroupsKeepTheRest joining_unasked }
{}

/// What an AddOffsetsToTxn or a TxnOffsetCommit is answered depends only on what it is allowed to use and on the producer ids
/// given out before.
pub fn staged_offsets_depend_on_grants()
    ensures granted { StagingDependsOnGrants add_offsets_outcome txn_offset_commit_outcome }
    ensures adds { ¬ StagingDependsOnGrants adding_groups_unasked txn_offset_commit_outcome }
    ensures stages { ¬ StagingDependsOnGrants add_offsets_outcome staging_unasked }
{}

/// An AddOffsetsToTxn changes one transactional id alone, and a TxnOffsetCommit one group alone; and where writing with the id or
/// reading the group isn't allowed, they change nothing.
pub fn staged_offsets_keep_the_rest()
    ensures kept { StagingKeepsTheRest add_offsets_outcome txn_offset_commit_outcome }
    ensures others { ¬ StagingKeepsTheRest add_offsets_outcome staging_alone }
    ensures asked { ¬ StagingKeepsTheRest adding_groups_unasked txn_offset_commit_outcome }
{}

/// Whatever the events were, each batch of records in a log passes the check of what producers send, and is no longer than the
/// settings' max_batch.
pub fn logs_hold_checked_batches()
    ensures checked { LogsHoldCheckedBatches world_after_events }
    ensures whole { ¬ LogsHoldCheckedBatches world_of_headers }
{}

/// Whatever the events were, the base offset of each batch and marker in a log is the number of records before it there.
pub fn offsets_count_records()
    ensures counted { OffsetsCountRecords world_after_events }
    ensures once { ¬ OffsetsCountRecords world_of_repeats }
    ensures from_zero { ¬ OffsetsCountRecords world_from_offset_one }
{}

/// A Produce that is allowed appends a batch without a fault at the log's end, as it was sent, if it is of no producer, of an
/// idempotent producer, or of an open transaction, and the next in sequence.
pub fn accepts_what_it_ought()
    ensures accepted { AcceptsWhatItOught produce_outcome }
    ensures appended { ¬ AcceptsWhatItOught producing_nothing }
    ensures each_acks { ¬ AcceptsWhatItOught producing_for_all_replicas }
{}

/// A partition of a Produce is answered no error only for a batch without a fault, no longer than the settings' max_batch and
/// with acks -1, 0 or 1, that is of no producer, of an idempotent producer, or of the open transaction of the request's id, which
/// took the partition in.
pub fn accepts_nothing_else()
    ensures accepted { AcceptsNothingElse batch_to_append }
    ensures by_acks { ¬ AcceptsNothingElse batch_under_any_acks }
    ensures by_size { ¬ AcceptsNothingElse batch_of_any_size }
{}

/// Each of the last five batches that a producer wrote in its epoch, sent again, is answered its old offset and isn't appended.
/// An earlier one is answered OUT_OF_ORDER_SEQUENCE_NUMBER (45), as one is that leaves a gap. No other batch counts as sent
/// again.
pub fn last_five_repeat()
    ensures repeated { LastFiveRepeat judgment_of }
    ensures once { ¬ LastFiveRepeat judging_repeats_as_next }
    ensures gaps { ¬ LastFiveRepeat judging_gaps_as_next }
{}

/// One table says for which operations on which resources each api has to be authorized. A request, and each of its parts at its
/// place, is told the error of the first of its rows that isn't granted; nobody else is told such an error.
pub fn asks_by_table()
    ensures asked { AsksByTable reply_to }
    ensures something { ¬ AsksByTable reply_to_anybody }
    ensures by_operation { ¬ AsksByTable reply_to_alterers }
{}

/// The refusals that the trail keeps of a request are those of the same table: for each refused part the first of its rows that
/// isn't granted, with the verdict on it, in the parts' order.
pub fn refusals_by_table()
    ensures told { RefusalsByTable refusals_of }
    ensures by_binding { ¬ RefusalsByTable refusals_without_bindings }
    ensures each { ¬ RefusalsByTable first_refusal_of }
{}

/// Each error code in an answer is 0, or one of those that a table lists for its api.
pub fn errors_by_table()
    ensures listed { ErrorsByTable reply_to }
    ensures by_kind { ¬ ErrorsByTable reply_ids_as_groups }
    ensures fenced { ¬ ErrorsByTable reply_unfenced }
{}

/// Where one partition of an AddPartitionsToTxn is refused, none is added: each of the others is told OPERATION_NOT_ATTEMPTED
/// (55), or UNKNOWN_TOPIC_OR_PARTITION (3) where it isn't there.
pub fn refused_keeps_out()
    ensures kept_out { RefusedKeepsOut outcome }
    ensures others { ¬ RefusedKeepsOut step_adding_the_others }
    ensures missing { ¬ RefusedKeepsOut step_telling_missing_as_untried }
{}

/// A request that is told one error for all changes nothing; so does a Produce, an OffsetCommit or a TxnOffsetCommit of which each
/// part is told an error, and an AddPartitionsToTxn of which one is. But an InitProducerId that is told CONCURRENT_TRANSACTIONS (51)
/// may have aborted the open transaction of its id.
pub fn errors_change_nothing()
    ensures unchanged { ErrorsChangeNothing outcome }
    ensures joins { ¬ ErrorsChangeNothing step_beginning_groups }
    ensures adds { ¬ ErrorsChangeNothing step_adding_the_others }
{}

/// A request that isn't allowed, and a part of one at its place, is told its error alone: no offset, no records, no members, no
/// producer id and no ACLs.
pub fn refusals_tell_nothing()
    ensures bare { RefusalsTellNothing reply_to }
    ensures no_acls { ¬ RefusalsTellNothing reply_with_acls }
    ensures no_offsets { ¬ RefusalsTellNothing reply_with_ends }
{}

/// Each error code that the table lists for an api is answered to some request of that api in some world.
pub fn errors_are_answered()
    ensures told { ErrorsAreAnswered reply_to }
    ensures beats { ¬ ErrorsAreAnswered reply_beating_anyway }
{}
