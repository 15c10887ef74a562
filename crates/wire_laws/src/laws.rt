//! Laws about the bytes on the wire, each the contract of a function with nothing to do: a frame or a table of the protocol
//! guide, which the broker's own rule goes by, and wrong ones don't.

ghost use Rattle.msg_admin.specs.Request.{request_at};
ghost use Rattle.msg_admin.specs.Response.{response};
ghost use Rattle.wire_laws.specs.AclFrames.{DescribeAclsRequestFrames, DescribeAclsResponseFrames, CreateAclsRequestFrame, CreateAclsResponseFrame, DeleteAclsRequestFrame, DeleteAclsResponseFrame};
ghost use Rattle.wire_laws.specs.WrongAcl.{operation_and_permission_exchanged, principal_and_host_exchanged, null_names_are_empty, permissions_swapped, kind_and_pattern_exchanged, null_messages_are_empty};
ghost use Rattle.wire_laws.specs.DataFrames.{ProduceRequestFrames, ProduceResponseFrame, FetchRequestFrames, FetchResponseFrame, ListOffsetsRequestFrames, ListOffsetsResponseFrame, MetadataRequestFrames, MetadataResponseFrame};
ghost use Rattle.wire_laws.specs.WrongData.{isolation_levels_swapped, waits_and_sizes_exchanged, null_topics_are_none, no_topics_are_all, acks_are_unsigned, null_records_are_empty, corrupt_and_invalid_swapped, base_offset_and_append_time_exchanged, high_watermark_and_last_stable_offset_exchanged, aborted_producer_and_offset_exchanged, null_aborted_is_empty, timestamp_and_offset_exchanged, internal_inverted, replicas_and_in_sync_exchanged};
ghost use Rattle.wire_laws.specs.TxnFrames.{FindCoordinatorRequestFrames, FindCoordinatorResponseFrames, InitProducerIdRequestFrames, InitProducerIdResponseFrame, AddPartitionsToTxnRequestFrame, AddPartitionsToTxnResponseFrame, AddOffsetsToTxnRequestFrame, AddOffsetsToTxnResponseFrame, EndTxnRequestFrames, EndTxnResponseFrames, TxnOffsetCommitRequestFrames, TxnOffsetCommitResponseFrame};
ghost use Rattle.wire_laws.specs.WrongTxn.{commits_and_aborts_swapped, commits_and_aborts_swapped_in, version_5_is_version_4, transaction_and_group_exchanged, producer_and_epoch_exchanged, partitions_in_reverse, key_types_swapped, null_transactional_ids_are_empty, empty_transactional_ids_are_null, staged_offset_and_leader_epoch_exchanged, told_producer_and_epoch_exchanged, node_and_port_exchanged, throttles_are_zero};
ghost use Rattle.wire_laws.specs.GroupFrames.{OffsetCommitRequestFrame, OffsetCommitResponseFrame, OffsetFetchRequestFrames, OffsetFetchResponseFrame, JoinGroupRequestFrame, JoinGroupResponseFrame, HeartbeatRequestFrame, HeartbeatResponseFrame, LeaveGroupRequestFrame, LeaveGroupResponseFrame, SyncGroupRequestFrame, SyncGroupResponseFrame};
ghost use Rattle.wire_laws.specs.WrongGroup.{heartbeat_and_leave_swapped, join_and_sync_swapped, group_and_member_exchanged, timeouts_exchanged, require_stable_inverted, null_offsets_are_none, null_metadata_is_empty, leader_and_member_exchanged, unknown_member_and_rebalance_swapped, fetched_offset_and_leader_epoch_exchanged, errors_are_none, assignments_are_empty};
ghost use Rattle.wire_laws.specs.LoginFrames.{SaslHandshakeRequestFrame, SaslHandshakeResponseFrame, ApiVersionsRequestFrame, ApiVersionsResponseFrame, SaslAuthenticateRequestFrame, SaslAuthenticateResponseFrames};
ghost use Rattle.wire_laws.specs.WrongLogin.{handshake_and_versions_swapped, auth_without_the_first_zero, min_and_max_exchanged, mechanism_and_state_swapped, null_reasons_are_empty};
ghost use Rattle.wire_laws.specs.WrongFrames.{key_and_version_exchanged, null_client_is_empty, empty_client_is_null, size_counts_itself, headers_have_no_tags};
ghost use Rattle.wire_laws.specs.Tables.{IsTheOnly};
ghost use Rattle.wire_laws.specs.BatchRules.{AnswersBatches, code_answered, TellsUncompressed, TellsAppendTime, TellsTransactional, TellsControl, SumsKnown};
ghost use Rattle.wire_laws.specs.WrongBatches.{sums_are_not_looked_at, corrupt_batches_are_invalid, compressed_batches_are_taken, append_times_are_taken, control_batches_are_taken, sizes_are_not_looked_at, timestamps_exchanged, epoch_and_sequence_exchanged, keys_and_values_exchanged, compression_is_0x01, append_time_is_0x10, transactional_is_0x20, control_is_0x40, outcomes_swapped, markers_with_0x50, types_swapped, crc32, not_inverted_at_the_end};
ghost use Rattle.wire_laws.specs.Batches.{ReadsBatches, batch_in, WritesMarkers, marker_bytes, NumbersOutcomes};
ghost use Rattle.record_batch.specs.Batch.{marker_type};
ghost use Rattle.record_batch.specs.BatchHeader.{is_uncompressed, has_append_time, is_transactional, is_control};
ghost use Rattle.record_batch.specs.Crc.{crc32c};
ghost use Rattle.wire_laws.specs.AclWords.{AsksForBindings, AsksForFilters, bindings_asked, filters_asked};
ghost use Rattle.wire_laws.specs.WrongAclWords.{deny_is_allow, read_is_write, group_is_transactional_id, literal_is_prefixed, any_names_are_taken, filtered_deny_is_allow, filtered_read_is_write, any_is_match, any_is_all};
ghost use Rattle.msg_admin.specs.Decode.{frame_at};
ghost use Rattle.msg_admin.specs.Versions.{unsupported_response};
ghost use Rattle.wire_laws.specs.Versions.{ReadsVersions, api_named, ReadsAnyVersion, TellsUnsupported, TellsVersions, versions_told};
ghost use Rattle.wire_laws.specs.WrongVersions.{later_versions_are_served, other_versions_are_malformed, unsupported_is_no_error, unsupported_without_versions, heartbeat_and_leave_told_swapped, end_txn_5_is_not_told};
ghost use Rattle.wire_laws.specs.OtherFrames.{RefusesFrames, ReadsLongTexts, SendsNothing};
ghost use Rattle.wire_laws.specs.WrongOtherFrames.{a_byte_after_is_let_go, range_is_short, silent_produces_are_answered, names_are_cut_off};

/// A client's DescribeAcls of version 1 is read as the protocol guide lays it out, with null where anything fits. The answer
/// tells each resource with its bindings, or the error.
pub fn describe_acls_frames()
    ensures asked { DescribeAclsRequestFrames request_at }
    ensures not_operation_and_permission_exchanged { ¬ DescribeAclsRequestFrames operation_and_permission_exchanged }
    ensures not_principal_and_host_exchanged { ¬ DescribeAclsRequestFrames principal_and_host_exchanged }
    ensures not_null_names_are_empty { ¬ DescribeAclsRequestFrames null_names_are_empty }
    ensures answered { DescribeAclsResponseFrames response }
    ensures not_permissions_swapped { ¬ DescribeAclsResponseFrames permissions_swapped }
    ensures not_kind_and_pattern_exchanged { ¬ DescribeAclsResponseFrames kind_and_pattern_exchanged }
    ensures not_null_messages_are_empty { ¬ DescribeAclsResponseFrames null_messages_are_empty }
{}

/// A client's CreateAcls of version 1 is read as the protocol guide lays it out, each binding with its seven fields. The answer
/// tells an error code, and a message or null, for each.
pub fn create_acls_frames()
    ensures asked { CreateAclsRequestFrame request_at }
    ensures not_operation_and_permission_exchanged { ¬ CreateAclsRequestFrame operation_and_permission_exchanged }
    ensures not_principal_and_host_exchanged { ¬ CreateAclsRequestFrame principal_and_host_exchanged }
    ensures answered { CreateAclsResponseFrame response }
    ensures not_null_messages_are_empty { ¬ CreateAclsResponseFrame null_messages_are_empty }
{}

/// A client's DeleteAcls of version 1 is read as the protocol guide lays it out. The answer tells, for each filter, the
/// bindings that were deleted.
pub fn delete_acls_frames()
    ensures asked { DeleteAclsRequestFrame request_at }
    ensures not_operation_and_permission_exchanged { ¬ DeleteAclsRequestFrame operation_and_permission_exchanged }
    ensures not_principal_and_host_exchanged { ¬ DeleteAclsRequestFrame principal_and_host_exchanged }
    ensures not_null_names_are_empty { ¬ DeleteAclsRequestFrame null_names_are_empty }
    ensures answered { DeleteAclsResponseFrame response }
    ensures not_permissions_swapped { ¬ DeleteAclsResponseFrame permissions_swapped }
{}

/// A client's Produce of version 3 is read as the protocol guide lays it out: its transactional id or null, its acks, its
/// timeout, and the records of each partition or null. The answer tells the error code and the offset of each.
pub fn produce_frames()
    ensures asked { ProduceRequestFrames request_at }
    ensures not_null_client_is_empty { ¬ ProduceRequestFrames null_client_is_empty }
    ensures not_acks_are_unsigned { ¬ ProduceRequestFrames acks_are_unsigned }
    ensures not_null_records_are_empty { ¬ ProduceRequestFrames null_records_are_empty }
    ensures answered { ProduceResponseFrame response }
    ensures not_size_counts_itself { ¬ ProduceResponseFrame size_counts_itself }
    ensures not_corrupt_and_invalid_swapped { ¬ ProduceResponseFrame corrupt_and_invalid_swapped }
    ensures not_base_offset_and_append_time_exchanged { ¬ ProduceResponseFrame base_offset_and_append_time_exchanged }
{}

/// A client's Fetch of version 4 is read as the protocol guide lays it out, and its isolation level is READ_UNCOMMITTED for 0
/// and READ_COMMITTED for 1. The answer tells the high watermark, the last stable offset, the aborted transactions and the
/// records of each partition.
pub fn fetch_frames()
    ensures asked { FetchRequestFrames request_at }
    ensures not_key_and_version_exchanged { ¬ FetchRequestFrames key_and_version_exchanged }
    ensures not_empty_client_is_null { ¬ FetchRequestFrames empty_client_is_null }
    ensures not_isolation_levels_swapped { ¬ FetchRequestFrames isolation_levels_swapped }
    ensures not_waits_and_sizes_exchanged { ¬ FetchRequestFrames waits_and_sizes_exchanged }
    ensures answered { FetchResponseFrame response }
    ensures not_high_watermark_and_last_stable_offset_exchanged { ¬ FetchResponseFrame high_watermark_and_last_stable_offset_exchanged }
    ensures not_aborted_producer_and_offset_exchanged { ¬ FetchResponseFrame aborted_producer_and_offset_exchanged }
    ensures not_null_aborted_is_empty { ¬ FetchResponseFrame null_aborted_is_empty }
{}

/// A client's ListOffsets of version 2 is read as the protocol guide lays it out, at either isolation level. The answer tells
/// the timestamp and the offset of each partition.
pub fn list_offsets_frames()
    ensures asked { ListOffsetsRequestFrames request_at }
    ensures not_isolation_levels_swapped { ¬ ListOffsetsRequestFrames isolation_levels_swapped }
    ensures answered { ListOffsetsResponseFrame response }
    ensures not_timestamp_and_offset_exchanged { ¬ ListOffsetsResponseFrame timestamp_and_offset_exchanged }
{}

/// A client's Metadata of version 1 asks for all topics with null, and for none with an empty array. The answer tells the
/// brokers, the controller, and of each topic whether it is internal, its leaders, replicas and in-sync replicas.
pub fn metadata_frames()
    ensures asked { MetadataRequestFrames request_at }
    ensures not_null_topics_are_none { ¬ MetadataRequestFrames null_topics_are_none }
    ensures not_no_topics_are_all { ¬ MetadataRequestFrames no_topics_are_all }
    ensures answered { MetadataResponseFrame response }
    ensures not_size_counts_itself { ¬ MetadataResponseFrame size_counts_itself }
    ensures not_internal_inverted { ¬ MetadataResponseFrame internal_inverted }
    ensures not_replicas_and_in_sync_exchanged { ¬ MetadataResponseFrame replicas_and_in_sync_exchanged }
{}

/// A client's FindCoordinator of version 1 asks for the coordinator of a group with 0, and for that of a transactional id with
/// 1. The answer tells its node, its host and its port.
pub fn find_coordinator_frames()
    ensures asked { FindCoordinatorRequestFrames request_at }
    ensures not_key_types_swapped { ¬ FindCoordinatorRequestFrames key_types_swapped }
    ensures answered { FindCoordinatorResponseFrames response }
    ensures not_node_and_port_exchanged { ¬ FindCoordinatorResponseFrames node_and_port_exchanged }
{}

/// A client's InitProducerId of version 0 has a transactional id or null, and a timeout. The answer tells the producer id and
/// the epoch.
pub fn init_producer_id_frames()
    ensures asked { InitProducerIdRequestFrames request_at }
    ensures not_null_transactional_ids_are_empty { ¬ InitProducerIdRequestFrames null_transactional_ids_are_empty }
    ensures not_empty_transactional_ids_are_null { ¬ InitProducerIdRequestFrames empty_transactional_ids_are_null }
    ensures answered { InitProducerIdResponseFrame response }
    ensures not_told_producer_and_epoch_exchanged { ¬ InitProducerIdResponseFrame told_producer_and_epoch_exchanged }
{}

/// A client's AddPartitionsToTxn of version 0 is read as the protocol guide lays it out. The answer tells an error code for
/// each partition.
pub fn add_partitions_to_txn_frames()
    ensures asked { AddPartitionsToTxnRequestFrame request_at }
    ensures not_producer_and_epoch_exchanged { ¬ AddPartitionsToTxnRequestFrame producer_and_epoch_exchanged }
    ensures not_partitions_in_reverse { ¬ AddPartitionsToTxnRequestFrame partitions_in_reverse }
    ensures answered { AddPartitionsToTxnResponseFrame response }
    ensures not_throttles_are_zero { ¬ AddPartitionsToTxnResponseFrame throttles_are_zero }
{}

/// A client's AddOffsetsToTxn of version 0 is read as the protocol guide lays it out. The answer tells an error code.
pub fn add_offsets_to_txn_frames()
    ensures asked { AddOffsetsToTxnRequestFrame request_at }
    ensures not_transaction_and_group_exchanged { ¬ AddOffsetsToTxnRequestFrame transaction_and_group_exchanged }
    ensures not_producer_and_epoch_exchanged { ¬ AddOffsetsToTxnRequestFrame producer_and_epoch_exchanged }
    ensures answered { AddOffsetsToTxnResponseFrame response }
    ensures not_throttles_are_zero { ¬ AddOffsetsToTxnResponseFrame throttles_are_zero }
{}

/// A client's EndTxn, in each version from 0 to 5, commits with 1 and aborts with 0, and has tagged fields from 3 on. So has
/// its answer, which tells the producer id and the epoch in version 5.
pub fn end_txn_frames()
    ensures asked { EndTxnRequestFrames request_at }
    ensures not_commits_and_aborts_swapped { ¬ EndTxnRequestFrames commits_and_aborts_swapped }
    ensures not_commits_and_aborts_swapped_in_0 { ¬ EndTxnRequestFrames (commits_and_aborts_swapped_in 0) }
    ensures not_commits_and_aborts_swapped_in_1 { ¬ EndTxnRequestFrames (commits_and_aborts_swapped_in 1) }
    ensures not_commits_and_aborts_swapped_in_2 { ¬ EndTxnRequestFrames (commits_and_aborts_swapped_in 2) }
    ensures not_commits_and_aborts_swapped_in_3 { ¬ EndTxnRequestFrames (commits_and_aborts_swapped_in 3) }
    ensures not_commits_and_aborts_swapped_in_4 { ¬ EndTxnRequestFrames (commits_and_aborts_swapped_in 4) }
    ensures not_commits_and_aborts_swapped_in_5 { ¬ EndTxnRequestFrames (commits_and_aborts_swapped_in 5) }
    ensures not_version_5_is_version_4 { ¬ EndTxnRequestFrames version_5_is_version_4 }
    ensures answered { EndTxnResponseFrames response }
    ensures not_headers_have_no_tags { ¬ EndTxnResponseFrames headers_have_no_tags }
    ensures not_told_producer_and_epoch_exchanged { ¬ EndTxnResponseFrames told_producer_and_epoch_exchanged }
{}

/// A client's TxnOffsetCommit of version 3 is read as the protocol guide lays it out, in compact forms and with tagged fields.
/// The answer tells an error code for each partition.
pub fn txn_offset_commit_frames()
    ensures asked { TxnOffsetCommitRequestFrames request_at }
    ensures not_transaction_and_group_exchanged { ¬ TxnOffsetCommitRequestFrames transaction_and_group_exchanged }
    ensures not_staged_offset_and_leader_epoch_exchanged { ¬ TxnOffsetCommitRequestFrames staged_offset_and_leader_epoch_exchanged }
    ensures answered { TxnOffsetCommitResponseFrame response }
    ensures not_headers_have_no_tags { ¬ TxnOffsetCommitResponseFrame headers_have_no_tags }
    ensures not_throttles_are_zero { ¬ TxnOffsetCommitResponseFrame throttles_are_zero }
{}

/// A client's OffsetCommit of version 2 is read as the protocol guide lays it out. The answer tells an error code for each
/// partition.
pub fn offset_commit_frames()
    ensures asked { OffsetCommitRequestFrame request_at }
    ensures not_group_and_member_exchanged { ¬ OffsetCommitRequestFrame group_and_member_exchanged }
    ensures not_null_metadata_is_empty { ¬ OffsetCommitRequestFrame null_metadata_is_empty }
    ensures answered { OffsetCommitResponseFrame response }
    ensures not_errors_are_none { ¬ OffsetCommitResponseFrame errors_are_none }
{}

/// A client's OffsetFetch of version 7 asks for all offsets with null, and for none with an empty array, and for stable ones
/// with 1. The answer tells each offset, its leader epoch, its metadata or null, and an error code.
pub fn offset_fetch_frames()
    ensures asked { OffsetFetchRequestFrames request_at }
    ensures not_require_stable_inverted { ¬ OffsetFetchRequestFrames require_stable_inverted }
    ensures not_null_offsets_are_none { ¬ OffsetFetchRequestFrames null_offsets_are_none }
    ensures answered { OffsetFetchResponseFrame response }
    ensures not_headers_have_no_tags { ¬ OffsetFetchResponseFrame headers_have_no_tags }
    ensures not_fetched_offset_and_leader_epoch_exchanged { ¬ OffsetFetchResponseFrame fetched_offset_and_leader_epoch_exchanged }
{}

/// A client's JoinGroup of version 2 is read as the protocol guide lays it out. The answer tells the generation, the protocol,
/// the leader, the member and the members.
pub fn join_group_frames()
    ensures asked { JoinGroupRequestFrame request_at }
    ensures not_key_and_version_exchanged { ¬ JoinGroupRequestFrame key_and_version_exchanged }
    ensures not_join_and_sync_swapped { ¬ JoinGroupRequestFrame join_and_sync_swapped }
    ensures not_group_and_member_exchanged { ¬ JoinGroupRequestFrame group_and_member_exchanged }
    ensures not_timeouts_exchanged { ¬ JoinGroupRequestFrame timeouts_exchanged }
    ensures answered { JoinGroupResponseFrame response }
    ensures not_leader_and_member_exchanged { ¬ JoinGroupResponseFrame leader_and_member_exchanged }
{}

/// A client's Heartbeat of version 1 has the api key 12, a group, a generation and a member. The answer tells an error code.
pub fn heartbeat_frames()
    ensures asked { HeartbeatRequestFrame request_at }
    ensures not_heartbeat_and_leave_swapped { ¬ HeartbeatRequestFrame heartbeat_and_leave_swapped }
    ensures not_group_and_member_exchanged { ¬ HeartbeatRequestFrame group_and_member_exchanged }
    ensures answered { HeartbeatResponseFrame response }
    ensures not_unknown_member_and_rebalance_swapped { ¬ HeartbeatResponseFrame unknown_member_and_rebalance_swapped }
{}

/// A client's LeaveGroup of version 1 has the api key 13, a group and a member. The answer tells an error code.
pub fn leave_group_frames()
    ensures asked { LeaveGroupRequestFrame request_at }
    ensures not_heartbeat_and_leave_swapped { ¬ LeaveGroupRequestFrame heartbeat_and_leave_swapped }
    ensures not_group_and_member_exchanged { ¬ LeaveGroupRequestFrame group_and_member_exchanged }
    ensures answered { LeaveGroupResponseFrame response }
    ensures not_unknown_member_and_rebalance_swapped { ¬ LeaveGroupResponseFrame unknown_member_and_rebalance_swapped }
{}

/// A client's SyncGroup of version 1 is read as the protocol guide lays it out. The answer tells an error code and the
/// assignment.
pub fn sync_group_frames()
    ensures asked { SyncGroupRequestFrame request_at }
    ensures not_join_and_sync_swapped { ¬ SyncGroupRequestFrame join_and_sync_swapped }
    ensures not_group_and_member_exchanged { ¬ SyncGroupRequestFrame group_and_member_exchanged }
    ensures answered { SyncGroupResponseFrame response }
    ensures not_assignments_are_empty { ¬ SyncGroupResponseFrame assignments_are_empty }
{}

/// A client's SaslHandshake of version 1 names a mechanism. The answer tells an error code and the mechanisms.
pub fn sasl_handshake_frames()
    ensures asked { SaslHandshakeRequestFrame request_at }
    ensures not_handshake_and_versions_swapped { ¬ SaslHandshakeRequestFrame handshake_and_versions_swapped }
    ensures answered { SaslHandshakeResponseFrame response }
    ensures not_mechanism_and_state_swapped { ¬ SaslHandshakeResponseFrame mechanism_and_state_swapped }
{}

/// A client's ApiVersions of version 0 is a header alone. The answer tells the first and the last version of each api.
pub fn api_versions_frames()
    ensures asked { ApiVersionsRequestFrame request_at }
    ensures not_handshake_and_versions_swapped { ¬ ApiVersionsRequestFrame handshake_and_versions_swapped }
    ensures answered { ApiVersionsResponseFrame response }
    ensures not_min_and_max_exchanged { ¬ ApiVersionsResponseFrame min_and_max_exchanged }
{}

/// A client's SaslAuthenticate of version 0 has the bytes of the mechanism. The answer tells an error code, a message or null,
/// and bytes.
pub fn sasl_authenticate_frames()
    ensures asked { SaslAuthenticateRequestFrame request_at }
    ensures not_auth_without_the_first_zero { ¬ SaslAuthenticateRequestFrame auth_without_the_first_zero }
    ensures answered { SaslAuthenticateResponseFrames response }
    ensures not_null_reasons_are_empty { ¬ SaslAuthenticateResponseFrames null_reasons_are_empty }
{}

/// A producer's batch is taken where it is whole and its sum is right. With any byte of its sum changed, or of those that the
/// sum covers, it is answered 2 (CORRUPT_MESSAGE). A compressed one is answered 76, one with LogAppendTime 32, a control batch
/// 87, and a batch that is too long 10.
pub fn batches_are_answered()
    ensures answered { AnswersBatches code_answered }
    ensures not_sums_are_not_looked_at { ¬ AnswersBatches sums_are_not_looked_at }
    ensures not_corrupt_batches_are_invalid { ¬ AnswersBatches corrupt_batches_are_invalid }
    ensures not_compressed_batches_are_taken { ¬ AnswersBatches compressed_batches_are_taken }
    ensures not_append_times_are_taken { ¬ AnswersBatches append_times_are_taken }
    ensures not_control_batches_are_taken { ¬ AnswersBatches control_batches_are_taken }
    ensures not_sizes_are_not_looked_at { ¬ AnswersBatches sizes_are_not_looked_at }
{}

/// A batch is read field by field as Kafka's documentation lays it out, and each record with its time, its key or null, its
/// value and its headers.
pub fn batches_are_read()
    ensures read { ReadsBatches batch_in }
    ensures not_timestamps_exchanged { ¬ ReadsBatches timestamps_exchanged }
    ensures not_epoch_and_sequence_exchanged { ¬ ReadsBatches epoch_and_sequence_exchanged }
    ensures not_keys_and_values_exchanged { ¬ ReadsBatches keys_and_values_exchanged }
{}

/// The attributes of a batch tell the compression by 0x07, LogAppendTime by 0x08, a batch of a transaction by 0x10 and a
/// control batch by 0x20, whatever their other bits are.
pub fn attributes_tell()
    ensures uncompressed { TellsUncompressed is_uncompressed }
    ensures uncompressed_only { IsTheOnly TellsUncompressed is_uncompressed }
    ensures not_compression_is_0x01 { ¬ TellsUncompressed compression_is_0x01 }
    ensures append_time { TellsAppendTime has_append_time }
    ensures append_time_only { IsTheOnly TellsAppendTime has_append_time }
    ensures not_append_time_is_0x10 { ¬ TellsAppendTime append_time_is_0x10 }
    ensures transactional { TellsTransactional is_transactional }
    ensures transactional_only { IsTheOnly TellsTransactional is_transactional }
    ensures not_transactional_is_0x20 { ¬ TellsTransactional transactional_is_0x20 }
    ensures control { TellsControl is_control }
    ensures control_only { IsTheOnly TellsControl is_control }
    ensures not_control_is_0x40 { ¬ TellsControl control_is_0x40 }
{}

/// The marker that ends a transaction is written byte by byte as each client knows it: a transactional control batch, whose
/// record's key has the type 1 for a COMMIT and 0 for an ABORT.
pub fn markers_are_written()
    ensures written { WritesMarkers marker_bytes }
    ensures not_outcomes_swapped { ¬ WritesMarkers outcomes_swapped }
    ensures not_markers_with_0x50 { ¬ WritesMarkers markers_with_0x50 }
    ensures types { NumbersOutcomes marker_type }
    ensures types_only { IsTheOnly NumbersOutcomes marker_type }
    ensures not_types_swapped { ¬ NumbersOutcomes types_swapped }
{}

/// The sum of a batch is CRC-32C, by the values that RFC 3720 and all that compute it have for known bytes.
pub fn sums_are_crc32c()
    ensures sums { SumsKnown crc32c }
    ensures not_crc32 { ¬ SumsKnown crc32 }
    ensures not_inverted_at_the_end { ¬ SumsKnown not_inverted_at_the_end }
{}

/// What a client asks for by its bytes are bindings and filters in Kafka's words: 2 is a DENY and 3 an ALLOW, 3 is a READ and 4
/// a WRITE, 1 in a filter is any. A creation or a filter with a number that is no word is none, and so is a creation without a
/// name, a host or a user.
pub fn acl_words_are_read()
    ensures bindings { AsksForBindings bindings_asked }
    ensures not_deny_is_allow { ¬ AsksForBindings deny_is_allow }
    ensures not_read_is_write { ¬ AsksForBindings read_is_write }
    ensures not_group_is_transactional_id { ¬ AsksForBindings group_is_transactional_id }
    ensures not_literal_is_prefixed { ¬ AsksForBindings literal_is_prefixed }
    ensures not_any_names_are_taken { ¬ AsksForBindings any_names_are_taken }
    ensures filters { AsksForFilters filters_asked }
    ensures not_filtered_deny_is_allow { ¬ AsksForFilters filtered_deny_is_allow }
    ensures not_filtered_read_is_write { ¬ AsksForFilters filtered_read_is_write }
    ensures not_any_is_match { ¬ AsksForFilters any_is_match }
    ensures not_any_is_all { ¬ AsksForFilters any_is_all }
{}

/// A client is served an api in each version from its first to its last, and in no other, by the protocol's numbers. No other
/// rule says so.
pub fn versions_are_served()
    ensures read { ReadsVersions api_named }
    ensures read_only { IsTheOnly ReadsVersions api_named }
    ensures not_later_versions_are_served { ¬ ReadsVersions later_versions_are_served }
{}

/// A client that asks ApiVersions in a version that isn't served is answered 35 (UNSUPPORTED_VERSION) with the version that is,
/// in a form that it can read. Any other request in such a version is malformed.
pub fn other_versions_are_answered()
    ensures frames { ReadsAnyVersion frame_at }
    ensures not_other_versions_are_malformed { ¬ ReadsAnyVersion other_versions_are_malformed }
    ensures unsupported { TellsUnsupported unsupported_response }
    ensures not_unsupported_is_no_error { ¬ TellsUnsupported unsupported_is_no_error }
    ensures not_unsupported_without_versions { ¬ TellsUnsupported unsupported_without_versions }
{}

/// ApiVersions tells a client each api that is served, with its number and its first and last version, in the order of the
/// numbers.
pub fn versions_are_told()
    ensures told { TellsVersions versions_told }
    ensures not_heartbeat_and_leave_told_swapped { ¬ TellsVersions heartbeat_and_leave_told_swapped }
    ensures not_end_txn_5_is_not_told { ¬ TellsVersions end_txn_5_is_not_told }
{}

/// A frame that is no request has one fault, the first: a byte after it, a byte too few, a null or a number that its field
/// can't be, a text that is no UTF-8, or an api or a version that isn't served.
pub fn malformed_frames_are_refused()
    ensures refused { RefusesFrames request_at }
    ensures not_a_byte_after_is_let_go { ¬ RefusesFrames a_byte_after_is_let_go }
    ensures not_range_is_short { ¬ RefusesFrames range_is_short }
{}

/// A text of more than 255 bytes is read whole, after a length of two bytes and after a compact one.
pub fn long_texts_are_read()
    ensures read { ReadsLongTexts request_at }
    ensures not_names_are_cut_off { ¬ ReadsLongTexts names_are_cut_off }
{}

/// A client that asks a Produce with acks 0 is sent nothing.
pub fn silent_replies_are_not_sent()
    ensures nothing { SendsNothing response }
    ensures not_silent_produces_are_answered { ¬ SendsNothing silent_produces_are_answered }
{}
