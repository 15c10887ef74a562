//! Laws about the bytes on the wire: frames and tables of the protocol guide, byte by byte and number by number.
#![tactic(auto)]

mod laws;
mod table_laws;

pub use laws::{
    acl_words_are_read, add_offsets_to_txn_frames, add_partitions_to_txn_frames,
    api_versions_frames, attributes_tell, batches_are_answered, batches_are_read,
    create_acls_frames, delete_acls_frames, describe_acls_frames, end_txn_frames, fetch_frames,
    find_coordinator_frames, heartbeat_frames, init_producer_id_frames, join_group_frames,
    leave_group_frames, list_offsets_frames, long_texts_are_read, malformed_frames_are_refused,
    markers_are_written, metadata_frames, offset_commit_frames, offset_fetch_frames,
    other_versions_are_answered, produce_frames, sasl_authenticate_frames, sasl_handshake_frames,
    silent_replies_are_not_sent, sums_are_crc32c, sync_group_frames, txn_offset_commit_frames,
    versions_are_served, versions_are_told,
};
pub use table_laws::{
    apis_have_numbers, booleans_are_bytes, error_codes_have_numbers,
    filter_pattern_types_have_numbers, isolation_levels_have_numbers, operations_have_numbers,
    pattern_types_have_numbers, permission_types_have_numbers, resource_types_have_numbers,
};
