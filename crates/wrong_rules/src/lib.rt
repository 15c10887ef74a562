//! Laws over the rules of a broker, each of which refutes wrong ones: a definition that looks right, and isn't.
#![tactic(auto)]

mod laws;

pub use laws::{
    aborted_records_are_dropped, acl_edits_are_told, audit_lines_name_bindings,
    bindings_permit_what_they_say, faults_have_codes, filters_take_what_is_wanted, pairs_are_told,
    pending_markers_are_told, retries_are_answered, settings_are_bounded,
    some_topic_may_be_written, super_users_are_listed, timeouts_are_taken, topics_are_told,
};
