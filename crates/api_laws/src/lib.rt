//! The laws of each api, in its own words: what a request is answered, what it leaves as it was, and that its answer
//! depends on what its tenant was granted alone. They are of the definitions that the core's contracts cite.
#![tactic(auto)]

mod laws;

pub use laws::{
    accepts_nothing_else, accepts_what_it_ought, acls_depend_on_the_book, acls_keep_topics,
    adds_all_or_none, asks_by_table, creates_each, deletes_each, describes_each,
    errors_are_answered, errors_by_table, errors_change_nothing, fetch_depends_on_grants,
    fetch_is_within, fetches_runs, groups_depend_on_grants, groups_keep_the_rest, holds_once,
    init_depends_on_grants, inits_once, last_five_repeat, last_stable_is_exact,
    list_offsets_depends_on_grants, lists_ends, logs_hold_checked_batches,
    metadata_answers_each_topic, metadata_depends_on_grants, metadata_refuses_each_topic,
    null_metadata_tells_describable, offsets_count_records, one_node_is_all,
    produce_depends_on_grants, produce_keeps_other_partitions, produce_keeps_the_rest,
    produces_as_answered, refusals_by_number, refusals_by_table, refusals_tell_nothing,
    refused_edit_nothing, refused_keeps_out, responses_are_framed, serves_what_fits,
    staged_offsets_depend_on_grants, staged_offsets_keep_the_rest, transactions_depend_on_grants,
    transactions_keep_the_rest, whole_runs,
};
