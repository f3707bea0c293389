//! What holds in every run of one session that may still go on from what the session has behind it.
#![tactic(auto)]

mod law;

pub use law::{
    a_longer_past_goes_on, a_reader_sees_what_is_behind, a_session_reads_by_coordinates,
    a_writer_sees_what_is_behind, changes_leave_what_operations_leave, cubes_behind_stay,
    declarations_behind_stay, full_dictionaries_stay, one_more_is_executed,
    operations_are_done_by_statements, operations_stay_in_order, queries_answer_for_all_that_go_on,
    rows_keep_their_values, the_end_completes_a_run, what_is_behind_stays,
    what_is_not_pending_is_settled, what_is_seen_is_what_operations_leave,
    what_was_behind_stands_before,
};
