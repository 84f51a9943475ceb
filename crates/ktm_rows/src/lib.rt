//! Worked rows: what the model answers to short scripts, each the contract of a function that does nothing, and proved by
//! computing with the definitions.
#![tactic(auto)]

mod rows;

pub use rows::{
    row_of_changes_limit, row_of_crossing_moves, row_of_dead_handle, row_of_deleted_file,
    row_of_directory_in_use, row_of_durable_two_phase_commit, row_of_file_beside_one_phase,
    row_of_first_transaction, row_of_fixed_version, row_of_handles_and_exit, row_of_in_doubt,
    row_of_in_doubt_rolled_back, row_of_keys_of_two_transactions, row_of_lines_and_machine,
    row_of_long_log, row_of_names_of_files, row_of_names_without_case, row_of_node_limit,
    row_of_older_version, row_of_open_in_transaction, row_of_plain_writer, row_of_read_only,
    row_of_second_writer, row_of_several_in_doubt, row_of_sharing_in_transaction,
    row_of_single_phase_rejected, row_of_timeout, row_of_undecided_at_restart, row_of_unit_limit,
    row_of_views_of_writer_and_reader, row_of_vote_against,
};
