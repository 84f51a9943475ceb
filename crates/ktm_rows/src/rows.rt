// Worked rows: what the model answers to some scripts, each the contract of a function that does nothing.
ghost use Rattle.ktm_rows.specs.RowsOfViews.{ViewsOfWriterAndReader, FixedVersion, DeadHandle, DeletedFile};
ghost use Rattle.ktm_rows.specs.RowsOfConflicts.{SecondWriter, NamesWithoutCase, DirectoryInUse, CrossingMoves, PlainWriter, OpenInTransaction, SharingInTransaction};
ghost use Rattle.ktm_rows.specs.RowsOfFiles.{NamesOfFiles, UnitLimit, LongLog};
ghost use Rattle.ktm_rows.specs.RowsOfLimits.{OlderVersion, NodeLimit, ChangesLimit};
ghost use Rattle.ktm_rows.specs.RowsOfTransactions.{VoteAgainst, ReadOnly, SinglePhaseRejected, FileBesideOnePhase, Timeout};
ghost use Rattle.ktm_rows.specs.RowsOfRestarts.{UndecidedAtRestart, InDoubt, InDoubtRolledBack, SeveralInDoubt, DurableTwoPhaseCommit};
ghost use Rattle.ktm_rows.specs.RowsOfHandles.{HandlesAndExit, LinesAndMachine};
ghost use Rattle.ktm_rows.specs.RowsOfKeys.{FirstTransaction, KeysOfTwoTransactions};

/// A writer sees what it writes, and a plain reader sees it once it is committed.
pub fn row_of_views_of_writer_and_reader()
    ensures { ViewsOfWriterAndReader }
{}

/// A transaction goes on seeing the version of a file that it opened first, and cannot change the file once there is another one.
pub fn row_of_fixed_version()
    ensures { FixedVersion }
{}

/// A handle opened in a transaction is dead once that has committed, and can be closed once.
pub fn row_of_dead_handle()
    ensures { DeadHandle }
{}

/// A file that another transaction deleted is still read by an open handle, and is gone by name.
pub fn row_of_deleted_file()
    ensures { DeletedFile }
{}

/// A second transaction can open a file for writing once the first one has rolled back.
pub fn row_of_second_writer()
    ensures { SecondWriter }
{}

/// Two transactions cannot make the same name, whatever its case.
pub fn row_of_names_without_case()
    ensures { NamesWithoutCase }
{}

/// A directory in which another transaction makes a name cannot be removed, and in one that is removed no name can be made.
pub fn row_of_directory_in_use()
    ensures { DirectoryInUse }
{}

/// Two transactions cannot move two directories into one another.
pub fn row_of_crossing_moves()
    ensures { CrossingMoves }
{}

/// No transaction opens or changes a file that a plain handle may write.
pub fn row_of_plain_writer()
    ensures { PlainWriter }
{}

/// No plain call writes, empties or deletes a file that a transaction has open.
pub fn row_of_open_in_transaction()
    ensures { OpenInTransaction }
{}

/// The open files of one transaction share with each other, both ways.
pub fn row_of_sharing_in_transaction()
    ensures { SharingInTransaction }
{}

/// Names are kept as created and compared without case, each call has its refusals, and a file that is open is not deleted.
pub fn row_of_names_of_files()
    ensures { NamesOfFiles }
{}

/// On an image of 16 units, which are 65,536 bytes, one byte more is refused.
pub fn row_of_unit_limit()
    ensures { UnitLimit }
{}

/// On an image of 16 units all 65,536 bytes of a file are written three times.
pub fn row_of_long_log()
    ensures { LongLog }
{}

/// An older version takes its units, once for all who opened it, until the last of them is over.
pub fn row_of_older_version()
    ensures { OlderVersion }
{}

/// The root and 15 more nodes are there at most on an image of 16 units, those of transactions among them.
pub fn row_of_node_limit()
    ensures { NodeLimit }
{}

/// On an image of 16 units 16 changes wait at most, and written bytes do not count.
pub fn row_of_changes_limit()
    ensures { ChangesLimit }
{}

/// An enlistment that rolls back before it has prepared aborts the transaction, also for one that has prepared.
pub fn row_of_vote_against()
    ensures { VoteAgainst }
{}

/// A read-only enlistment takes no part in the outcome, and nothing is recorded of it.
pub fn row_of_read_only()
    ensures { ReadOnly }
{}

/// An enlistment alone is asked to commit in one phase, and goes on with two where it rejects that.
pub fn row_of_single_phase_rejected()
    ensures { SinglePhaseRejected }
{}

/// An enlistment that can commit in one phase is asked to prepare where a file takes part too.
pub fn row_of_file_beside_one_phase()
    ensures { FileBesideOnePhase }
{}

/// A timeout that is reached while enlistments prepare rolls the transaction back.
pub fn row_of_timeout()
    ensures { Timeout }
{}

/// A transaction that is not decided at a restart is rolled back, and objects are numbered anew in the next boot.
pub fn row_of_undecided_at_restart()
    ensures { UndecidedAtRestart }
{}

/// A transaction that waits for its superior keeps what it holds over a restart, and commits by its superior.
pub fn row_of_in_doubt()
    ensures { InDoubt }
{}

/// A transaction in doubt rolls back by its superior, and holds nothing then.
pub fn row_of_in_doubt_rolled_back()
    ensures { InDoubtRolledBack }
{}

/// The enlistments of a transaction in doubt are told its outcome once they recover, over as many restarts as it takes.
pub fn row_of_several_in_doubt()
    ensures { SeveralInDoubt }
{}

/// An enlistment of a transaction that was decided before a restart is told to commit after it.
pub fn row_of_durable_two_phase_commit()
    ensures { DurableTwoPhaseCommit }
{}

/// A transaction rolls back with its last handle, also where its first process has ended.
pub fn row_of_handles_and_exit()
    ensures { HandlesAndExit }
{}

/// A machine that is down refuses every call, a bad line is refused first, and no label is bound after a restart.
pub fn row_of_lines_and_machine()
    ensures { LinesAndMachine }
{}

/// One transaction sets a key and commits; its handle goes on being bound.
pub fn row_of_first_transaction()
    ensures { FirstTransaction }
{}

/// Two transactions that meet on a key.
pub fn row_of_keys_of_two_transactions()
    ensures { KeysOfTwoTransactions }
{}
