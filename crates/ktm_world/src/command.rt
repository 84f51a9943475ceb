// What is asked of the machine.
use crate::{Access, Disposition, Durability, EnlistmentKind, ShareMode};
use ktm_base::{Bytes, Label, Pid, Text};
use uuid::Uuid;

/// A line of a script that is in its grammar.
#[derive(Drop)]
pub enum Line {
    /// So many milliseconds pass.
    Tick(u32),
    /// The power goes once so many more calls of the disk have passed.
    Cut(u64),
    /// The power goes now.
    Crash,
    /// The power is back and the machine starts. What the last loss of power left in bytes that were not synced depends on
    /// the number.
    Restart(u64),
    /// A process calls the system.
    Process(Pid, Command),
}

/// A call of a process. A label names a handle of that process; the field `label` is one that the call binds.
#[derive(Drop)]
pub enum Command {
    /// Makes a transaction. The timeout is in milliseconds; 0 and 4,294,967,295 mean none.
    CreateTransaction {
        label: Label,
        timeout: u32,
    },
    /// Binds a label to a live transaction, by its GUID.
    OpenTransaction {
        label: Label,
        guid: Uuid,
    },
    /// Asks that a transaction commits.
    CommitTransaction {
        transaction: Label,
    },
    /// Rolls a transaction back.
    RollbackTransaction {
        transaction: Label,
    },
    /// Tells a transaction's GUID, state and outcome.
    GetTransactionInformation {
        transaction: Label,
    },
    /// Makes a resource manager.
    CreateResourceManager {
        label: Label,
        durability: Durability,
    },
    /// Binds a label to a resource manager, by its GUID.
    OpenResourceManager {
        label: Label,
        guid: Uuid,
    },
    /// Asks to be told of each enlistment that a restart brought back.
    RecoverResourceManager {
        manager: Label,
    },
    /// Takes the first notification that waits for a resource manager.
    GetNotificationResourceManager {
        manager: Label,
    },
    /// Makes an enlistment of a resource manager in a transaction.
    CreateEnlistment {
        label: Label,
        manager: Label,
        transaction: Label,
        kind: EnlistmentKind,
    },
    /// Binds a label to a live enlistment of a resource manager, by its GUID.
    OpenEnlistment {
        label: Label,
        manager: Label,
        guid: Uuid,
    },
    /// Asks what became of the transaction of an enlistment that a restart brought back.
    RecoverEnlistment {
        enlistment: Label,
    },
    /// Answers PREPREPARE.
    PrePrepareComplete {
        enlistment: Label,
    },
    /// Answers PREPARE: the enlistment can commit and can roll back.
    PrepareComplete {
        enlistment: Label,
    },
    /// Takes no part in the outcome.
    ReadOnlyEnlistment {
        enlistment: Label,
    },
    /// Answers COMMIT, or SINGLE_PHASE_COMMIT.
    CommitComplete {
        enlistment: Label,
    },
    /// Answers ROLLBACK.
    RollbackComplete {
        enlistment: Label,
    },
    /// Answers SINGLE_PHASE_COMMIT: the transaction is to commit in two phases.
    SinglePhaseReject {
        enlistment: Label,
    },
    /// Rolls the enlistment's transaction back.
    RollbackEnlistment {
        enlistment: Label,
    },
    /// As its superior, asks that a transaction pre-prepares.
    PrePrepareEnlistment {
        enlistment: Label,
    },
    /// As its superior, asks that a transaction prepares.
    PrepareEnlistment {
        enlistment: Label,
    },
    /// As its superior, decides that a transaction commits.
    CommitEnlistment {
        enlistment: Label,
    },
    /// Keeps bytes that a restart gives back with the enlistment.
    SetEnlistmentRecoveryInformation {
        enlistment: Label,
        information: Bytes,
    },
    /// Reads these bytes.
    GetEnlistmentRecoveryInformation {
        enlistment: Label,
    },
    /// Opens a file, or makes it, as its disposition says.
    CreateFile {
        label: Label,
        path: Text,
        access: Access,
        share: ShareMode,
        disposition: Disposition,
    },
    /// Opens a file, or makes it, as its disposition says, in a transaction.
    CreateFileTransacted {
        label: Label,
        path: Text,
        access: Access,
        share: ShareMode,
        disposition: Disposition,
        transaction: Label,
    },
    /// Reads so many bytes of a file, from an offset on.
    ReadFile {
        file: Label,
        offset: u64,
        length: u64,
    },
    /// Writes bytes into a file, from an offset on.
    WriteFile {
        file: Label,
        offset: u64,
        bytes: Bytes,
    },
    /// Makes a file so many bytes long.
    SetEndOfFile {
        file: Label,
        size: u64,
    },
    /// Puts whole units into a file, from the begin of one on. No line spells it: the machine makes it of `WriteFile` and of
    /// `SetEndOfFile`, whose bytes stand on pages then.
    WriteUnits {
        file: Label,
        start: u64,
        contents: Bytes,
    },
    /// Tells how many bytes a file has.
    GetFileSizeEx {
        file: Label,
    },
    /// Makes the changes of a file outlive a loss of power.
    FlushFileBuffers {
        file: Label,
    },
    /// Removes a file.
    DeleteFile {
        path: Text,
    },
    /// Makes a directory.
    CreateDirectory {
        path: Text,
    },
    /// Removes a directory that has no entries.
    RemoveDirectory {
        path: Text,
    },
    /// Gives a file or a directory another name, in the same directory or in another one.
    MoveFile {
        source: Text,
        target: Text,
    },
    /// Removes a file, in a transaction.
    DeleteFileTransacted {
        path: Text,
        transaction: Label,
    },
    /// Makes a directory, in a transaction.
    CreateDirectoryTransacted {
        path: Text,
        transaction: Label,
    },
    /// Removes a directory that has no entries, in a transaction.
    RemoveDirectoryTransacted {
        path: Text,
        transaction: Label,
    },
    /// Gives a file or a directory another name, in a transaction.
    MoveFileTransacted {
        source: Text,
        target: Text,
        transaction: Label,
    },
    /// Lists the entries of a directory whose names match a pattern.
    FindFiles {
        pattern: Text,
    },
    /// Lists the entries of a directory whose names match a pattern, as a transaction sees them.
    FindFilesTransacted {
        pattern: Text,
        transaction: Label,
    },
    /// Gives a key a value, in a transaction.
    KvSet {
        transaction: Label,
        key: Text,
        value: Bytes,
    },
    /// Takes the value of a key away, in a transaction.
    KvUnset {
        transaction: Label,
        key: Text,
    },
    /// Reads the value of a key.
    KvGet {
        view: View,
        key: Text,
    },
    /// Lists the keys that have a value, by rising key.
    KvList {
        view: View,
    },
    /// Ends a handle. The last one of an active transaction rolls it back.
    CloseHandle {
        label: Label,
    },
    /// Binds a label to what a label of another process, or of this one, names.
    DuplicateHandle {
        label: Label,
        process: Pid,
        source: Label,
    },
    /// Ends all handles of the process, by rising label.
    Exit,
}

/// Through what a process looks at files or keys: what was last committed, or a transaction, by the label of its handle.
#[derive(Clone, Copy)]
pub enum View {
    Plain,
    Transaction(Label),
}
