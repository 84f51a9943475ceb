// The calls that end a transaction, or tell of its end.
ghost use Rattle.std.specs.Prelude.{◌≡◌};
ghost use Rattle.ktm_world.specs.Completions.{completion_of};

use crate::Command;
use ktm_base::Label;

/// A call on the way to the end of a transaction, with the label that it names.
#[derive(Clone, Copy)]
pub enum Completion {
    CommitTransaction(Label),
    RollbackTransaction(Label),
    GetTransactionInformation(Label),
    GetNotificationResourceManager(Label),
    PrePrepareComplete(Label),
    PrepareComplete(Label),
    ReadOnlyEnlistment(Label),
    CommitComplete(Label),
    RollbackComplete(Label),
    SinglePhaseReject(Label),
    RollbackEnlistment(Label),
    PrePrepareEnlistment(Label),
    PrepareEnlistment(Label),
    CommitEnlistment(Label),
    CloseHandle(Label),
    Exit,
}

impl Command {
    /// The command as a completion, if it is one.
    pub fn completion(&self) -> Option<Completion>
        ensures { result ≡ completion_of self.now }
    {
        match self {
            Command::CommitTransaction { transaction } => {
                Some(Completion::CommitTransaction(*transaction))
            }
            Command::RollbackTransaction { transaction } => {
                Some(Completion::RollbackTransaction(*transaction))
            }
            Command::GetTransactionInformation { transaction } => {
                Some(Completion::GetTransactionInformation(*transaction))
            }
            Command::GetNotificationResourceManager { manager } => {
                Some(Completion::GetNotificationResourceManager(*manager))
            }
            Command::PrePrepareComplete { enlistment } => {
                Some(Completion::PrePrepareComplete(*enlistment))
            }
            Command::PrepareComplete { enlistment } => {
                Some(Completion::PrepareComplete(*enlistment))
            }
            Command::ReadOnlyEnlistment { enlistment } => {
                Some(Completion::ReadOnlyEnlistment(*enlistment))
            }
            Command::CommitComplete { enlistment } => Some(Completion::CommitComplete(*enlistment)),
            Command::RollbackComplete { enlistment } => {
                Some(Completion::RollbackComplete(*enlistment))
            }
            Command::SinglePhaseReject { enlistment } => {
                Some(Completion::SinglePhaseReject(*enlistment))
            }
            Command::RollbackEnlistment { enlistment } => {
                Some(Completion::RollbackEnlistment(*enlistment))
            }
            Command::PrePrepareEnlistment { enlistment } => {
                Some(Completion::PrePrepareEnlistment(*enlistment))
            }
            Command::PrepareEnlistment { enlistment } => {
                Some(Completion::PrepareEnlistment(*enlistment))
            }
            Command::CommitEnlistment { enlistment } => {
                Some(Completion::CommitEnlistment(*enlistment))
            }
            Command::CloseHandle { label } => Some(Completion::CloseHandle(*label)),
            Command::Exit => Some(Completion::Exit),
            _ => None,
        }
    }
}
