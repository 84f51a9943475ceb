// The commands that completions are.
ghost use Rattle.std.specs.Prelude.{◌≡◌};
ghost use Rattle.ktm_route.specs.Completions.{command_of};

use ktm_world::{Command, Completion};

/// The command that a completion is.
pub fn command_of(completion: Completion) -> Command
    ensures { result ≡ command_of completion }
{
    match completion {
        Completion::CommitTransaction(transaction) => { Command::CommitTransaction { transaction } }
        Completion::RollbackTransaction(transaction) => {
            Command::RollbackTransaction { transaction }
        }
        Completion::GetTransactionInformation(transaction) => {
            Command::GetTransactionInformation { transaction }
        }
        Completion::GetNotificationResourceManager(manager) => {
            Command::GetNotificationResourceManager { manager }
        }
        Completion::PrePrepareComplete(enlistment) => { Command::PrePrepareComplete { enlistment } }
        Completion::PrepareComplete(enlistment) => Command::PrepareComplete { enlistment },
        Completion::ReadOnlyEnlistment(enlistment) => { Command::ReadOnlyEnlistment { enlistment } }
        Completion::CommitComplete(enlistment) => Command::CommitComplete { enlistment },
        Completion::RollbackComplete(enlistment) => Command::RollbackComplete { enlistment },
        Completion::SinglePhaseReject(enlistment) => Command::SinglePhaseReject { enlistment },
        Completion::RollbackEnlistment(enlistment) => { Command::RollbackEnlistment { enlistment } }
        Completion::PrePrepareEnlistment(enlistment) => {
            Command::PrePrepareEnlistment { enlistment }
        }
        Completion::PrepareEnlistment(enlistment) => Command::PrepareEnlistment { enlistment },
        Completion::CommitEnlistment(enlistment) => Command::CommitEnlistment { enlistment },
        Completion::CloseHandle(label) => Command::CloseHandle { label },
        Completion::Exit => Command::Exit,
    }
}
