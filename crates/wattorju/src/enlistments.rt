// Enlistments of resource managers in transactions.
ghost use Rattle.std.specs.Prelude.{◌≡◌, IfOk};
ghost use Rattle.ktm_world.specs.declared.command.Command.TheVariants.{CloseHandle, CommitComplete, CommitEnlistment, CreateEnlistment, DuplicateHandle, GetEnlistmentRecoveryInformation, OpenEnlistment, PrePrepareComplete, PrePrepareEnlistment, PrepareComplete, PrepareEnlistment, ReadOnlyEnlistment, RecoverEnlistment, RollbackComplete, RollbackEnlistment, SetEnlistmentRecoveryInformation, SinglePhaseReject};
ghost use Rattle.ktm_world.specs.declared.reply.Reply.TheVariants.{Contents, Done, Guid};
ghost use Rattle.wattorju.specs.Calls.{IsBinding, IsCalled, IsCompleted, answer_of, own, reply_of};

use crate::law::{law_of_bytes, law_of_guid};
use crate::machine::OWN;
use crate::{CompletionFault, Enlistment, Failure, Machine, ResourceManager, Transaction};
use ktm_base::{Bytes, Disk};
use ktm_world::{Command, Completion, EnlistmentKind};
use uuid::Uuid;

impl<D: Disk> Machine<D> {
    /// Makes an enlistment of a resource manager in a transaction, and tells its GUID.
    pub fn create_enlistment(
        &mut self,
        resource_manager: &ResourceManager,
        transaction: &Transaction,
        kind: EnlistmentKind,
    ) -> Result<(Enlistment, Uuid), Failure>
        ensures { IsBinding (λ label. CreateEnlistment label resource_manager.now.label transaction.now.label kind) self.old self.new (answer_of result (λ made. Guid made.1)) (λ label. IfOk result (λ made. made.0.label ≡ label)) }
    {
        let label = self.free_label();
        match self.make(
            label,
            Command::CreateEnlistment {
                label,
                manager: resource_manager.label,
                transaction: transaction.label,
                kind,
            },
        ) {
            Ok(guid) => Ok((Enlistment { label }, guid)),
            Err(failure) => Err(failure),
        }
    }

    /// Opens the live enlistment of a resource manager with this GUID.
    pub fn open_enlistment(
        &mut self,
        resource_manager: &ResourceManager,
        guid: Uuid,
    ) -> Result<Enlistment, Failure>
        ensures { IsBinding (λ label. OpenEnlistment label resource_manager.now.label guid) self.old self.new (answer_of result (λ made. Done)) (λ label. IfOk result (λ made. made.label ≡ label)) }
    {
        law_of_guid(&guid);
        let label = self.free_label();
        match self.bind(
            label,
            Command::OpenEnlistment {
                label,
                manager: resource_manager.label,
                guid,
            },
        ) {
            Ok(()) => Ok(Enlistment { label }),
            Err(failure) => Err(failure),
        }
    }

    /// Asks what became of the transaction of an enlistment that a restart brought back.
    pub fn recover_enlistment(&mut self, enlistment: &Enlistment) -> Result<(), Failure>
        ensures { IsCalled (RecoverEnlistment enlistment.now.label) self.old self.new (answer_of result (λ done. Done)) }
    {
        self.done(Command::RecoverEnlistment {
            enlistment: enlistment.label,
        })
    }

    /// Answers PREPREPARE.
    pub fn pre_prepare_complete(&mut self, enlistment: &Enlistment) -> Result<(), CompletionFault>
        ensures { IsCompleted (PrePrepareComplete enlistment.now.label) self.old self.new (reply_of result (λ done. Done)) }
    {
        self.end(Completion::PrePrepareComplete(enlistment.label))
    }

    /// Answers PREPARE: the enlistment can commit and can roll back.
    pub fn prepare_complete(&mut self, enlistment: &Enlistment) -> Result<(), CompletionFault>
        ensures { IsCompleted (PrepareComplete enlistment.now.label) self.old self.new (reply_of result (λ done. Done)) }
    {
        self.end(Completion::PrepareComplete(enlistment.label))
    }

    /// Takes no part in the outcome.
    pub fn read_only(&mut self, enlistment: &Enlistment) -> Result<(), CompletionFault>
        ensures { IsCompleted (ReadOnlyEnlistment enlistment.now.label) self.old self.new (reply_of result (λ done. Done)) }
    {
        self.end(Completion::ReadOnlyEnlistment(enlistment.label))
    }

    /// Answers COMMIT, or SINGLE_PHASE_COMMIT.
    pub fn commit_complete(&mut self, enlistment: &Enlistment) -> Result<(), CompletionFault>
        ensures { IsCompleted (CommitComplete enlistment.now.label) self.old self.new (reply_of result (λ done. Done)) }
    {
        self.end(Completion::CommitComplete(enlistment.label))
    }

    /// Answers ROLLBACK.
    pub fn rollback_complete(&mut self, enlistment: &Enlistment) -> Result<(), CompletionFault>
        ensures { IsCompleted (RollbackComplete enlistment.now.label) self.old self.new (reply_of result (λ done. Done)) }
    {
        self.end(Completion::RollbackComplete(enlistment.label))
    }

    /// Answers SINGLE_PHASE_COMMIT: the transaction is to commit in two phases.
    pub fn single_phase_reject(&mut self, enlistment: &Enlistment) -> Result<(), CompletionFault>
        ensures { IsCompleted (SinglePhaseReject enlistment.now.label) self.old self.new (reply_of result (λ done. Done)) }
    {
        self.end(Completion::SinglePhaseReject(enlistment.label))
    }

    /// Rolls the enlistment's transaction back.
    pub fn roll_back_enlistment(&mut self, enlistment: &Enlistment) -> Result<(), CompletionFault>
        ensures { IsCompleted (RollbackEnlistment enlistment.now.label) self.old self.new (reply_of result (λ done. Done)) }
    {
        self.end(Completion::RollbackEnlistment(enlistment.label))
    }

    /// As its superior, asks that a transaction pre-prepares.
    pub fn pre_prepare_enlistment(&mut self, enlistment: &Enlistment) -> Result<(), CompletionFault>
        ensures { IsCompleted (PrePrepareEnlistment enlistment.now.label) self.old self.new (reply_of result (λ done. Done)) }
    {
        self.end(Completion::PrePrepareEnlistment(enlistment.label))
    }

    /// As its superior, asks that a transaction prepares.
    pub fn prepare_enlistment(&mut self, enlistment: &Enlistment) -> Result<(), CompletionFault>
        ensures { IsCompleted (PrepareEnlistment enlistment.now.label) self.old self.new (reply_of result (λ done. Done)) }
    {
        self.end(Completion::PrepareEnlistment(enlistment.label))
    }

    /// As its superior, decides that a transaction commits.
    pub fn commit_enlistment(&mut self, enlistment: &Enlistment) -> Result<(), CompletionFault>
        ensures { IsCompleted (CommitEnlistment enlistment.now.label) self.old self.new (reply_of result (λ done. Done)) }
    {
        self.end(Completion::CommitEnlistment(enlistment.label))
    }

    /// Keeps bytes that a restart gives back with the enlistment; at most 128.
    pub fn set_recovery_information(
        &mut self,
        enlistment: &Enlistment,
        information: Bytes,
    ) -> Result<(), Failure>
        ensures { IsCalled (SetEnlistmentRecoveryInformation enlistment.now.label information) self.old self.new (answer_of result (λ done. Done)) }
    {
        law_of_bytes(&information);
        self.done(Command::SetEnlistmentRecoveryInformation {
            enlistment: enlistment.label,
            information,
        })
    }

    /// Reads the bytes that `set_recovery_information` keeps.
    pub fn recovery_information(&mut self, enlistment: &Enlistment) -> Result<Bytes, Failure>
        ensures { IsCalled (GetEnlistmentRecoveryInformation enlistment.now.label) self.old self.new (answer_of result Contents) }
    {
        self.bytes(Command::GetEnlistmentRecoveryInformation {
            enlistment: enlistment.label,
        })
    }

    /// Opens an enlistment once more.
    pub fn duplicate_enlistment(&mut self, enlistment: &Enlistment) -> Result<Enlistment, Failure>
        ensures { IsBinding (λ label. DuplicateHandle label own enlistment.now.label) self.old self.new (answer_of result (λ made. Done)) (λ label. IfOk result (λ made. made.label ≡ label)) }
    {
        let label = self.free_label();
        match self.bind(
            label,
            Command::DuplicateHandle {
                label,
                process: OWN,
                source: enlistment.label,
            },
        ) {
            Ok(()) => Ok(Enlistment { label }),
            Err(failure) => Err(failure),
        }
    }

    /// Closes an enlistment that is open.
    pub fn close_enlistment(&mut self, enlistment: Enlistment) -> Result<(), CompletionFault>
        ensures { IsCompleted (CloseHandle enlistment.label) self.old self.new (reply_of result (λ done. Done)) }
    {
        let Enlistment { label } = enlistment;
        self.end(Completion::CloseHandle(label))
    }
}
