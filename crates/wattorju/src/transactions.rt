// Transactions.
ghost use Rattle.std.specs.Prelude.{◌≡◌, IfOk};
ghost use Rattle.ktm_world.specs.declared.command.Command.TheVariants.{CloseHandle, CommitTransaction, CreateTransaction, DuplicateHandle, GetTransactionInformation, OpenTransaction, RollbackTransaction};
ghost use Rattle.ktm_world.specs.declared.reply.Reply.TheVariants.{Done, Guid};
ghost use Rattle.wattorju.specs.Calls.{IsBinding, IsCompleted, answer_of, own, reply_of};
ghost use Rattle.wattorju.specs.Told.{reply_of_information, reply_of_state};

use crate::law::law_of_guid;
use crate::machine::OWN;
use crate::{CommitState, CompletionFault, Failure, Machine, Transaction, TransactionInformation};
use ktm_base::Disk;
use ktm_world::{Command, Completion};
use uuid::Uuid;

impl<D: Disk> Machine<D> {
    /// Makes a transaction, and tells its GUID. It rolls back in the first tick that reaches so many milliseconds, unless its outcome
    /// is known, it waits for its superior to decide, or for a commit in one phase; 0 and 4,294,967,295 mean never.
    pub fn create_transaction(&mut self, timeout: u32) -> Result<(Transaction, Uuid), Failure>
        ensures { IsBinding (λ label. CreateTransaction label timeout) self.old self.new (answer_of result (λ made. Guid made.1)) (λ label. IfOk result (λ made. made.0.label ≡ label)) }
    {
        let label = self.free_label();
        match self.make(label, Command::CreateTransaction { label, timeout }) {
            Ok(guid) => Ok((Transaction { label }, guid)),
            Err(failure) => Err(failure),
        }
    }

    /// Opens the live transaction with this GUID.
    pub fn open_transaction(&mut self, guid: Uuid) -> Result<Transaction, Failure>
        ensures { IsBinding (λ label. OpenTransaction label guid) self.old self.new (answer_of result (λ made. Done)) (λ label. IfOk result (λ made. made.label ≡ label)) }
    {
        law_of_guid(&guid);
        let label = self.free_label();
        match self.bind(label, Command::OpenTransaction { label, guid }) {
            Ok(()) => Ok(Transaction { label }),
            Err(failure) => Err(failure),
        }
    }

    /// Asks that a transaction commits.
    pub fn commit(&mut self, transaction: &Transaction) -> Result<CommitState, CompletionFault>
        ensures { IsCompleted (CommitTransaction transaction.now.label) self.old self.new (reply_of result reply_of_state) }
    {
        self.progress(Completion::CommitTransaction(transaction.label))
    }

    /// Rolls a transaction back.
    pub fn roll_back(&mut self, transaction: &Transaction) -> Result<(), CompletionFault>
        ensures { IsCompleted (RollbackTransaction transaction.now.label) self.old self.new (reply_of result (λ done. Done)) }
    {
        self.end(Completion::RollbackTransaction(transaction.label))
    }

    /// Tells a transaction's GUID, state and outcome.
    pub fn transaction_information(
        &mut self,
        transaction: &Transaction,
    ) -> Result<TransactionInformation, CompletionFault>
        ensures { IsCompleted (GetTransactionInformation transaction.now.label) self.old self.new (reply_of result reply_of_information) }
    {
        self.information(Completion::GetTransactionInformation(transaction.label))
    }

    /// Opens a transaction once more.
    pub fn duplicate_transaction(
        &mut self,
        transaction: &Transaction,
    ) -> Result<Transaction, Failure>
        ensures { IsBinding (λ label. DuplicateHandle label own transaction.now.label) self.old self.new (answer_of result (λ made. Done)) (λ label. IfOk result (λ made. made.label ≡ label)) }
    {
        let label = self.free_label();
        match self.bind(
            label,
            Command::DuplicateHandle {
                label,
                process: OWN,
                source: transaction.label,
            },
        ) {
            Ok(()) => Ok(Transaction { label }),
            Err(failure) => Err(failure),
        }
    }

    /// Closes a transaction that is open. The last one of an active transaction rolls it back. A value from before a restart names
    /// whatever has its label now, or nothing.
    pub fn close_transaction(&mut self, transaction: Transaction) -> Result<(), CompletionFault>
        ensures { IsCompleted (CloseHandle transaction.label) self.old self.new (reply_of result (λ done. Done)) }
    {
        let Transaction { label } = transaction;
        self.end(Completion::CloseHandle(label))
    }
}
