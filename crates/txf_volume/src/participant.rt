// The files as a participant of transactions.
ghost use Rattle.std.specs.Prelude.{◌≡◌, is_some, length};
ghost use Rattle.ktm_world.specs.Files.{own_changes};
ghost use Rattle.txf_laws.specs.FileEffects.{forgotten};
ghost use Rattle.txf_laws.specs.Reservations.{files_committed};
ghost use Rattle.txf_volume.specs.Commit.{MayCommit};
ghost use Rattle.txf_volume.specs.Held.{files_of, overlay_in};

use crate::files::Files;
use ktm_base::Id;
use ktm_counted::Steps;
use ktm_participant::Participant;
use std::sync::ledger::Ledger;

/// What a transaction changed, which is ready to be committed or undone.
pub struct PreparedChanges {
    transaction: Id,
}

impl Participant for Files {
    type Prepared = PreparedChanges;

    ghost owner = { λ p. p.transaction };

    ghost has_work = { λ files id. is_some (overlay_in files.overlays id) };

    ghost work_of = { λ files id. length (own_changes (files_of files).table.own id) };

    ghost may_commit = { λ files id. MayCommit (files_of files) id };

    ghost is_committed = { λ old id new. files_of new ≡ files_committed (files_of old) id };

    ghost is_undone = { λ old id new. files_of new ≡ forgotten (files_of old) id };

    fn ready(&self, transaction: Id) -> Option<PreparedChanges> {
        if self.overlay(transaction).is_some() {
            Some(PreparedChanges { transaction })
        } else {
            None
        }
    }

    /// Commits what the transaction changed, and ends what it held, first opened and had open. It copies no byte. Each change is a
    /// step, in the form in which it is committed: a file is cut to nothing, and then gets its bytes, where it has any.
    fn commit<L: Ledger>(&mut self, prepared: PreparedChanges, steps: &mut Steps<L>) {
        let PreparedChanges { transaction } = prepared;
        self.commit_transaction(transaction, steps);
    }

    /// Ends what it changed, held, first opened and had open.
    fn undo(&mut self, prepared: PreparedChanges) {
        let PreparedChanges { transaction } = prepared;
        self.forget(transaction);
    }
}
