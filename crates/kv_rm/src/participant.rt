// The manager as a participant of transactions.
ghost use Rattle.std.specs.Prelude.{◌≡◌, length};
ghost use Rattle.ktm_world.specs.Keys.{own_settings, stored_all, without_own};
ghost use Rattle.kv_rm.specs.Participant.{has_own};

use crate::rm::KvRm;
use ktm_base::Id;
use ktm_counted::Steps;
use ktm_participant::Participant;
use std::sync::ledger::Ledger;

/// What a transaction has set, which is ready to be committed or undone.
pub struct PreparedSettings {
    transaction: Id,
}

impl Participant for KvRm {
    type Prepared = PreparedSettings;

    ghost owner = { λ p. p.transaction };

    ghost has_work = { λ keys id. has_own keys.own id };

    ghost work_of = { λ keys id. length (own_settings keys.own id) };

    ghost may_commit = { λ keys id. Unit {0} };

    ghost is_committed = { λ old id new. new ≡ record { store = stored_all old.store (own_settings old.own id); own = without_own old.own id } };

    ghost is_undone = { λ old id new. new ≡ record old { own = without_own old.own id } };

    fn ready(&self, transaction: Id) -> Option<PreparedSettings> {
        if self.has_own(transaction) {
            Some(PreparedSettings { transaction })
        } else {
            None
        }
    }

    /// Makes the transaction's settings in the store, in order. Each setting is a step.
    fn commit<L: Ledger>(&mut self, prepared: PreparedSettings, steps: &mut Steps<L>) {
        let PreparedSettings { transaction } = prepared;
        self.commit_own(transaction, steps);
    }

    /// Forgets what the transaction has set.
    fn undo(&mut self, prepared: PreparedSettings) {
        let PreparedSettings { transaction } = prepared;
        self.forget_own(transaction);
    }
}
