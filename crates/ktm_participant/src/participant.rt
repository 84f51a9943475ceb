// What is built into the machine and takes part in transactions.
ghost use Rattle.std.specs.Prelude.{◌≡◌, ◌+◌, ℕ, Bool, true, false, None, IfSome};
ghost use Rattle.ktm_base.specs.declared.id.Id.{Id};

use ktm_base::Id;
use ktm_counted::Steps;
use std::sync::ledger::Ledger;

/// It keeps what each transaction did in it, until that is committed or undone. No call takes memory: what a commit needs is
/// taken by the calls that did the work.
pub trait Participant {
    /// Names the work of a transaction that is ready. It is no `Drop`: exactly one of `commit` and `undo` spends it.
    type Prepared;

    /// The transaction whose work it names.
    ghost owner: { Self.Prepared → Id };

    /// Has the transaction work here, that a commit makes and an undo drops. What else is kept for it, such as what it opened,
    /// counts for nothing.
    ghost has_work: { Self → Id → Bool };

    /// How much of that there is: how many changes a commit makes.
    ghost work_of: { Self → Id → ℕ };

    /// What the transaction did can be committed.
    ghost may_commit: { Self → Id → Type 0 };

    /// What a commit of a transaction makes of it.
    ghost is_committed: { Self → Id → Self → Type 0 };

    /// What is left of it where a transaction is undone.
    ghost is_undone: { Self → Id → Self → Type 0 };

    /// The work of the transaction. There is none exactly where it has none here.
    fn ready(&self, transaction: Id) -> Option<Self::Prepared>
        ensures some { IfSome result (λ p. (owner p ≡ transaction) × (has_work self.now transaction ≡ true)) }
        ensures none { result ≡ None → has_work self.now transaction ≡ false };

    /// Commits the work. Each change that is made is a step.
    fn commit<L: Ledger>(&mut self, prepared: Self::Prepared, steps: &mut Steps<L>)
        requires { may_commit self.old (owner prepared) }
        ensures committed { is_committed self.old (owner prepared) self.new }
        ensures counted { steps.new ≡ steps.old + work_of self.old (owner prepared) };

    /// Undoes the work.
    fn undo(&mut self, prepared: Self::Prepared)
        ensures { is_undone self.old (owner prepared) self.new };
}

/// The work of the transaction, if there is any, is committed or undone. It answers whether there was any; where there was none
/// the participant is as it was, and so is whatever else it keeps for the transaction. Each change that a commit makes is a step,
/// and nothing else is one.
pub fn finish<P: Participant, L: Ledger>(
    participant: &mut P,
    transaction: Id,
    commits: bool,
    steps: &mut Steps<L>,
) -> bool
    requires { commits ≡ true → P.may_commit participant.old transaction }
    ensures work { result ≡ P.has_work participant.old transaction }
    ensures committed { result ≡ true → commits ≡ true → P.is_committed participant.old transaction participant.new }
    ensures undone { result ≡ true → commits ≡ false → P.is_undone participant.old transaction participant.new }
    ensures none { result ≡ false → participant.new ≡ participant.old }
    ensures counted { result ≡ true → commits ≡ true → steps.new ≡ steps.old + P.work_of participant.old transaction }
    ensures counted_none { result ≡ false → steps.new ≡ steps.old }
    ensures counted_undone { commits ≡ false → steps.new ≡ steps.old }
{
    let Some(prepared) = participant.ready(transaction) else {
        return false;
    };
    if commits {
        participant.commit(prepared, steps);
    } else {
        participant.undo(prepared);
    }
    true
}
