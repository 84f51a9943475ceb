// The transactions that are not over.
ghost use Rattle.std.specs.Prelude.{◌≡◌, ◌+◌, ◌≤◌, IfSome, Some, map, option_map, sum_by, true, vec_capacity, vec_len};
ghost use Rattle.std.specs.List.{list_all};
ghost use Rattle.ktm_event.specs.Spelling.{IsSpellableId, IsSpellablePart, IsSpellableRecord};
ghost use Rattle.ktm_event.specs.Work.{part_of};
ghost use Rattle.ktm_saving.specs.Owned.{changes_placed, changes_owned, part_with, recorded_in};
ghost use Rattle.ktm_saving.specs.Spellable.{AreSpellable, IsSpellableTransaction};
ghost use Rattle.ktm_saving.specs.Writes.{Writes};
ghost use Rattle.ktm_snapshot.specs.Works.{is_of_work};
ghost use Rattle.ktm_snapshot.specs.Shown.{superior_of};
ghost use Rattle.ktm_snapshot.specs.Sizes.{marked_size, transaction_size};
ghost use Rattle.ktm_snapshot.specs.StateGrammar.{AreTransactionsOf, IsMarkedOf, IsTransactionOf, transactions_rise};
ghost use Rattle.ktm_trace.specs.Contents.{contents_of, manager_of, superior_at};
ghost use Rattle.ktm_trace.specs.Lent.{part_lent, transaction_lent};
ghost use Rattle.ktm_world.specs.Enlistments.{enlistment_at};
ghost use Rattle.ktm_memory.specs.Shown.{shown};

use crate::owned::{Owned, left_to_commit};
use ktm_base::Id;
use ktm_codec::put_u32;
use ktm_event::Work;
use ktm_memory::{Memory, Written};
use ktm_phase::Enlistment;
use ktm_snapshot::{ShownSuperior, law_of_works, law_of_writing, put_transaction, put_work};
use ktm_tm::Tm;
use ktm_trace::{PartRef, TransactionRef};
use ktm_world::DonePart;

// The enlistment with this Id, which is there.
fn enlistment_of(tm: &Tm, id: Id) -> &Enlistment
    requires { IsSpellableId (manager_of (enlistment_at tm.now.now.enlistments id)) }
    ensures { enlistment_at tm.now.now.enlistments id ≡ Some result.now }
{
    match tm.enlistment(id) {
        Some(e) => e,
        None => unreachable!(),
    }
}

// The superior whose enlistment has this Id, if there is one.
fn shown_superior(tm: &Tm, superior: Option<Id>) -> Option<ShownSuperior<'_>>
    requires { IfSome (superior_at tm.now.now.enlistments superior) (λ s. IsSpellableRecord s.enlistment s.manager s.information) }
    ensures { option_map superior_of result ≡ superior_at tm.now.now.enlistments superior }
{
    let Some(id) = superior else {
        return None;
    };
    let e = enlistment_of(tm, id);
    Some(ShownSuperior {
        enlistment: id,
        manager: e.manager,
        information: e.information.as_slice(),
    })
}

// What a participant of a transaction has recorded.
fn work_of<'a>(tm: &'a Tm, owned: &'a Owned<'a>, who: DonePart) -> Work<'a, Written<'a>>
    requires { IsSpellablePart (contents_of tm.now.now.enlistments (changes_owned owned.now) owned.now.settings.now who) }
    ensures { part_of shown result ≡ contents_of tm.now.now.enlistments (changes_owned owned.now) owned.now.settings.now who }
{
    match who {
        DonePart::Files => Work::Changes {
            names: owned.names,
            files: &owned.files,
        },
        DonePart::Keys => Work::Settings(owned.settings),
        DonePart::Enlistment(id) => {
            let e = enlistment_of(tm, id);
            Work::Enlistment {
                enlistment: id,
                manager: e.manager,
                information: e.information.as_slice(),
            }
        }
    }
}

fn write_part(tm: &Tm, owned: &Owned<'_>, part: PartRef, out: &mut Vec<u8>)
    requires spelled { IsSpellablePart (contents_of tm.now.now.enlistments (changes_owned owned.now) owned.now.settings.now part.who) }
    requires work { list_all is_of_work (changes_owned owned.now) ≡ true }
    requires room { vec_len out.old + marked_size (part_with tm.now.now.enlistments (changes_placed owned.now) owned.now.settings.now (part_lent part)) ≤ vec_capacity out.old }
    ensures { let marked = part_with tm.now.now.enlistments (changes_placed owned.now) owned.now.settings.now (part_lent part) in Writes (IsMarkedOf marked) (marked_size marked) out.old out.new }
{
    law_of_works();
    put_work(out, part.is_done, work_of(tm, owned, part.who));
}

fn write_transaction(memory: &Memory, transaction: TransactionRef<'_>, out: &mut Vec<u8>)
    requires spelled { IsSpellableTransaction (recorded_in memory.now (transaction_lent transaction)) }
    requires room { vec_len out.old + transaction_size (recorded_in memory.now (transaction_lent transaction)) ≤ vec_capacity out.old }
    ensures { let recorded = recorded_in memory.now (transaction_lent transaction.entry) in Writes (IsTransactionOf recorded) (transaction_size recorded) out.old out.new }
{
    law_of_writing();
    let TransactionRef {
        id,
        stage,
        superior,
        mut parts,
    } = transaction;
    let tm = memory.tm();
    let owned = left_to_commit(memory, id, stage);
    put_transaction(
        out,
        id,
        stage,
        shown_superior(tm, superior),
        parts.len() as u32,
    );
    'parts: while let Some(part) = parts.next() {
        write_part(tm, &owned, part, out);
    }
}

/// Writes the transactions of the log with their parts, by rising Id, behind their count. It takes no memory.
pub(crate) fn write_transactions(memory: &Memory, out: &mut Vec<u8>)
    requires spelled { AreSpellable IsSpellableTransaction (map (recorded_in memory.now) memory.now.trace) }
    requires rise { transactions_rise (map (recorded_in memory.now) memory.now.trace) ≡ true }
    requires room { vec_len out.old + (4 + sum_by transaction_size (map (recorded_in memory.now) memory.now.trace)) ≤ vec_capacity out.old }
    ensures { Writes (AreTransactionsOf (map (recorded_in memory.now) memory.now.trace)) (4 + sum_by transaction_size (map (recorded_in memory.now) memory.now.trace)) out.old out.new }
{
    law_of_writing();
    let mut transactions = memory.trace().transactions();
    put_u32(out, transactions.len() as u32);
    'transactions: while let Some(transaction) = transactions.next() {
        write_transaction(memory, transaction, out);
    }
}
