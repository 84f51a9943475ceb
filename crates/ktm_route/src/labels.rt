// What labels name, with the tests of their handles.
ghost use Rattle.std.specs.Prelude.{◌≡◌, ◌∷◌, ◌&&◌, [], Some, None, IfOk, IfErr};
ghost use Rattle.std.specs.Option.{option_and_then, option_copied, option_map};
ghost use Rattle.ktm_base.specs.declared.refusal.Refusal.TheVariants.{HandleNoLongerValid};
ghost use Rattle.ktm_standing.specs.Standing.{IsStandingNow};
ghost use Rattle.ktm_memory.specs.Memory.{present_of};
ghost use Rattle.ktm_route.specs.Route.{live_of, source_tests};
ghost use Rattle.ktm_world.specs.Handles.{object_at, transaction_id};
ghost use Rattle.ktm_world.specs.Enlistments.{Manager as OfManagers, enlistment_at, is_live_enlistment, manager_at};
ghost use Rattle.ktm_world.specs.Labels.{enlistment_id, enlistment_named, file_named, file_number, file_tests, is_dead, is_suspended, manager_id, manager_named, transaction_named, transaction_tests, view_tests, viewer};
ghost use Rattle.ktm_world.specs.Outcome.{first_refusal};
ghost use Rattle.ktm_world.specs.TransactionCalls.{enlistment_with, manager_with, transaction_with};
ghost use Rattle.ktm_world.specs.Transactions.{same_id};
ghost use Rattle.txf_opens.specs.Acts.{open_of};
ghost use Rattle.ktm_memory.specs.Held.{files_of};

use ktm_base::{Id, Label, ObjectKind, Pid, Refusal, id_of};
use ktm_memory::Memory;
use ktm_phase::Enlistment;
use ktm_tm::{active_refusal, is_active};
use ktm_world::{Object, Transaction, View};
use txf_calls::OpenFile;
use uuid::Uuid;

// The transaction among the objects.
fn transaction_id(object: Option<Object>) -> Option<Id>
    ensures { result ≡ transaction_id object }
{
    match object {
        Some(Object::Transaction(id)) => Some(id),
        Some(Object::Manager(_)) | Some(Object::Enlistment(_)) | Some(Object::File(_)) => None,
        None => None,
    }
}

// The resource manager among the objects.
fn manager_id(object: Option<Object>) -> Option<Id>
    ensures { result ≡ manager_id object }
{
    match object {
        Some(Object::Manager(id)) => Some(id),
        Some(Object::Transaction(_)) | Some(Object::Enlistment(_)) | Some(Object::File(_)) => None,
        None => None,
    }
}

// The enlistment among the objects.
fn enlistment_id(object: Option<Object>) -> Option<Id>
    ensures { result ≡ enlistment_id object }
{
    match object {
        Some(Object::Enlistment(id)) => Some(id),
        Some(Object::Transaction(_)) | Some(Object::Manager(_)) | Some(Object::File(_)) => None,
        None => None,
    }
}

// The open file among the objects.
fn file_number(object: Option<Object>) -> Option<u32>
    ensures { result ≡ file_number object }
{
    match object {
        Some(Object::File(number)) => Some(number),
        Some(Object::Transaction(_)) | Some(Object::Manager(_)) | Some(Object::Enlistment(_)) => {
            None
        }
        None => None,
    }
}

// The object that a label of a process names.
pub(crate) fn object_at(memory: &Memory, process: Pid, label: Label) -> Option<Object>
    ensures { result ≡ object_at (present_of memory.now).handles process label }
{
    memory.handles().get(process, label)
}

// The transaction that a label of a process names.
pub(crate) fn named(memory: &Memory, process: Pid, label: Label) -> Option<Transaction>
    ensures { result ≡ transaction_named (present_of memory.now) process label }
{
    let id = transaction_id(object_at(memory, process, label))?;
    memory.tm().find(id)
}

// The resource manager with an Id, if that is of one.
fn manager_there(memory: &Memory, found: Option<Id>) -> Option<Id>
    ensures { result ≡ option_map (λ m. m.id) (option_and_then (manager_at (present_of memory.now).managers) found) }
{
    let id = found?;
    if memory.tm().has_manager(id) {
        Some(id)
    } else {
        None
    }
}

// The resource manager that a label of a process names.
pub(crate) fn manager_named(memory: &Memory, process: Pid, label: Label) -> Option<Id>
    ensures { result ≡ option_map (λ m. m.id) (manager_named (present_of memory.now) process label) }
{
    manager_there(memory, manager_id(object_at(memory, process, label)))
}

// The enlistment that a label of a process names.
pub(crate) fn enlistment_named(memory: &Memory, process: Pid, label: Label) -> Option<&Enlistment>
    ensures { option_copied result ≡ enlistment_named (present_of memory.now) process label }
{
    let id = enlistment_id(object_at(memory, process, label))?;
    memory.tm().enlistment(id)
}

// The active transaction that a label names, or why there is none.
pub(crate) fn active(memory: &Memory, process: Pid, label: Label) -> Result<Transaction, Refusal>
    ensures ok { IfOk result (λ t. (transaction_named (present_of memory.now) process label ≡ Some t) × (first_refusal (transaction_tests (Some t)) ≡ None)) }
    ensures err { IfErr result (λ refusal. first_refusal (transaction_tests (transaction_named (present_of memory.now) process label)) ≡ Some refusal) }
{
    let Some(t) = named(memory, process, label) else {
        return Err(Refusal::InvalidHandle);
    };
    match active_refusal(&t) {
        Some(refusal) => Err(refusal),
        None => Ok(t),
    }
}

// Through which transaction a view looks, or why it cannot.
pub(crate) fn viewer(memory: &Memory, process: Pid, view: View) -> Result<Option<Id>, Refusal>
    ensures ok { IfOk result (λ who. (first_refusal (view_tests (present_of memory.now) process view) ≡ None) × (viewer (present_of memory.now) process view ≡ who)) }
    ensures err { IfErr result (λ refusal. first_refusal (view_tests (present_of memory.now) process view) ≡ Some refusal) }
{
    let View::Transaction(label) = view else {
        return Ok(None);
    };
    match active(memory, process, label) {
        Ok(t) => Ok(Some(t.id)),
        Err(refusal) => Err(refusal),
    }
}

// Why the handle of what is named cannot be duplicated, if it cannot.
pub(crate) fn source_refusal(memory: &Memory, named: Option<Object>) -> Option<Refusal>
    ensures { result ≡ first_refusal (source_tests (files_of memory.now.files) named) }
{
    match named {
        Some(Object::File(number)) => dead_refusal(memory, number),
        Some(Object::Transaction(_)) | Some(Object::Manager(_)) | Some(Object::Enlistment(_)) =>
            None,
        None => Some(Refusal::InvalidHandle),
    }
}

// Why the handle of a file cannot be used, where it is dead.
pub(crate) fn dead_refusal(memory: &Memory, number: u32) -> Option<Refusal>
    ensures { result ≡ first_refusal ((is_dead (files_of memory.now.files) number, HandleNoLongerValid) ∷ []) }
{
    if memory.files().is_dead(number) {
        return Some(Refusal::HandleNoLongerValid);
    }
    None
}

// Is the transaction of an open file not active, if it has one.
pub(crate) fn is_suspended(memory: &Memory, file: &OpenFile) -> bool
    ensures { result ≡ is_suspended (present_of memory.now) (open_of file.now) }
{
    match file.transaction {
        Some(id) => match memory.tm().find(id) {
            Some(t) => !is_active(&t),
            None => false,
        },
        None => false,
    }
}

// The open file that a label names, or why it cannot be used.
pub(crate) fn open_file(memory: &Memory, process: Pid, label: Label) -> Result<OpenFile, Refusal>
    ensures ok { IfOk result (λ file. (file_named (present_of memory.now) process label ≡ Some (open_of file)) × (first_refusal (file_tests (present_of memory.now) process label) ≡ None)) }
    ensures err { IfErr result (λ refusal. first_refusal (file_tests (present_of memory.now) process label) ≡ Some refusal) }
{
    let Some(number) = file_number(object_at(memory, process, label)) else {
        return Err(Refusal::InvalidHandle);
    };
    if let Some(refusal) = dead_refusal(memory, number) {
        return Err(refusal);
    }
    let Some(file) = memory.files().open_file(number) else {
        unreachable!();
    };
    if is_suspended(memory, &file) {
        return Err(Refusal::TransactionNotActive);
    }
    Ok(file)
}

// The live transaction with a GUID.
pub(crate) fn with_guid(memory: &Memory, guid: &Uuid) -> Option<Transaction>
    requires { IsStandingNow (present_of memory.now) }
    ensures { result ≡ transaction_with (present_of memory.now) guid.now }
{
    let Some(id) = id_of(ObjectKind::Transaction, memory.journal().image(), guid) else {
        return None;
    };
    memory.tm().find_live(id)
}

// The resource manager with a GUID.
pub(crate) fn manager_with_guid(memory: &Memory, guid: &Uuid) -> Option<Id>
    requires { IsStandingNow (present_of memory.now) }
    ensures { result ≡ option_map (λ m. m.id) (manager_with (present_of memory.now) guid.now) }
{
    manager_there(
        memory,
        id_of(ObjectKind::Manager, memory.journal().image(), guid),
    )
}

// Is the enlistment one of the resource manager, and live.
fn is_live_of(memory: &Memory, manager: Id, e: &Enlistment) -> bool
    ensures { result ≡ (same_id e.now.manager manager && is_live_enlistment (present_of memory.now).transactions.items e.now) }
{
    if e.manager != manager {
        return false;
    }
    match memory.tm().find_live(e.transaction) {
        Some(t) => e.is_live(&t),
        None => false,
    }
}

// The enlistment with an Id, if that is of one of the resource manager, which is live.
fn enlistment_there(memory: &Memory, manager: Id, found: Option<Id>) -> Option<Id>
    ensures { result ≡ option_and_then (λ id. live_of (present_of memory.now).transactions manager (enlistment_at (present_of memory.now).transactions.enlistments id)) found }
{
    let e = memory.tm().enlistment(found?)?;
    if is_live_of(memory, manager, e) {
        Some(e.id)
    } else {
        None
    }
}

// The live enlistment of the resource manager with a GUID.
pub(crate) fn enlistment_with_guid(memory: &Memory, manager: Id, guid: &Uuid) -> Option<Id>
    requires { IsStandingNow (present_of memory.now) }
    ensures { (m : OfManagers) → m.id ≡ manager → result ≡ option_map (λ e. e.id) (enlistment_with (present_of memory.now) (Some m) guid.now) }
{
    enlistment_there(
        memory,
        manager,
        id_of(ObjectKind::Enlistment, memory.journal().image(), guid),
    )
}
