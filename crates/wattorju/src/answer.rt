// What the machine's replies say, by what a call tells. No other reply comes.
ghost use Rattle.std.specs.Prelude.{◌≡◌, IfSome};
ghost use Rattle.ktm_forms.specs.Tells.{IsTold, a_guid, a_notification, a_size, a_transaction, bytes, keys, names, nothing, progress};
ghost use Rattle.ktm_world.specs.declared.reply.Reply.TheVariants.{Contents, Done, Guid, Keys, Names, Size};
ghost use Rattle.ktm_world.specs.KeyCalls.{reply_of_value};
ghost use Rattle.wattorju.specs.Calls.{IfReplied, answer_of, reply_of};
ghost use Rattle.wattorju.specs.Told.{reply_of_information, reply_of_notification, reply_of_state};

use crate::told::{CommitState, Notification, TransactionInformation};
use crate::{CompletionFault, Failure};
use ktm_base::{Bytes, NoMemory, Refusal, TextList};
use ktm_world::Reply;
use uuid::Uuid;

// The reply; or that it is out of memory, or that the machine was not asked.
fn told(answer: Option<Result<Reply, NoMemory>>) -> Result<Reply, Failure>
    ensures { answer_of result (λ reply. reply) ≡ answer }
{
    match answer {
        Some(Ok(reply)) => Ok(reply),
        Some(Err(NoMemory)) => Err(Failure::NoMemory),
        None => Err(Failure::Worn),
    }
}

// The reply of a call that takes no memory, or that the machine was not asked.
fn replied(answer: Option<Reply>) -> Result<Reply, CompletionFault>
    ensures { reply_of result (λ reply. reply) ≡ answer }
{
    match answer {
        Some(reply) => Ok(reply),
        None => Err(CompletionFault::Worn),
    }
}

/// That it is done.
pub fn to_done(answer: Option<Result<Reply, NoMemory>>) -> Result<(), Failure>
    requires { IfReplied answer (λ reply. IsTold reply nothing) }
    ensures { answer_of result (λ done. Done) ≡ answer }
{
    match told(answer)? {
        Reply::Done => Ok(()),
        Reply::Refused(refusal) => Err(Failure::Refused(refusal)),
        _ => unreachable!(),
    }
}

/// That a call that takes no memory is done, or that time has passed.
pub fn to_ended(answer: Option<Reply>) -> Result<(), CompletionFault>
    requires { IfSome answer (λ reply. IsTold reply nothing) }
    ensures { reply_of result (λ done. Done) ≡ answer }
{
    match replied(answer)? {
        Reply::Done => Ok(()),
        Reply::Refused(refusal) => Err(CompletionFault::Refused(refusal)),
        _ => unreachable!(),
    }
}

/// The GUID of what was made.
pub fn to_guid(answer: Option<Result<Reply, NoMemory>>) -> Result<Uuid, Failure>
    requires { IfReplied answer (λ reply. IsTold reply a_guid) }
    ensures { answer_of result Guid ≡ answer }
{
    match told(answer)? {
        Reply::Guid(guid) => Ok(guid),
        Reply::Refused(refusal) => Err(Failure::Refused(refusal)),
        _ => unreachable!(),
    }
}

/// That a transaction has committed, or that it waits.
pub fn to_progress(answer: Option<Reply>) -> Result<CommitState, CompletionFault>
    requires { IfSome answer (λ reply. IsTold reply progress) }
    ensures { reply_of result reply_of_state ≡ answer }
{
    match replied(answer)? {
        Reply::Committed => Ok(CommitState::Committed),
        Reply::Pending => Ok(CommitState::Pending),
        Reply::Refused(refusal) => Err(CompletionFault::Refused(refusal)),
        _ => unreachable!(),
    }
}

/// How a transaction stands.
pub fn to_information(answer: Option<Reply>) -> Result<TransactionInformation, CompletionFault>
    requires { IfSome answer (λ reply. IsTold reply a_transaction) }
    ensures { reply_of result reply_of_information ≡ answer }
{
    match replied(answer)? {
        Reply::Information {
            transaction,
            state,
            outcome,
        } => Ok(TransactionInformation {
            transaction,
            state,
            outcome,
        }),
        Reply::Refused(refusal) => Err(CompletionFault::Refused(refusal)),
        _ => unreachable!(),
    }
}

/// Bytes.
pub fn to_bytes(answer: Option<Result<Reply, NoMemory>>) -> Result<Bytes, Failure>
    requires { IfReplied answer (λ reply. IsTold reply bytes) }
    ensures { answer_of result Contents ≡ answer }
{
    match told(answer)? {
        Reply::Contents(bytes) => Ok(bytes),
        Reply::Refused(refusal) => Err(Failure::Refused(refusal)),
        _ => unreachable!(),
    }
}

/// How many bytes a file has.
pub fn to_size(answer: Option<Result<Reply, NoMemory>>) -> Result<u64, Failure>
    requires { IfReplied answer (λ reply. IsTold reply a_size) }
    ensures { answer_of result Size ≡ answer }
{
    match told(answer)? {
        Reply::Size(size) => Ok(size),
        Reply::Refused(refusal) => Err(Failure::Refused(refusal)),
        _ => unreachable!(),
    }
}

/// Names in a directory.
pub fn to_names(answer: Option<Result<Reply, NoMemory>>) -> Result<TextList, Failure>
    requires { IfReplied answer (λ reply. IsTold reply names) }
    ensures { answer_of result Names ≡ answer }
{
    match told(answer)? {
        Reply::Names(names) => Ok(names),
        Reply::Refused(refusal) => Err(Failure::Refused(refusal)),
        _ => unreachable!(),
    }
}

/// Keys.
pub fn to_keys(answer: Option<Result<Reply, NoMemory>>) -> Result<TextList, Failure>
    requires { IfReplied answer (λ reply. IsTold reply keys) }
    ensures { answer_of result Keys ≡ answer }
{
    match told(answer)? {
        Reply::Keys(keys) => Ok(keys),
        Reply::Refused(refusal) => Err(Failure::Refused(refusal)),
        _ => unreachable!(),
    }
}

/// The value of a key, or that it has none.
pub fn to_value(answer: Option<Result<Reply, NoMemory>>) -> Result<Option<Bytes>, Failure>
    requires { IfReplied answer (λ reply. IsTold reply bytes) }
    ensures { answer_of result reply_of_value ≡ answer }
{
    match told(answer)? {
        Reply::Contents(value) => Ok(Some(value)),
        Reply::Refused(Refusal::NotFound) => Ok(None),
        Reply::Refused(refusal) => Err(Failure::Refused(refusal)),
        _ => unreachable!(),
    }
}

/// A notification, or that none waits.
pub fn to_notification(answer: Option<Reply>) -> Result<Option<Notification>, CompletionFault>
    requires { IfSome answer (λ reply. IsTold reply a_notification) }
    ensures { reply_of result reply_of_notification ≡ answer }
{
    match replied(answer)? {
        Reply::Notification { kind, enlistment } => Ok(Some(Notification { kind, enlistment })),
        Reply::Refused(Refusal::WaitTimeout) => Ok(None),
        Reply::Refused(refusal) => Err(CompletionFault::Refused(refusal)),
        _ => unreachable!(),
    }
}
