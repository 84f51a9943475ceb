// Notifications behind `ok `.
ghost use Rattle.std.specs.Prelude.{◌≡◌};
ghost use Rattle.ktm_reply.specs.Kinds.{kind_name};
ghost use Rattle.ktm_reply.specs.Reading.{behind_kind_at, kind_named};

use ktm_base::Notify;
use ktm_codec::{read_guid, strip_word};
use ktm_world::Reply;

// The kinds that have an enlistment's GUID behind them.
const KINDS: [Notify; 13] = [
    Notify::PrePrepare,
    Notify::Prepare,
    Notify::Commit,
    Notify::Rollback,
    Notify::PrePrepareComplete,
    Notify::PrepareComplete,
    Notify::CommitComplete,
    Notify::RollbackComplete,
    Notify::Recover,
    Notify::RecoverQuery,
    Notify::Indoubt,
    Notify::SinglePhaseCommit,
    Notify::CommitRequest,
];

pub fn kind_name(kind: Notify) -> &'static [u8]
    ensures { result.now ≡ kind_name kind }
{
    match kind {
        Notify::PrePrepare => b"PREPREPARE",
        Notify::Prepare => b"PREPARE",
        Notify::Commit => b"COMMIT",
        Notify::Rollback => b"ROLLBACK",
        Notify::PrePrepareComplete => b"PREPREPARE_COMPLETE",
        Notify::PrepareComplete => b"PREPARE_COMPLETE",
        Notify::CommitComplete => b"COMMIT_COMPLETE",
        Notify::RollbackComplete => b"ROLLBACK_COMPLETE",
        Notify::Recover => b"RECOVER",
        Notify::RecoverQuery => b"RECOVER_QUERY",
        Notify::Indoubt => b"INDOUBT",
        Notify::SinglePhaseCommit => b"SINGLE_PHASE_COMMIT",
        Notify::CommitRequest => b"COMMIT_REQUEST",
        Notify::LastRecover => b"LAST_RECOVER",
    }
}

// The kind with this name, other than the last notification of a recovery.
#[tactic(auto, unfolding(crate::specs::Reading::kind_named))]
pub fn kind_named(text: &[u8]) -> Option<Notify>
    ensures { result ≡ kind_named text.now }
{
    KINDS.iter().copied().find(|kind| kind_name(*kind) == text)
}

// The notification of this kind with its enlistment's GUID.
#[tactic(auto, unfolding(crate::specs::Reading::behind_kind_at))]
pub fn behind_kind(kind: Notify, text: &[u8]) -> Option<Reply>
    ensures { result ≡ behind_kind_at kind text.now }
{
    let Some((enlistment, rest)) = read_guid(strip_word(text, b" ")?) else {
        return None;
    };
    if !rest.is_empty() {
        return None;
    }
    Some(Reply::Notification {
        kind,
        enlistment: Some(enlistment),
    })
}
