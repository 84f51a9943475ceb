// What a transaction changed and set, as it is recorded.
ghost use Rattle.std.specs.Prelude.{◌≡◌, [], true, if◌then◌else◌};
ghost use Rattle.std.specs.List.{list_all};
ghost use Rattle.ktm_event.specs.Spelling.{AreSpellableChanges};
ghost use Rattle.ktm_memory.specs.Memory.{held};
ghost use Rattle.ktm_saving.specs.Owned.{changes_left, changes_placed, changes_owned, settings_left};
ghost use Rattle.ktm_snapshot.specs.Works.{is_of_work};

use ktm_base::Id;
use ktm_course::law_of_pages;
use ktm_memory::{Memory, Written};
use ktm_world::{Change, Setting, Stage};

/// What a transaction has left to commit, shown where it stands.
#[derive(Drop)]
pub(crate) struct Owned<'a> {
    /// What it made, moved and dropped.
    pub(crate) names: &'a [Change],
    /// The files that it wrote.
    pub(crate) files: Written<'a>,
    pub(crate) settings: &'a [Setting],
}

/// What the transaction at this stage has left to commit: nothing once it is decided.
pub(crate) fn left_to_commit(memory: &Memory, id: Id, stage: Stage) -> Owned<'_>
    ensures changes { changes_placed result ≡ changes_left (held memory.now).files.table.own id stage }
    ensures work { list_all is_of_work (changes_owned result) ≡ true }
    ensures spelled { AreSpellableChanges (changes_left (held memory.now).files.table.own id stage) → AreSpellableChanges (changes_owned result) }
    ensures settings { result.settings.now ≡ settings_left memory.now.keys.own id stage }
{
    law_of_pages();
    match stage {
        Stage::Decided => Owned {
            names: &[],
            files: Written::none(),
            settings: &[],
        },
        Stage::Ready | Stage::Held => Owned {
            names: memory.files().names(id),
            files: memory.files().written(id),
            settings: memory.keys().own_settings(id),
        },
    }
}
