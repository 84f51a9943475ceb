// FindFiles, plain or in a transaction.
ghost use Rattle.std.specs.Prelude.{◌≡◌, ℕ, List, IfOk, MatchOption, None, Some, if◌then◌else◌};
ghost use Rattle.ktm_base.specs.declared.refusal.Refusal.TheVariants.{FileNotFound};
ghost use Rattle.ktm_world.specs.declared.reply.Reply.TheVariants.{Names, Refused};
ghost use Rattle.ktm_world.specs.FileOutcome.{FileRoom, answering};
ghost use Rattle.ktm_world.specs.Paths.{pattern_of};
ghost use Rattle.txf_calls.specs.Calls.{file_outcome};
ghost use Rattle.txf_calls.specs.Steps.{is_no_name, search_of};
ghost use Rattle.txf_calls.specs.declared.call.FileCall.TheVariants.{Find};
ghost use Rattle.ktm_world.specs.FileCalls.{searched_directory};
ghost use Rattle.ktm_world.specs.Files.{tree_seen};

use crate::along::directory_at;
use crate::call::Room;
use crate::caller::Caller;
use crate::plan::Plan;
use crate::volume::Volume;
use ktm_base::{Id, NoMemory, Refusal, Text, TextList};
use ktm_names::{PathFault, Pattern};
use ktm_world::{Reply, law_of_paths};
use std::alloc::Global;

// The pattern that a text is, if it is one.
fn pattern_of(alloc: Global, text: &Text) -> Result<Option<Pattern>, NoMemory>
    ensures { IfOk result (λ pattern. MatchOption pattern (pattern_of text.now ≡ None) (λ pattern. pattern_of text.now ≡ Some (search_of pattern))) }
{
    law_of_paths();
    match Pattern::read(alloc, text.as_slice()) {
        Ok(pattern) => Ok(Some(pattern)),
        Err(PathFault::NotAPath) => Ok(None),
        Err(PathFault::NoMemory) => Err(NoMemory),
    }
}

// The directory that a pattern looks at, if it is there.
fn searched<V: Volume>(volume: &V, who: Option<Id>, pattern: &Pattern) -> Option<u64>
    ensures { result ≡ searched_directory (tree_seen (V.files volume.now) who) (Some (search_of pattern.now)) }
{
    directory_at(&Caller { volume, who }, pattern.directory())
}

// Are there no names.
fn is_none(names: &TextList) -> bool
    ensures { result ≡ is_no_name names.now }
{
    names.is_empty()
}

// What the names that were found come to.
fn listing(names: TextList) -> Plan
    ensures { result ≡ (if is_no_name names then answering (Refused FileNotFound) else answering (Names names)) }
{
    if is_none(&names) {
        return Plan::refused(Refusal::FileNotFound);
    }
    Plan::answering(Reply::Names(names))
}

// What a search comes to, whose text is this pattern or none.
fn find_pattern<V: Volume>(
    alloc: Global,
    volume: &V,
    who: Option<Id>,
    pattern: &Option<Pattern>,
) -> Result<Plan, NoMemory>
    ensures { (room : FileRoom) (text : List ℕ) → MatchOption pattern.now (pattern_of text ≡ None) (λ pattern. pattern_of text ≡ Some (search_of pattern)) → IfOk result (λ plan. plan ≡ file_outcome (V.files volume.now) room who (Find text)) }
{
    let Some(pattern) = pattern else {
        return Ok(Plan::refused(Refusal::InvalidName));
    };
    let Some(directory) = searched(volume, who, pattern) else {
        return Ok(Plan::refused(Refusal::PathNotFound));
    };
    let names = volume.found(alloc, who, directory, pattern)?;
    Ok(listing(names))
}

/// Lists the names that a pattern matches.
pub(crate) fn find_files<V: Volume>(
    alloc: Global,
    volume: &V,
    who: Option<Id>,
    text: &Text,
    room: &Room,
) -> Result<Plan, NoMemory>
    ensures { IfOk result (λ plan. plan ≡ file_outcome (V.files volume.now) room.now who (Find text.now)) }
{
    let pattern = pattern_of(alloc, text)?;
    find_pattern(alloc, volume, who, &pattern)
}
