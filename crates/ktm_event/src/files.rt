// The files that a transaction wrote, as the changes that give them their bytes, of which the pages are named. They are
// written from where they stand.
ghost use Rattle.std.specs.Prelude.{◌≡◌, ◌+◌, ◌<◌, ◌≤◌, ◌^◌, All, length, sum_by, OnErr, OnOk, vec_len, vec_capacity};
ghost use Rattle.std.specs.List.{flat_map};
ghost use Rattle.ktm_base.specs.Grammar.{IsListOf, IsRow};
ghost use Rattle.ktm_codec.specs.Spans.{Adds};
ghost use Rattle.ktm_world.specs.EventGrammar.{IsChangeOf};
ghost use Rattle.ktm_world.specs.Sizes.{change_size};
ghost use Rattle.ktm_event.specs.Spelling.{AreSpellableChanges, IsRecordableChange, IsSpellableChange};
ghost use Rattle.ktm_event.specs.Work.{changes_of, changes_of_file, final_file};

use crate::change::{put_cut, put_paged, put_row};
use crate::{FilePages, WrittenFiles};
use ktm_base::NoMemory;
use ktm_codec::put_u32;
use ktm_world::Change;

// A cut, and a put where there are bytes.
fn count_of_file(file: &FilePages<'_>) -> usize
    ensures { result ≡ length (changes_of_file (final_file file.now)) }
{
    if file.len == 0 { 1 } else { 2 }
}

// How many changes the files take.
fn count_of_changes<F: WrittenFiles>(files: &F) -> usize
    requires { length (flat_map changes_of_file (F.files files.now)) < 2 ^ 32 }
    ensures { result ≡ length (flat_map changes_of_file (F.files files.now)) }
{
    let mut count = 0usize;
    let mut next = files.first();
    while let Some(file) = next {
        next = files.behind(file.file);
        count += count_of_file(&file);
    }
    count
}

// Each function below writes at the end, and takes no memory where there is room for what it writes.

fn put_file(out: &mut Vec<u8>, file: &FilePages<'_>) -> Result<(), NoMemory>
    requires { All IsSpellableChange (changes_of_file (final_file file.now)) }
    ensures adds { OnOk result (Adds (IsRow IsChangeOf (changes_of_file (final_file file.now))) out.old.items out.new.items) }
    ensures len { OnOk result (vec_len out.new ≡ vec_len out.old + sum_by change_size (changes_of_file (final_file file.now))) }
    ensures room { vec_capacity out.old ≤ vec_capacity out.new }
    ensures full { OnErr result (vec_capacity out.old < vec_len out.old + sum_by change_size (changes_of_file (final_file file.now))) }
{
    put_cut(out, file.file, 0, &[])?;
    if file.len != 0 {
        put_paged(out, file.file, 0, file.len as u32, file.pages)?;
    }
    Ok(())
}

fn put_files<F: WrittenFiles>(out: &mut Vec<u8>, files: &F) -> Result<(), NoMemory>
    requires { All IsSpellableChange (flat_map changes_of_file (F.files files.now)) }
    ensures adds { OnOk result (Adds (IsRow IsChangeOf (flat_map changes_of_file (F.files files.now))) out.old.items out.new.items) }
    ensures len { OnOk result (vec_len out.new ≡ vec_len out.old + sum_by change_size (flat_map changes_of_file (F.files files.now))) }
    ensures room { vec_capacity out.old ≤ vec_capacity out.new }
    ensures full { OnErr result (vec_capacity out.old < vec_len out.old + sum_by change_size (flat_map changes_of_file (F.files files.now))) }
{
    let mut next = files.first();
    while let Some(file) = next {
        next = files.behind(file.file);
        put_file(out, &file)?;
    }
    Ok(())
}

// The changes of names, and then those of the files.
pub(crate) fn put_names_and_files<F: WrittenFiles>(
    out: &mut Vec<u8>,
    names: &[Change],
    files: &F,
) -> Result<(), NoMemory>
    requires spellable { AreSpellableChanges (changes_of names.now (F.files files.now)) }
    requires recordable { All IsRecordableChange names.now }
    ensures adds { OnOk result (Adds (IsListOf IsChangeOf (changes_of names.now (F.files files.now))) out.old.items out.new.items) }
    ensures len { OnOk result (vec_len out.new ≡ vec_len out.old + 4 + sum_by change_size (changes_of names.now (F.files files.now))) }
    ensures room { vec_capacity out.old ≤ vec_capacity out.new }
    ensures full { OnErr result (vec_capacity out.old < vec_len out.old + 4 + sum_by change_size (changes_of names.now (F.files files.now))) }
{
    let count = names.len() + count_of_changes(files);
    out.reserve(4)?;
    put_u32(out, count as u32);
    put_row(out, names)?;
    put_files(out, files)
}
