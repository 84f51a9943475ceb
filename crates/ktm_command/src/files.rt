// The files that the words name.
ghost use Rattle.std.specs.Prelude.{◌≡◌, IfOk, map, string_bytes};
ghost use Rattle.ktm_cut.specs.Cut.{block_of, status_of};
ghost use Rattle.ktm_disk.specs.Status.{status_at_start};
ghost use Rattle.ktm_os.specs.Path.{path_of_block, path_of_source};
ghost use Rattle.ktm_run.specs.Form.{form_of};
ghost use Rattle.ktm_command.specs.Command.{access_of, path_at};

use ktm_base::NoMemory;
use ktm_cut::CutDisk;
use ktm_os::{FileBlock, FileSource, LateFile};
use ktm_run::{Form, form_of};
use std::alloc::Global;
use std::fs::File;
use std::rt::Files;

/// The path that the word at a place names.
fn path(alloc: Global, words: &[String], place: usize) -> Result<String, NoMemory>
    ensures { IfOk result (λ path. string_bytes path ≡ path_at words.now place) }
{
    match words.get(place) {
        Some(word) => Ok(String::from_str(alloc, word.as_str())?),
        None => Ok(String::new(alloc)),
    }
}

/// The script, which is the file of the third word. It is opened by the form that reads it alone, since no other one asks
/// anything of it.
pub fn script<R: Files<File = File> + Drop>(
    alloc: Global,
    rt: R,
    words: &[String],
) -> Result<FileSource<R>, NoMemory>
    ensures { IfOk result (λ source. path_of_source source ≡ path_at words.now 2) }
{
    Ok(FileSource::new(rt, path(alloc, words, 2)?))
}

// The file of the image, by what the words ask for: one that is only read is opened for that alone.
fn block<R: Files<File = File> + Drop>(
    rt: R,
    path: String,
    form: Option<Form>,
) -> FileBlock<LateFile<R>>
    ensures path { path_of_block result ≡ string_bytes path }
    ensures access { result.image.file.access ≡ access_of form }
{
    match form {
        Some(Form::Dump) => FileBlock::reading(rt, path),
        _ => FileBlock::new(rt, path),
    }
}

/// The disk of the image, which is the file of the second word.
pub fn disk<R: Files<File = File> + Drop>(
    alloc: Global,
    rt: R,
    words: &[String],
) -> Result<CutDisk<FileBlock<LateFile<R>>>, NoMemory>
    ensures path { IfOk result (λ disk. path_of_block (block_of disk) ≡ path_at words.now 1) }
    ensures access { IfOk result (λ disk. (block_of disk).image.file.access ≡ access_of (form_of (map string_bytes words.now))) }
    ensures status { IfOk result (λ disk. status_of disk ≡ status_at_start) }
{
    CutDisk::new(alloc, block(rt, path(alloc, words, 1)?, form_of(words)))
}
