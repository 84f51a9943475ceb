// A file that is opened at its first use.
ghost use Rattle.std.specs.Prelude.{◌≡◌, ◌<ℤ◌, pos, None, Some, IfOk, OnOk, OnErr, IsSome, true};
ghost use Rattle.std.specs.Option.{ForSome};
ghost use Rattle.std.specs.Fd.{file_raw_fd};
ghost use Rattle.ktm_os.specs.File.{folder_of};

use crate::access::Access;
use crate::image_file::ImageFile;
use std::fs::{File, OpenOptions};
use std::io;
use std::os::fd::AsRawFd;
use std::os::unix::fs::FileExt;
use std::path::Path;
use std::rt::Files;

/// A file by its path, which is opened at its first use. Where that fails the next use tries again.
#[derive(Drop)]
pub struct LateFile<R> {
    rt: R,
    path: String,
    access: Access,
    file: Option<File>,
    ghost apart: { ForSome file (λ f. pos 2 <ℤ file_raw_fd f) },
}

impl<R: Files<File = File>> LateFile<R> {
    ghost use Rattle.ktm_os.specs.LateFile.{IsSameFile};

    pub(crate) fn new(rt: R, path: String, access: Access) -> LateFile<R>
        ensures rt { result.rt ≡ rt }
        ensures path { result.path ≡ path }
        ensures access { result.access ≡ access }
        ensures not_open { result.file ≡ None }
    {
        LateFile {
            rt,
            path,
            access,
            file: None,
        }
    }

    /// Opens it, where it is not open.
    pub(crate) fn open(&mut self) -> io::Result<()>
        ensures opened { OnOk result (IsSome self.new.file) }
        ensures failed { OnErr result (self.new ≡ self.old) }
        ensures same { IsSameFile self.old self.new }
    {
        if self.file.is_none() {
            self.file = Some(open(&self.rt, self.access, self.path.as_str())?);
        }
        Ok(())
    }

    /// The open file.
    pub(crate) fn opened(&self) -> &File
        requires { IsSome self.now.file }
        ensures { self.now.file ≡ Some result.now }
    {
        self.file.as_ref().unwrap()
    }
}

/// It tells nothing, since no contract can say what a file holds or the system keeps.
impl<R: Files<File = File>> ImageFile for LateFile<R> {
    ghost use Rattle.ktm_os.specs.LateFile.{IsSameFile};

    ghost contents = { λ _. None };

    ghost failures = { λ _. None };

    ghost is_synced = { λ _. true };

    ghost is_name_synced = { λ _. true };

    fn len(&mut self) -> io::Result<u64>
        ensures same { IsSameFile self.old self.new }
    {
        self.open()?;
        Ok(self.opened().metadata()?.len())
    }

    fn read(&mut self, at: u64, buf: &mut [u8]) -> io::Result<()>
        ensures same { IsSameFile self.old self.new }
    {
        self.open()?;
        self.opened().read_exact_at(buf, at)
    }

    fn write(&mut self, at: u64, bytes: &[u8]) -> io::Result<()>
        ensures same { IsSameFile self.old self.new }
    {
        self.open()?;
        self.opened().write_all_at(bytes, at)
    }

    fn grow(&mut self, len: u64) -> io::Result<()>
        ensures same { IsSameFile self.old self.new }
    {
        self.open()?;
        self.opened().set_len(len)
    }

    fn sync(&mut self) -> io::Result<()>
        ensures same { IsSameFile self.old self.new }
    {
        self.open()?;
        self.opened().sync_data()
    }

    fn sync_folder(&mut self) -> io::Result<()>
        ensures same { self.new ≡ self.old }
    {
        open(&self.rt, Access::Read, folder_of(self.path.as_str()))?.sync_all()
    }
}

/// Opens a file for an access, and locks one that is to be changed: until it is closed nobody else can open it so. It fails
/// where another program has it locked, and where the file system has no locks.
fn open<R: Files<File = File>>(rt: &R, access: Access, path: &str) -> io::Result<File>
    ensures { IfOk result (λ file. pos 2 <ℤ file_raw_fd file) }
{
    let file = open_apart(rt, &access.options(), path)?;
    match access {
        Access::Read => {}
        Access::Change => file.try_lock()?,
    }
    Ok(file)
}

/// Opens a file apart from standard input, output and error: where one of these is closed, the system gives its number
/// to the next file that is opened, and what is printed would come into that file.
fn open_apart<R: Files<File = File>>(rt: &R, how: &OpenOptions, path: &str) -> io::Result<File>
    ensures { IfOk result (λ file. pos 2 <ℤ file_raw_fd file) }
{
    let file = how.open(rt, path)?;
    if file.as_raw_fd() > 2 {
        return Ok(file);
    }
    let copy = file.try_clone()?;
    if copy.as_raw_fd() > 2 {
        return Ok(copy);
    }
    Err(io::ErrorKind::Unsupported.into())
}

/// The folder of a file. It is the current one where the path is a name alone.
fn folder_of(path: &str) -> &str
    ensures { result.now ≡ folder_of path.now }
{
    match Path::new(path).parent() {
        Some(folder) if !folder.as_str().is_empty() => folder.as_str(),
        _ => ".",
    }
}
