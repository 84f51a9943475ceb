// What is known of the file of a block.
ghost use Rattle.std.specs.Prelude.{◌≡◌, ◌≤◌, ◌+◌, true, false, [], ◌∷◌, length, slice_range, IfOk, OnOk, OnErr, IsSome, IfSome};
ghost use Rattle.ktm_base.specs.Bytes.{written, SameOutside, GrewTo, GrewTowards};
ghost use Rattle.ktm_base.specs.Told.{Goes};
ghost use Rattle.ktm_os.specs.Count.{IsOneMore};
ghost use Rattle.ktm_os.specs.ImageFile.{IsLengthOf};

use crate::image_file::ImageFile;
use std::io;

/// The file of a block, which nobody else changes.
#[derive(Drop)]
pub struct Image<F: ImageFile> {
    pub file: F,
    // its length, once it was asked for
    pub length: Option<u64>,
    // whether anything of it waits for a sync
    pub waits: bool,
    pub is_name_synced: bool,
    ghost length_is_known: { IsLengthOf length (F.contents file) },
    ghost is_kept: { waits ≡ false → (F.is_synced file ≡ true) × (F.is_name_synced file ≡ true) },
    ghost name_is_kept: { is_name_synced ≡ true → F.is_name_synced file ≡ true },
}

impl<F: ImageFile> Image<F> {
    /// With a file of which nothing is known: what is found in it may wait for a sync.
    pub fn new(file: F) -> Image<F>
        ensures file { result.file ≡ file }
        ensures waits { result.waits ≡ true }
    {
        Image {
            file,
            length: None,
            waits: true,
            is_name_synced: false,
        }
    }

    /// Its length, for which the file is called once.
    pub fn len(&mut self) -> io::Result<u64>
        ensures value { IfOk result (λ n. IfSome (F.contents self.old.file) (λ bytes. n ≡ length bytes)) }
        ensures once { IsSome self.old.length → self.new ≡ self.old }
        ensures known { OnOk result (IsSome self.new.length) }
        ensures same { F.contents self.new.file ≡ F.contents self.old.file }
        ensures waits { self.new.waits ≡ self.old.waits }
        ensures name { self.new.is_name_synced ≡ self.old.is_name_synced }
        ensures answered { OnOk result (F.failures self.new.file ≡ F.failures self.old.file) }
        ensures failed { OnErr result (Goes IsOneMore (F.failures self.old.file) (F.failures self.new.file)) }
    {
        if let Some(length) = self.length {
            return Ok(length);
        }
        let length = self.file.len()?;
        self.length = Some(length);
        Ok(length)
    }

    // A range that passes the end is refused.
    fn reach(&mut self, at: u64, len: usize) -> io::Result<()>
        ensures known { OnOk result (IsSome self.new.length) }
        ensures within { OnOk result (IfSome (F.contents self.old.file) (λ bytes. at + len ≤ length bytes)) }
        ensures same { F.contents self.new.file ≡ F.contents self.old.file }
        ensures waits { self.new.waits ≡ self.old.waits }
        ensures name { self.new.is_name_synced ≡ self.old.is_name_synced }
        ensures answered { OnOk result (F.failures self.new.file ≡ F.failures self.old.file) }
        ensures failed { OnErr result (IfSome (F.contents self.old.file) (λ bytes. at + len ≤ length bytes
            → Goes IsOneMore (F.failures self.old.file) (F.failures self.new.file))) }
    {
        let length = self.len()?;
        match at.checked_add(len as u64) {
            Some(end) if end <= length => Ok(()),
            _ => Err(io::ErrorKind::UnexpectedEof.into()),
        }
    }

    pub fn read_at(&mut self, at: u64, buf: &mut [u8]) -> io::Result<()>
        requires { IfSome (F.contents self.old.file) (λ bytes. at + length buf.old ≤ length bytes) }
        ensures value { OnOk result (IfSome (F.contents self.old.file) (λ bytes. buf.new ≡ slice_range bytes at (at + length buf.old))) }
        ensures same { F.contents self.new.file ≡ F.contents self.old.file }
        ensures waits { self.new.waits ≡ self.old.waits }
        ensures name { self.new.is_name_synced ≡ self.old.is_name_synced }
        ensures known { OnOk result (IsSome self.new.length) }
        ensures answered { OnOk result (F.failures self.new.file ≡ F.failures self.old.file) }
        ensures failed { OnErr result (IfSome (F.contents self.old.file) (λ _. Goes IsOneMore (F.failures self.old.file) (F.failures self.new.file))) }
    {
        self.reach(at, buf.len())?;
        self.file.read(at, buf)
    }

    pub fn write_at(&mut self, at: u64, bytes: &[u8]) -> io::Result<()>
        requires { IfSome (F.contents self.old.file) (λ old. at + length bytes.now ≤ length old) }
        ensures ok { OnOk result (Goes (λ old new. new ≡ written old at bytes.now) (F.contents self.old.file) (F.contents self.new.file)) }
        ensures err { OnErr result (Goes (SameOutside ((at, length bytes.now) ∷ [])) (F.contents self.old.file) (F.contents self.new.file)) }
        ensures waits { self.new.waits ≡ true }
        ensures name { self.new.is_name_synced ≡ self.old.is_name_synced }
        ensures known { OnOk result (IsSome self.new.length) }
        ensures answered { OnOk result (F.failures self.new.file ≡ F.failures self.old.file) }
        ensures failed { OnErr result (IfSome (F.contents self.old.file) (λ _. Goes IsOneMore (F.failures self.old.file) (F.failures self.new.file))) }
    {
        self.waits = true;
        self.reach(at, bytes.len())?;
        self.file.write(at, bytes)
    }

    /// Where nothing waits the file is not called.
    pub fn flush(&mut self) -> io::Result<()>
        ensures same { F.contents self.new.file ≡ F.contents self.old.file }
        ensures kept { OnOk result ((F.is_synced self.new.file ≡ true) × (F.is_name_synced self.new.file ≡ true)) }
        ensures ok { OnOk result (self.new.waits ≡ false) }
        ensures err { OnErr result (self.new.waits ≡ self.old.waits) }
        ensures idle { self.old.waits ≡ false → self.new ≡ self.old }
        ensures answered { OnOk result (F.failures self.new.file ≡ F.failures self.old.file) }
        ensures failed { OnErr result (Goes IsOneMore (F.failures self.old.file) (F.failures self.new.file)) }
    {
        if !self.waits {
            return Ok(());
        }
        self.file.sync()?;
        if !self.is_name_synced {
            self.file.sync_folder()?;
            self.is_name_synced = true;
        }
        self.waits = false;
        Ok(())
    }

    pub fn ensure(&mut self, len: u64) -> io::Result<()>
        ensures ok { OnOk result (Goes (GrewTo len) (F.contents self.old.file) (F.contents self.new.file)) }
        ensures err { OnErr result (Goes (GrewTowards len) (F.contents self.old.file) (F.contents self.new.file)) }
        ensures waits { self.new.waits ≡ true }
        ensures known { OnOk result (IsSome self.new.length) }
        ensures answered { OnOk result (F.failures self.new.file ≡ F.failures self.old.file) }
        ensures failed { OnErr result (Goes IsOneMore (F.failures self.old.file) (F.failures self.new.file)) }
    {
        self.waits = true;
        if self.len()? < len {
            self.length = None;
            self.file.grow(len)?;
            self.length = Some(len);
        }
        Ok(())
    }
}
