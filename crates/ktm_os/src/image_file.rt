// The file of a block.
ghost use Rattle.std.specs.Prelude.{◌≡◌, ℕ, ◌+◌, ◌≤◌, Bool, true, Option, List, [], ◌∷◌, length, slice_range, IfOk, OnOk, OnErr, IfSome};
ghost use Rattle.ktm_base.specs.Told.{Goes};
ghost use Rattle.ktm_base.specs.Bytes.{written, SameOutside, GrewTo, GrewTowards};
ghost use Rattle.ktm_os.specs.Count.{IsOneMore};

use std::io;

/// What a block asks of its file. Lengths and offsets are in bytes.
pub trait ImageFile {
    /// Its bytes, where it tells them.
    ghost contents: { Self → Option (List ℕ) };

    /// How often it failed, where it tells.
    ghost failures: { Self → Option ℕ };

    /// Were its bytes and its length synced since they changed. A file that cannot tell says so always.
    ghost is_synced: { Self → Bool };

    /// Was its name synced. A file that cannot tell says so always.
    ghost is_name_synced: { Self → Bool };

    fn len(&mut self) -> io::Result<u64>
        ensures value { IfOk result (λ n. IfSome (contents self.old) (λ bytes. n ≡ length bytes)) }
        ensures same { contents self.new ≡ contents self.old }
        ensures synced { is_synced self.new ≡ is_synced self.old }
        ensures name { is_name_synced self.new ≡ is_name_synced self.old }
        ensures answered { OnOk result (failures self.new ≡ failures self.old) }
        ensures failed { OnErr result (Goes IsOneMore (failures self.old) (failures self.new)) };

    /// Fills the buffer.
    fn read(&mut self, at: u64, buf: &mut [u8]) -> io::Result<()>
        requires { IfSome (contents self.old) (λ bytes. at + length buf.old ≤ length bytes) }
        ensures value { OnOk result (IfSome (contents self.old) (λ bytes. buf.new ≡ slice_range bytes at (at + length buf.old))) }
        ensures same { contents self.new ≡ contents self.old }
        ensures synced { is_synced self.new ≡ is_synced self.old }
        ensures name { is_name_synced self.new ≡ is_name_synced self.old }
        ensures answered { OnOk result (failures self.new ≡ failures self.old) }
        ensures failed { OnErr result (Goes IsOneMore (failures self.old) (failures self.new)) };

    /// Writes over what is there. After a failure the range may hold anything.
    fn write(&mut self, at: u64, bytes: &[u8]) -> io::Result<()>
        requires { IfSome (contents self.old) (λ old. at + length bytes.now ≤ length old) }
        ensures ok { OnOk result (Goes (λ old new. new ≡ written old at bytes.now) (contents self.old) (contents self.new)) }
        ensures err { OnErr result (Goes (SameOutside ((at, length bytes.now) ∷ [])) (contents self.old) (contents self.new)) }
        ensures name { is_name_synced self.new ≡ is_name_synced self.old }
        ensures answered { OnOk result (failures self.new ≡ failures self.old) }
        ensures failed { OnErr result (Goes IsOneMore (failures self.old) (failures self.new)) };

    /// Makes it this long, which is no shorter than it was. After a failure it may have any length between.
    fn grow(&mut self, len: u64) -> io::Result<()>
        requires { IfSome (contents self.old) (λ bytes. length bytes ≤ len) }
        ensures ok { OnOk result (Goes (GrewTo len) (contents self.old) (contents self.new)) }
        ensures err { OnErr result (Goes (GrewTowards len) (contents self.old) (contents self.new)) }
        ensures name { is_name_synced self.new ≡ is_name_synced self.old }
        ensures answered { OnOk result (failures self.new ≡ failures self.old) }
        ensures failed { OnErr result (Goes IsOneMore (failures self.old) (failures self.new)) };

    /// Asks the system to keep its bytes and its length.
    fn sync(&mut self) -> io::Result<()>
        ensures synced { OnOk result (is_synced self.new ≡ true) }
        ensures same { contents self.new ≡ contents self.old }
        ensures name { is_name_synced self.new ≡ is_name_synced self.old }
        ensures answered { OnOk result (failures self.new ≡ failures self.old) }
        ensures failed { OnErr result (Goes IsOneMore (failures self.old) (failures self.new)) };

    /// Asks the system to keep its name, which may have been made when it was opened.
    fn sync_folder(&mut self) -> io::Result<()>
        ensures name { OnOk result (is_name_synced self.new ≡ true) }
        ensures same { contents self.new ≡ contents self.old }
        ensures synced { is_synced self.new ≡ is_synced self.old }
        ensures answered { OnOk result (failures self.new ≡ failures self.old) }
        ensures failed { OnErr result (Goes IsOneMore (failures self.old) (failures self.new)) };
}
