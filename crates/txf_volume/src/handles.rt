// The open files, by their numbers.
ghost use Rattle.std.specs.Prelude.{◌≡◌};
ghost use Rattle.std.specs.Option.{option_map};
ghost use Rattle.ktm_world.specs.Labels.{is_dead, open_file_at};
ghost use Rattle.txf_opens.specs.Acts.{open_of};
ghost use Rattle.txf_volume.specs.Held.{files_of};

use crate::files::Files;
use txf_opens::OpenFile;

impl Files {
    /// The open file with this number.
    pub fn open_file(&self, number: u32) -> Option<OpenFile>
        ensures { option_map open_of result ≡ open_file_at (files_of self.now).table.opens number }
    {
        self.opens.get(number)
    }

    /// Is a handle of the file with this number dead: the outcome of its transaction is known, or it is a plain one and the
    /// file was deleted.
    pub fn is_dead(&self, number: u32) -> bool
        ensures { result ≡ is_dead (files_of self.now) number }
    {
        match self.opens.get(number) {
            Some(file) => file.transaction.is_none() && !self.tree.is_file(file.node),
            None => true,
        }
    }
}
