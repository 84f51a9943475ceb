// What ends of the files.
ghost use Rattle.std.specs.Prelude.{◌≡◌, ◌<◌, ◌≤◌, filter};
ghost use Rattle.ktm_world.specs.HandleCalls.{closed_file};
ghost use Rattle.txf_opens.specs.OpensState.{is_not_of};
ghost use Rattle.txf_volume.specs.Held.{files_of};

use crate::files::Files;
use ktm_base::Id;
use ktm_counted::Steps;
use std::marker::Brand;
use std::sync::ledger::{Blank, Ledger};
use txf_opens::Opens;

// Closes the files that are open in the transaction, where the blank is for the ledger that counts them.
fn close_counted<L: Ledger>(opens: &mut Opens, transaction: Id, blank: Blank)
    requires name { blank.name ≡ L.name }
    requires parts { blank.parts ≡ L.parts }
    requires some { 0 < blank.parts }
    ensures opens { opens.new.opens ≡ filter (is_not_of transaction) opens.old.opens }
    ensures last { opens.new.last ≡ opens.old.last }
    ensures spare { opens.old.spare ≤ opens.new.spare }
{
    let mut steps = Steps::<L>::begin(blank);
    opens.end_group(transaction, &mut steps);
}

/// Closes the files that are open in the transaction, and no others. Nobody asks how many they are.
pub(crate) fn close_all(opens: &mut Opens, transaction: Id)
    ensures opens { opens.new.opens ≡ filter (is_not_of transaction) opens.old.opens }
    ensures last { opens.new.last ≡ opens.old.last }
    ensures spare { opens.old.spare ≤ opens.new.spare }
{
    close_counted::<Brand>(opens, transaction, Blank::new(1));
}

impl Files {
    /// Closes the file with this number, if it is open.
    pub fn close(&mut self, number: u32)
        ensures { files_of self.new ≡ record (files_of self.old) { table = closed_file (files_of self.old).table number } }
    {
        self.opens.close(number);
    }
}
