// Laws of what undecided transactions own.
ghost use Rattle.ktm_owned.specs.FilesKept.{FilesKeptLaw};
ghost use Rattle.ktm_owned.specs.OwnKeys.{OwnKeysLaw};

use txf_laws::{law_of_forms, law_of_lists};

/// What transactions set of the keys stays as good as what is committed, whatever is called and however much time passes.
pub fn law_of_own_keys()
    ensures { OwnKeysLaw }
{}

/// What undecided transactions own and hold of the files stays lawful.
pub fn law_of_files_kept()
    ensures { FilesKeptLaw }
{
    law_of_forms();
    law_of_lists();
}
