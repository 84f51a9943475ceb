// Laws of the definitions, each the contract of a function that does nothing.
ghost use Rattle.std.specs.Prelude.{List, ℕ};
ghost use Rattle.ktm_base.specs.Disk.{DiskState, MayLeave};
ghost use Rattle.ktm_world.specs.Groups.{Group};
ghost use Rattle.ktm_journal.specs.Image.{IsImage, JournalAt, JournalState};
ghost use Rattle.ktm_journal.specs.Pages.{PagesLaw};

/// Of a journal that is answered a loss of power takes nothing.
pub fn law_of_what_is_left()
    ensures { (j : JournalState) (snapshot : List ℕ) (log : List Group) (s : DiskState) (image : List ℕ) → JournalAt j snapshot log s → MayLeave s image → IsImage j.units j.image snapshot log image }
{}

/// What a loss of power takes while pages of the image wait for a sync.
pub fn law_of_pages()
    ensures { PagesLaw }
{}
