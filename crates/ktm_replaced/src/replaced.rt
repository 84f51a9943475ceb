// What a change of the bytes of a file counts by.
ghost use Rattle.ktm_replaced.specs.Laws.{ReplacedLaw};

/// Where contents are places on a disk, another change of the same file that leaves the places of the same bytes comes to the same.
pub fn law_of_replaced_files()
    ensures { ReplacedLaw }
{}
