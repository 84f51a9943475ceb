// Laws of changes of a tree.
ghost use Rattle.txf_laws.specs.Diamond.{DiamondLaw};
ghost use Rattle.txf_laws.specs.FinalChanges.{FinalChangesLaw};
ghost use Rattle.txf_laws.specs.Footprint.{ListsLaw, MeetingLaw};
ghost use Rattle.txf_laws.specs.Formed.{FormedLaw};

use ktm_world::law_of_paths;

/// Two changes that are apart apply in both orders, hold what they held, and make the same tree.
pub fn law_of_diamonds()
    ensures { DiamondLaw }
{}

/// What applies to a well-formed tree leaves it well formed.
pub fn law_of_forms()
    ensures { FormedLaw }
{
    law_of_paths();
}

/// Two lists of changes that hold nothing both apply in both orders, hold what they held, and make the same tree.
pub fn law_of_lists()
    ensures { ListsLaw }
{
    law_of_diamonds();
    law_of_forms();
}

/// Changes that no hold of others refuses hold nothing that those hold.
pub fn law_of_meetings()
    ensures { MeetingLaw }
{}

/// A transaction's changes are kept in the form in which they are committed, which stays so by each change more.
pub fn law_of_final_changes()
    ensures { FinalChangesLaw }
{}
