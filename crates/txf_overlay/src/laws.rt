// Laws of what a transaction changed: each is the contract of a function that does nothing.
ghost use Rattle.txf_overlay.specs.Laws.{OtherTreeLaw, OwnFormLaw};

/// What a transaction changed stands over the tree that others' commits make, where that takes its changes, and these hold
/// the same places.
pub fn law_of_other_trees()
    ensures { OtherTreeLaw }
{}

/// What a transaction changed is in the form in which it is committed, and one change more makes it so again.
pub fn law_of_own_forms()
    ensures { OwnFormLaw }
{}
