// Laws of what is brought back.
ghost use Rattle.ktm_back.specs.Bringing.{ComingBackLaw};
ghost use Rattle.ktm_back.specs.Restoring.{InDoubtLaw};

/// What a good state has can be brought back in the next boot.
pub fn law_of_coming_back()
    ensures { ComingBackLaw }
{}

/// The group of a restart leaves the same transactions in doubt.
pub fn law_of_in_doubt()
    ensures { InDoubtLaw }
{}
