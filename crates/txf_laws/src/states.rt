// Laws of durable states.
ghost use Rattle.txf_laws.specs.GoodStates.{GoodStatesLaw};
ghost use Rattle.txf_laws.specs.Grammatical.{GrammarLaw};
ghost use Rattle.txf_laws.specs.OwnGroup.{OwnGroupLaw};

use crate::{law_of_forms, law_of_lists};

/// An image that was just formatted is good, and no event that applies to a good state makes a bad one of it.
pub fn law_of_good_states()
    ensures { GoodStatesLaw }
{
    law_of_forms();
    law_of_lists();
}

/// What an event must be for a good state to stay good, beside that it applies, every event is that stands in a log.
pub fn law_of_grammar()
    ensures { GrammarLaw }
{}

/// A restart of an image with a good state records what it has to, where its counts have not come to their ends.
pub fn law_of_own_groups()
    ensures { OwnGroupLaw }
{}
