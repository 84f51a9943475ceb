// What calls take.
ghost use Rattle.ktm_route.specs.Takes.{CompletionsLaw};

/// No call on the way to the end of a transaction takes memory.
pub fn law_of_completions()
    ensures { CompletionsLaw }
{}
