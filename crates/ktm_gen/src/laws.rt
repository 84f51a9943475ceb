// What generated scripts are, as the contract of a function that does nothing.
ghost use Rattle.ktm_gen.specs.Worked.{BeginsSo, EndsSo};

/// A worked script: its first two cycles, and the end of its first cycle with a loss of power.
pub fn law_of_worked_script()
    ensures begins { BeginsSo }
    ensures ends { EndsSo }
{}
