// Laws of the model, over every world and every outcome, each the contract of a function that does nothing.
ghost use Rattle.ktm_world.specs.Laws.{StepLaw, FirstOpensLaw, RefusalLaw, FilesLaw, PathLaw, TranscriptLaw};

/// What is so after an outcome is what the outcome makes of what was so.
pub fn law_of_step()
    ensures { StepLaw }
{}

/// No first open is of works that are still to come.
pub fn law_of_first_opens()
    ensures { FirstOpensLaw }
{}

/// A refusal changes nothing.
pub fn law_of_refusals()
    ensures { RefusalLaw }
{}

/// What a call on files makes of the files is what the machine has then, and it lacks room exactly where a limit would be passed.
pub fn law_of_files()
    ensures { FilesLaw }
{}

/// Names, paths and patterns are read exactly where the text is one.
pub fn law_of_paths()
    ensures { PathLaw }
{}

/// What a script is answered is a transcript of its lines.
pub fn law_of_transcripts()
    ensures { TranscriptLaw }
{}
