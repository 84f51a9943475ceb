// Laws of what memory keeps of the log's transactions.
ghost use Rattle.ktm_trace.specs.Contents.{ContentsLaw, KeptLaw};
ghost use Rattle.ktm_trace.specs.Few.{FewLaw};
ghost use Rattle.ktm_trace.specs.Traces.{TracesLaw};

/// What memory keeps goes on with each event as what was recorded does.
pub fn law_of_traces()
    ensures { TracesLaw }
{}

/// With the contents of the layers it is what was recorded.
pub fn law_of_contents()
    ensures { ContentsLaw }
{}

/// What memory keeps is had again from what it is with the contents of the layers.
pub fn law_of_kept()
    ensures { KeptLaw }
{}

/// It is few transactions with few parts, where what was recorded is good.
pub fn law_of_few()
    ensures { FewLaw }
{}
