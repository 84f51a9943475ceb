// Laws over the spelling of replies, each the contract of a function that does nothing.
ghost use Rattle.ktm_reply.specs.WorkedReplies.{AreReadFirst, AreSpelledSo, alike_replies, worked_replies};

/// Worked rows of the replies: what some of each kind are, how each is spelled, and which of two that are spelled alike is
/// read.
pub fn law_of_worked_replies()
    ensures spelled { AreSpelledSo worked_replies }
    ensures first { AreReadFirst alike_replies }
{}
