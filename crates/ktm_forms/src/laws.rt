// The law of the replies.
ghost use Rattle.ktm_forms.specs.Tells.{RepliesLaw, TickLaw};

/// A call is refused, or tells what its form does; and the passing of time is refused, or done.
pub fn law_of_replies()
    ensures calls { RepliesLaw }
    ensures ticks { TickLaw }
{}
