ghost use Rattle.std.specs.Prelude.{ℕ, Bool, List};
ghost use Rattle.std.specs.List.{AllByRecursion};
ghost use Rattle.ua_channel.specs.declared.heard.Heard.TheVariants as heard;
ghost use Rattle.ua_services.specs.declared.reply.Reply.{Reply};
ghost use Rattle.ua_services.specs.Families.{reply_put, written_reply};
ghost use Rattle.link_rules.specs.declared.config.LinkConfig.{LinkConfig};
ghost use Rattle.link_rules.specs.State.{new_link};
ghost use Rattle.link_rules.specs.Step.{Happening, after_all};
ghost use Rattle.link_keeps.specs.Again.{IsReadAgain};
ghost use Rattle.link_keeps.specs.Fitting.{FitsConfig, FitsHappening, FitsHeard, FitsLink, KeepsSaid};

/// Where what happens to a link keeps the limits, so does what it says: each HEL and each request, but for a Publish with
/// more than 65,536 acknowledgements, which is longer than an array may be. What it knows keeps them too.
pub fn what_is_said_keeps_the_limits()
    ensures said { (config : LinkConfig) (happenings : List Happening)
        → FitsConfig config → AllByRecursion FitsHappening happenings
        → AllByRecursion KeepsSaid (after_all happenings (new_link config)).said }
    ensures link { (config : LinkConfig) (happenings : List Happening)
        → FitsConfig config → AllByRecursion FitsHappening happenings
        → FitsLink (after_all happenings (new_link config)).link }
{}

/// So what a link says is read again as what it is: a HEL's body gives its greeting and its url, and a request's the
/// request, but for such a Publish.
pub fn what_is_said_is_read_again()
    ensures { (config : LinkConfig) (happenings : List Happening)
        → FitsConfig config → AllByRecursion FitsHappening happenings
        → AllByRecursion IsReadAgain (after_all happenings (new_link config)).said }
{
    ua_services::requests_are_read_again();
    ua_chunks::greetings_are_read();
}

/// A reply that keeps the limits fits where it is heard: in a message, and in an OPN.
pub fn replies_that_keep_fit()
    ensures message { (number : ℕ) (r : Reply) → (reply_put r).keeps → FitsHeard (heard.Message number (written_reply r)) }
    ensures opening { (channel : ℕ) (follows : Bool) (number : ℕ) (r : Reply) → (reply_put r).keeps
        → FitsHeard (heard.Opening channel follows number (written_reply r)) }
{
    ua_services::replies_are_read_again();
}
