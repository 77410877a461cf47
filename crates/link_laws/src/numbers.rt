//! The numbers of a link's requests.

ghost use Rattle.std.specs.Prelude.{◌++◌, List};
ghost use Rattle.link_rules.specs.declared.config.LinkConfig.{LinkConfig};
ghost use Rattle.link_rules.specs.State.{LinkState, new_link};
ghost use Rattle.link_rules.specs.Step.{Happening, after_all};
ghost use Rattle.link_laws.specs.Acks.{IsWithin, acks_put, all_heard, due};
ghost use Rattle.link_laws.specs.Numbered.{AreNumbered};

/// The requests of a connection are numbered one after another from 1 on, and each names its number in its header as its
/// handle.
pub fn requests_are_numbered()
    ensures { (config : LinkConfig) (happenings : List Happening)
        → AreNumbered 0 (after_all happenings (new_link config)).said }
{}

/// What is acknowledged was heard: the acknowledgements that are put in Publishes, and behind them those that are still
/// due, are among the messages with data that were heard of the subscription that was remembered then, in their order. So
/// each of these is acknowledged at most once.
pub fn acknowledged_were_heard()
    ensures { (happenings : List Happening) (l : LinkState)
        → IsWithin (acks_put (after_all happenings l).said ++ due (after_all happenings l).link)
        (due l ++ all_heard happenings l) }
{}
