//! How often a link dials, and how many levels it tells.

ghost use Rattle.std.specs.Prelude.{◌+◌, ◌*◌, ◌≤◌, List};
ghost use Rattle.link_rules.specs.declared.config.LinkConfig.{LinkConfig};
ghost use Rattle.link_rules.specs.State.{LinkState, new_link};
ghost use Rattle.link_rules.specs.Step.{Happening, after_all};
ghost use Rattle.link_laws.specs.Counted.{dials_in, levels_told, reads_put, ticks_in};
ghost use Rattle.link_laws.specs.Waiting.{answers_in, publishes_put, readies_told, room};

/// A link dials at most once more often than there are ticks in which time passes.
pub fn dials_are_paced()
    ensures { (config : LinkConfig) (happenings : List Happening)
        → dials_in happenings (new_link config) ≤ ticks_in happenings + 1 }
{}

/// It tells no more levels than Reads were put.
pub fn levels_are_read()
    ensures { (config : LinkConfig) (happenings : List Happening)
        → levels_told (after_all happenings (new_link config)).notices
        ≤ reads_put (after_all happenings (new_link config)).said }
{}

/// Two Publishes wait at most: those that are put, and those that a ready link may still put, are at most the replies
/// that may answer one, two for each time that the link becomes ready, and what a link that was ready before might still
/// put.
pub fn publishes_are_few()
    ensures { (happenings : List Happening) (l : LinkState)
        → publishes_put (after_all happenings l).said + room (after_all happenings l).link
        ≤ 2 * readies_told (after_all happenings l).notices + room l + answers_in happenings }
{}
