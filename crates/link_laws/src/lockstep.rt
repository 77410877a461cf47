//! What a link puts on its connection, and when.

ghost use Rattle.std.specs.Prelude.{◌≡◌, ◌+◌, true, false, List};
ghost use Rattle.link_rules.specs.declared.config.LinkConfig.{LinkConfig};
ghost use Rattle.link_rules.specs.Closing.{stands_in};
ghost use Rattle.link_rules.specs.State.{new_link};
ghost use Rattle.link_rules.specs.Step.{Happening, after_all};
ghost use Rattle.link_laws.specs.Lockstep.{no_tally, tally_all};

/// Until the first Publish is put on a connection, one message more was put than was taken: first a HEL is put, and then
/// each message that is taken is answered by one that is put in the same step, unless the link leaves the connection.
pub fn requests_go_in_lockstep()
    ensures { (config : LinkConfig) (happenings : List Happening)
        → stands_in (after_all happenings (new_link config)).link.phase ≡ true
        → (tally_all happenings (new_link config) no_tally).published ≡ false
        → (tally_all happenings (new_link config) no_tally).put
        ≡ (tally_all happenings (new_link config) no_tally).taken + 1 }
{}
