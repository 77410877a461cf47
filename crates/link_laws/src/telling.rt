//! What a link tells its client.

ghost use Rattle.std.specs.Prelude.{◌≡◌, List};
ghost use Rattle.link_rules.specs.State.{LinkState, is_ready};
ghost use Rattle.link_rules.specs.Step.{Happening, after_all};
ghost use Rattle.link_laws.specs.Told.{Alternate, ready_after};

/// A link tells `Ready` only where it isn't ready, and `Lost` only where it is; so they alternate, and the last of them
/// tells whether it is ready. A new link isn't.
pub fn links_alternate()
    ensures turns { (happenings : List Happening) (l : LinkState)
        → Alternate (is_ready l) (after_all happenings l).notices }
    ensures ready { (happenings : List Happening) (l : LinkState)
        → ready_after (after_all happenings l).notices (is_ready l) ≡ is_ready (after_all happenings l).link }
{}
