//! A link's connections.
ghost use Rattle.std.specs.Prelude.{◌≤◌, ◌+◌, List, [], ◌∷◌, ◌++◌, length};
ghost use Rattle.std.specs.List.{AllByRecursion};
ghost use Rattle.ua_channel.specs.declared.heard.Heard.{Heard};
ghost use Rattle.link_rules.specs.declared.config.LinkConfig.{LinkConfig};
ghost use Rattle.link_rules.specs.State.{new_link};
ghost use Rattle.link_rules.specs.Step.{Happening, Hears};
ghost use Rattle.link_laws.specs.Counted.{ticks_in};
ghost use Rattle.link_takings.specs.Exchange.{exchange_all, no_exchange};
ghost use Rattle.client_links.specs.Awaited.{AllAwaited};
ghost use Rattle.client_links.specs.Links.{passed_by};
ghost use Rattle.client_dials.specs.Behind.{IsHeardBehind};
ghost use Rattle.client_dials.specs.Making.{AsksForMade};
ghost use Rattle.client_dials.specs.Spoken.{spoken_in};

/// Where what comes to a link is awaited, each message that it hears is heard on one of its connections: behind all that was
/// taken there before, and what was put there by then is put first there.
pub fn what_is_heard_comes_on_a_connection()
    ensures { (config : LinkConfig) (front : List Happening) (h : Heard) (more : List Happening)
        → AllAwaited (front ++ Hears h ∷ more) (new_link config)
        → IsHeardBehind h (exchange_all front (new_link config) no_exchange)
        (spoken_in (passed_by (front ++ Hears h ∷ more) (new_link config)) []) }
{}

/// Its connections are no more than one and one for each time that time passes.
pub fn connections_are_few()
    ensures { (config : LinkConfig) (happenings : List Happening) → AllAwaited happenings (new_link config)
        → length (spoken_in (passed_by happenings (new_link config)) []) ≤ ticks_in happenings + 1 }
{
    link_laws::dials_are_paced();
}

/// On each connection the link asks for items in the subscription of an id no more often than a reply made one of that id
/// there, and for all of its items each time.
pub fn items_are_asked_for_where_made()
    ensures { (config : LinkConfig) (happenings : List Happening)
        → AllByRecursion (AsksForMade config) (spoken_in (passed_by happenings (new_link config)) []) }
{
    link_laws::items_are_made_once();
}
