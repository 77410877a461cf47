//! Data that come.
ghost use Rattle.std.specs.Prelude.{List, []};
ghost use Rattle.std.specs.List.{AllByRecursion};
ghost use Rattle.link_rules.specs.declared.config.LinkConfig.{LinkConfig};
ghost use Rattle.link_rules.specs.State.{new_link};
ghost use Rattle.link_rules.specs.Step.{Happening};
ghost use Rattle.client_links.specs.Awaited.{AllAwaited};
ghost use Rattle.client_links.specs.Links.{passed_by};
ghost use Rattle.link_following.specs.Book.{Book, ComeOf};
ghost use Rattle.client_dials.specs.Spoken.{spoken_in};
ghost use Rattle.set_talks.specs.Meetings.{AllShared, Life};
ghost use Rattle.set_askings.specs.Once.{AllKept};
ghost use Rattle.set_takings.specs.Booked.{IsBooked};

/// Take a link whose connections are those of its server's lives, in which what comes is awaited, and what it says keeps the
/// limits of the wire; and lists of messages for each subscription, such that whatever data the lives sent, and kept at any
/// time, are among them. Then whatever data come to the link, of the subscription that it remembers, are among that one's
/// messages: those of a Publish response were sent, under the id that it names; and those of a Republish response answer the
/// link's own request, on the same connection and in the same turn, so they were kept under the id and the number that the
/// link asked for (OPC 10000-4, 5.13.5 and 5.13.6).
pub fn data_come_of_the_book()
    ensures { (config : LinkConfig) (happenings : List Happening) (lives : List Life) (book : Book)
        → AllAwaited happenings (new_link config)
        → AllShared (spoken_in (passed_by happenings (new_link config)) []) lives
        → AllKept (spoken_in (passed_by happenings (new_link config)) [])
        → AllByRecursion (IsBooked book) lives → ComeOf book happenings (new_link config) }
{
    client_dials::what_is_heard_comes_on_a_connection();
    client_askings::what_is_heard_was_asked();
    link_takings::republished_messages_were_asked_for();
    server_tellings::data_heard_were_sent();
    server_answers::answers_come_in_turn();
    server_answers::repeated_messages_were_kept_then();
}
