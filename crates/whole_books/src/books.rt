//! The messages of a life's subscriptions.
ghost use Rattle.std.specs.Prelude.{◌≡◌, ◌≤◌, ◌<◌, ◌^◌, ◌++◌, ◌⊎◌, ℕ, List, [], Some};
ghost use Rattle.std.specs.List.{AllByRecursion};
ghost use Rattle.ua_base.specs.declared.modes.Timestamps.TheVariants as timestamps;
ghost use Rattle.set_model.specs.declared.source.Change.{Change};
ghost use Rattle.set_model.specs.Source.{IsSource};
ghost use Rattle.ua_sub_msgs.specs.declared.notification.MonitoredItemNotification.{MonitoredItemNotification};
ghost use Rattle.server_rules.specs.declared.config.ServerConfig.{ServerConfig};
ghost use Rattle.server_rules.specs.State.{new_server};
ghost use Rattle.server_rules.specs.Step.{Happening};
ghost use Rattle.server_laws.specs.Course.{fed_in};
ghost use Rattle.server_laws.specs.Whole.{NeverOff};
ghost use Rattle.server_keeps.specs.Fitting.{FitsChange, FitsConfig, FitsHappening};
ghost use Rattle.server_makings.specs.Asked.{asked_in, asked_with};
ghost use Rattle.link_rules.specs.declared.config.LinkConfig.{LinkConfig};
ghost use Rattle.link_rules.specs.Requests.{item_requests};
ghost use Rattle.life_books.specs.Lives.{AreOfSource};
ghost use Rattle.whole_books.specs.Whole.{AreOfBoot, IsWhole};

/// Take a subscription of a life in which no SetMonitoringMode asked for Disabled, and in which items were asked for as a
/// link asks for them, once, or none at all, with source times and queues of two places or more; and a source that has the
/// changes of the life as they are linked there. All its messages have values: those of each item, one message behind
/// another, are changes of that item, each linked to the one before it. Whatever data the life sent under its id, and
/// whatever the subscription kept at any time, also a message that was never told, are the values at the place of its number.
/// And the messages are no more than the changes of the source, once for each item.
pub fn lives_make_whole_books()
    ensures { (config : ServerConfig) (current : List Change) (happenings : List Happening) (id : ℕ)
        (source : List Change) (link : LinkConfig) (count : ℕ)
        → let s = new_server config current in
        FitsConfig config → AllByRecursion FitsChange current → AllByRecursion FitsHappening happenings
        → count < 2 ^ 16 → NeverOff happenings id
        → (asked_in id happenings ≡ []) ⊎ (asked_in id happenings ≡ asked_with (Some timestamps.Source) (item_requests link count))
        → 2 ≤ link.queue → IsSource source
        → ((item : ℕ) → AreOfSource (current ++ fed_in happenings) source item)
        → (book : List (List MonitoredItemNotification))
        × IsWhole id count source happenings s book }
{
    server_makings::subscriptions_tell_what_was_asked_for();
    server_makings::ids_of_items_are_their_places();
    server_keeps::what_is_put_keeps_the_limits();
    arriving_entries::messages_bring_their_values();
    life_books::asked_items_have_their_own_handles();
    life_books::lives_make_sound_books();
}

/// The ids of a life's subscriptions are those of its boot number: 65,535 of them.
pub fn ids_tell_their_life()
    ensures { (config : ServerConfig) (current : List Change) (happenings : List Happening)
        → AreOfBoot config.boot happenings (new_server config current) }
{
    server_laws::subscriptions_are_calls();
}
