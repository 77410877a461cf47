//! What the subscriptions of a life bring to a client that asked for their items.
ghost use Rattle.std.specs.Prelude.{◌≡◌, ◌≤◌, ◌++◌, ◌⊎◌, ℕ, List, [], Some, true, reverse};
ghost use Rattle.ua_base.specs.declared.modes.Timestamps.{Timestamps};
ghost use Rattle.set_model.specs.declared.source.Change.{Change};
ghost use Rattle.set_model.specs.Source.{IsSource};
ghost use Rattle.ua_sub_msgs.specs.declared.notification.MonitoredItemNotification.{MonitoredItemNotification};
ghost use Rattle.subscription.specs.Message.{has_source};
ghost use Rattle.server_rules.specs.declared.config.ServerConfig.{ServerConfig};
ghost use Rattle.server_rules.specs.State.{new_server};
ghost use Rattle.server_rules.specs.Said.{Did};
ghost use Rattle.server_rules.specs.Step.{Happening};
ghost use Rattle.server_laws.specs.Bounded.{items_made};
ghost use Rattle.server_laws.specs.Course.{fed_in, life_of};
ghost use Rattle.server_laws.specs.Lives.{messages_sent};
ghost use Rattle.server_laws.specs.Whole.{NeverOff};
ghost use Rattle.server_chains.specs.Chains.{TellsChains, messages_told};
ghost use Rattle.server_makings.specs.Asked.{AreMadeOf, asked_in, asked_with};
ghost use Rattle.link_rules.specs.declared.config.LinkConfig.{LinkConfig};
ghost use Rattle.link_rules.specs.Requests.{item_requests};
ghost use Rattle.life_books.specs.Lives.{AreOfSource, IsBookOf};

/// Take a subscription of a life in which no SetMonitoringMode asked for Disabled, and in which items were asked for as a
/// link asks for them, once, or none at all, with source times and queues of two places or more; and a source that has the
/// changes of the life as they are linked there. There are values for each of its messages: those under one handle, one
/// message behind another, are changes of that item, each linked to the one before it. Each message has the number of its
/// place, counted from 1 around the ring, and brings a client the values of its place, where the numbers in it are those
/// that their types hold. The same is said of any messages and entries that a life tells, where their items are so made.
pub fn lives_make_sound_books()
    ensures chains { (id : ℕ) (known source : List Change) (did : Did) (items : ℕ) (link : LinkConfig) (count : ℕ)
        (stamps : Timestamps) (tells : TellsChains id known did)
        → AreMadeOf items (reverse (items_made tells.calls)) (asked_with (Some stamps) (item_requests link count))
        → has_source stamps ≡ true → 2 ≤ link.queue → IsSource source → ((item : ℕ) → AreOfSource known source item)
        → (book : List (List MonitoredItemNotification))
        × IsBookOf source (messages_sent tells.spec tells.start tells.calls)
        (messages_told tells.spec tells.start tells.calls) book }
    ensures lives { (config : ServerConfig) (current : List Change) (happenings : List Happening) (id : ℕ)
        (source : List Change) (link : LinkConfig) (count : ℕ) (stamps : Timestamps)
        → let s = new_server config current in
        NeverOff happenings id
        → (asked_in id happenings ≡ []) ⊎ (asked_in id happenings ≡ asked_with (Some stamps) (item_requests link count))
        → has_source stamps ≡ true → 2 ≤ link.queue → IsSource source
        → ((item : ℕ) → AreOfSource (current ++ fed_in happenings) source item)
        → (tells : TellsChains id (current ++ fed_in happenings) (life_of happenings s))
        × (book : List (List MonitoredItemNotification))
        × IsBookOf source (messages_sent tells.spec tells.start tells.calls)
        (messages_told tells.spec tells.start tells.calls) book }
{
    crate::told_entries_make_linked_values();
    crate::asked_items_have_their_own_handles();
    server_makings::subscriptions_tell_what_was_asked_for();
    server_makings::ids_of_items_are_their_places();
    arriving_entries::linked_entries_arrive_linked();
    arriving_entries::messages_bring_their_values();
}
