//! Entries that are told, message by message, and the values that come of them.
ghost use Rattle.std.specs.Prelude.{ℕ, List};
ghost use Rattle.set_model.specs.declared.source.Change.{Change};
ghost use Rattle.ua_sub_msgs.specs.declared.notification.MonitoredItemNotification.{MonitoredItemNotification};
ghost use Rattle.subscription.specs.Items.{Told};
ghost use Rattle.subscription.specs.Streams.{entries_of};
ghost use Rattle.server_chains.specs.Chains.{EachTold};
ghost use Rattle.server_chains.specs.Chains as chains;
ghost use Rattle.arriving_entries.specs.Arrivals.{AllLinked};
ghost use Rattle.link_following.specs.Book.{AreLinkedValues, joined, values_of};
ghost use Rattle.life_books.specs.Books.{AreFed, AreValuesOf, IsTimed, IsUnder};

/// Take what the messages of a subscription told, each at its time, where the entries under an item's handle are those of
/// one monitored item, and all are sent with their source times. Where the entries of that item are changes of the source,
/// each linked to the one before it, all values under the handle, one message behind another, are changes of the item, each
/// linked to the one before it.
pub fn told_entries_make_linked_values()
    ensures { (source : List Change) (item id : ℕ) (told : List (List Told)) (values : List (List MonitoredItemNotification))
        → AreValuesOf values told → EachTold (IsUnder item id) (chains.joined told) → EachTold IsTimed (chains.joined told)
        → AllLinked source item (entries_of id (chains.joined told)) → AreFed source item (entries_of id (chains.joined told))
        → AreLinkedValues source item (values_of item (joined values)) }
{
    arriving_entries::entries_arrive();
}
