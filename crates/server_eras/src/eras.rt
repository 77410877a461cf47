//! What the messages of one era tell.
ghost use Rattle.std.specs.Prelude.{◌≡◌, ◌≤◌, ℕ, List, Some, length};
ghost use Rattle.std.specs.List.{AllByRecursion};
ghost use Rattle.set_model.specs.declared.source.Change.{Change};
ghost use Rattle.set_model.specs.Source.{of_item};
ghost use Rattle.subscription.specs.declared.spec.ItemSpec.{ItemSpec};
ghost use Rattle.subscription.specs.declared.spec.SubSpec.{SubSpec};
ghost use Rattle.subscription.specs.History.{AreAllowed, Call};
ghost use Rattle.subscription.specs.Linked.{AreLinked};
ghost use Rattle.subscription.specs.Sources.{GiveLast, known_after};
ghost use Rattle.subscription.specs.Streams.{entries_of};
ghost use Rattle.server_chains.specs.Chains.{joined, messages_told, spec_of};
ghost use Rattle.server_eras.specs.Eras.{eras_told, of_era, offs_in};

/// After any calls on a subscription, newest first, all that its messages of one era told of an item, one message behind
/// another, is linked: of two neighbours, in one message or in two, both are changes of the item's node, the later one behind
/// the former, and directly behind it where it isn't marked, in a queue of two places or more; also where other items were set
/// to other modes, and where the item was removed since. Each message has one era, and none a later one than the calls come to.
/// The premises are those of the stream of an item: each call may be made, and each current value that a call gives is the last
/// change of the item's node.
pub fn entries_of_an_era_are_linked()
    ensures linked { (spec : SubSpec) (start : ℕ) (first : List Change) (calls : List Call) (id era : ℕ) (added : ItemSpec)
        → AreAllowed calls → GiveLast spec start first calls → spec_of id spec start calls ≡ Some added
        → AreLinked added.queue (of_item added.node (known_after first calls))
        (entries_of id (joined (of_era era (eras_told spec start calls) (messages_told spec start calls)))) }
    ensures each { (spec : SubSpec) (start : ℕ) (calls : List Call)
        → length (eras_told spec start calls) ≡ length (messages_told spec start calls) }
    ensures most { (spec : SubSpec) (start : ℕ) (calls : List Call)
        → AllByRecursion (λ era. era ≤ offs_in calls) (eras_told spec start calls) }
{
    subscription::ids_rise();
    subscription::streams_are_of_the_source();
    subscription::neighbours_are_linked();
}
