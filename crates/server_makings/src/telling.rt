//! What a subscription told, and the items that were asked for in it.
ghost use Rattle.std.specs.Prelude.{◌≡◌, ◌+◌, ◌++◌, None, ℕ, List, reverse, slice_get};
ghost use Rattle.set_model.specs.declared.source.Change.{Change};
ghost use Rattle.subscription.specs.declared.spec.SubSpec.{SubSpec};
ghost use Rattle.subscription.specs.History.{Call};
ghost use Rattle.server_rules.specs.declared.config.ServerConfig.{ServerConfig};
ghost use Rattle.server_rules.specs.State.{new_server};
ghost use Rattle.server_rules.specs.Step.{Happening};
ghost use Rattle.server_laws.specs.Bounded.{items_made};
ghost use Rattle.server_laws.specs.Course.{fed_in, life_of};
ghost use Rattle.server_laws.specs.Lives.{messages_sent};
ghost use Rattle.server_laws.specs.Whole.{NeverOff};
ghost use Rattle.server_chains.specs.Chains.{TellsChains, spec_of};
ghost use Rattle.server_makings.specs.Asked.{AreMadeOf, asked_in};
ghost use Rattle.server_makings.specs.Kept.{AreKeptOf};

/// Every subscription of a life in which no SetMonitoringMode asked for Disabled tells linked entries of the items that
/// its calls make, and these are made of those that CreateMonitoredItems asked for in it: in their order, and of each
/// one at the most. Whatever the subscription kept at any time of the life is one of the messages that it sent, under the
/// number under which it was kept.
pub fn subscriptions_tell_what_was_asked_for()
    ensures { (config : ServerConfig) (current : List Change) (happenings : List Happening) (id : ℕ)
        → let s = new_server config current in
        NeverOff happenings id
        → (tells : TellsChains id (current ++ fed_in happenings) (life_of happenings s))
        × AreMadeOf config.items (reverse (items_made tells.calls)) (asked_in id happenings)
        × AreKeptOf id happenings s (messages_sent tells.spec tells.start tells.calls) }
{
    server_laws::subscriptions_are_calls();
    server_chains::courses_tell_linked_entries();
    subscription::messages_are_numbered();
    subscription::sent_messages_are_kept();
}

/// Items have the ids 1, 2, and so on, in the order in which the calls of a subscription, newest first, make them: so
/// the entries that are told under an id are of the item at that place, also where it was removed since.
pub fn ids_of_items_are_their_places()
    ensures places { (spec : SubSpec) (start : ℕ) (calls : List Call) (place : ℕ)
        → spec_of (place + 1) spec start calls ≡ slice_get (reverse (items_made calls)) place }
    ensures none { (spec : SubSpec) (start : ℕ) (calls : List Call) → spec_of 0 spec start calls ≡ None }
{}
