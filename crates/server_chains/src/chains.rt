//! What every subscription of a life told.
ghost use Rattle.std.specs.Prelude.{◌++◌, ℕ, List};
ghost use Rattle.set_model.specs.declared.source.Change.{Change};
ghost use Rattle.server_rules.specs.declared.config.ServerConfig.{ServerConfig};
ghost use Rattle.server_rules.specs.State.{new_server};
ghost use Rattle.server_rules.specs.Step.{Happening};
ghost use Rattle.server_laws.specs.Course.{IsCourse, core_of, fed_in, life_of};
ghost use Rattle.server_laws.specs.Lives.{Unborn, life_after};
ghost use Rattle.server_laws.specs.Whole.{NeverOff};
ghost use Rattle.server_chains.specs.Chains.{IsOfLife, TellsChains};

/// Every subscription of a life, also one that was deleted or expired, in which no SetMonitoringMode asked for Disabled:
/// its data messages tell the entries of its items, one list for each message, in the order of the messages. All that
/// they told of an item, one list behind another, is linked: of two neighbours, in one message or in two, both are
/// changes of the item's node, the later one behind the former, and directly behind it where it isn't marked, in a queue
/// of two places or more. Each entry is of an item that was made in it, which may have been removed since: it stands
/// under the item's handle and with its times, and is one of its node's changes. The changes are those with which the
/// life began, and those that were fed since, also after the subscription was gone. Where no subscription had the id
/// there are no messages.
pub fn subscriptions_tell_linked_entries()
    ensures { (config : ServerConfig) (current : List Change) (happenings : List Happening) (id : ℕ)
        → let s = new_server config current in
        NeverOff happenings id → TellsChains id (current ++ fed_in happenings) (life_of happenings s) }
{
    courses_tell_linked_entries();
}

/// The same for any moves that a life comes to: then the subscription, with its calls, is the one that they made.
pub fn courses_tell_linked_entries()
    ensures { (config : ServerConfig) (current : List Change) (happenings : List Happening) (id : ℕ)
        → let s = new_server config current in
        (course : IsCourse happenings s) → NeverOff happenings id
        → (tells : TellsChains id (current ++ fed_in happenings) (life_of happenings s))
        × IsOfLife (life_after id course.moves (core_of s) Unborn) tells.spec tells.start tells.calls }
{
    subscription::messages_are_numbered();
    subscription::sent_messages_are_kept();
    subscription::ids_rise();
    subscription::streams_are_of_the_source();
    subscription::neighbours_are_linked();
}
