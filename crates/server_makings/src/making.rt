//! Which items are made, and what each is.
ghost use Rattle.std.specs.Prelude.{◌≡◌, ℕ, List, Ok};
ghost use Rattle.ua_base.specs.declared.modes.Timestamps.{Timestamps};
ghost use Rattle.set_model.specs.declared.source.Change.{Change};
ghost use Rattle.ua_sub_msgs.specs.declared.item.MonitoredItemCreateRequest.{MonitoredItemCreateRequest};
ghost use Rattle.subscription.specs.declared.spec.ItemSpec.{ItemSpec};
ghost use Rattle.server_rules.specs.declared.config.ServerConfig.{ServerConfig};
ghost use Rattle.server_rules.specs.Items.{judged};
ghost use Rattle.server_rules.specs.State.{new_server};
ghost use Rattle.server_rules.specs.Step.{Happening};
ghost use Rattle.server_laws.specs.Course.{IsCourse};
ghost use Rattle.server_makings.specs.Asked.{AreMadeOf, IsAsAsked, asked_in, made_in};

/// The items that a life makes in a subscription are such as CreateMonitoredItems asked for there, in their order, and
/// each that was asked for is made once at the most.
pub fn items_are_those_asked_for()
    ensures { (config : ServerConfig) (current : List Change) (happenings : List Happening)
        → let s = new_server config current in
        (course : IsCourse happenings s)
        × ((id : ℕ) → AreMadeOf config.items (made_in id course.moves) (asked_in id happenings)) }
{
    server_laws::subscriptions_are_calls();
}

/// What is made of an item that was asked for: it is of the node that was named, with the client's handle, a queue of
/// the size that is revised from the one that was asked for, the timestamps of the request, the mode that was named, and
/// the end of a full queue that was chosen.
pub fn items_are_made_as_asked()
    ensures { (items : ℕ) (stamps : Timestamps) (asked : MonitoredItemCreateRequest) (spec : ItemSpec)
        → judged items stamps asked ≡ Ok spec → IsAsAsked items stamps asked spec }
{}
