//! The messages of each subscription.
ghost use Rattle.std.specs.Prelude.{◌≡◌, ◌≤◌, ◌+◌, ◌++◌, ◌∷◌, [], false, length, ℕ, List, Ok, Some};
ghost use Rattle.set_model.specs.declared.source.Change.{Change};
ghost use Rattle.ua_channel.specs.declared.heard.Heard.TheVariants as heard;
ghost use Rattle.ua_sub_msgs.specs.declared.notification.NotificationMessage.{NotificationMessage};
ghost use Rattle.ua_sub_msgs.specs.declared.publish.RepublishRequest.{RepublishRequest};
ghost use Rattle.ua_sub_msgs.specs.declared.request.SubRequest.TheVariants as sub_request;
ghost use Rattle.ua_services.specs.declared.request.Request.TheVariants as request;
ghost use Rattle.ua_services.specs.Requests.{request_at};
ghost use Rattle.subscription.specs.declared.spec.SubSpec.{SubSpec};
ghost use Rattle.subscription.specs.History.{Call, state_of};
ghost use Rattle.subscription.specs.State.{ItemState, SubState};
ghost use Rattle.subscription.specs.Items.{is_disabled, item_of};
ghost use Rattle.server_rules.specs.declared.config.ServerConfig.{ServerConfig};
ghost use Rattle.server_rules.specs.State.{new_server, sub_at};
ghost use Rattle.server_rules.specs.Step.{Happening, Hears, after};
ghost use Rattle.server_rules.specs.Acts.{state_after};
ghost use Rattle.server_laws.specs.Bounded.{IsBounded};
ghost use Rattle.server_laws.specs.Counted.{entries_put, held};
ghost use Rattle.server_laws.specs.Course.{fed_in, life_of};
ghost use Rattle.server_laws.specs.Facts.{IsWithin, facts_said};
ghost use Rattle.server_laws.specs.Lives.{IsSent, messages_sent};
ghost use Rattle.server_laws.specs.Messages.{AreMessages};
ghost use Rattle.server_laws.specs.Neighbours.{IsLinkedStream};
ghost use Rattle.server_laws.specs.Whole.{IsLinkedChain, NeverOff};
ghost use Rattle.server_laws.specs.Moves.{Repeated};

/// The data messages of a subscription are numbered from 1 on, and after 4294967295 comes 1 (OPC 10000-4, 5.13.1.1).
/// Each that a good Publish response says under its id is one of them, and they are said in their order. The next one
/// has the next number, and each that is kept is one of them, under its number.
pub fn messages_are_of_their_subscription()
    ensures { (config : ServerConfig) (current : List Change) (happenings : List Happening) (id : ℕ)
        → (messages : List NotificationMessage)
        × AreMessages id messages (life_of happenings (new_server config current)) }
{
    subscription::messages_are_numbered();
    subscription::sent_messages_are_kept();
}

/// What a good Republish response gives is the message that the subscription of the request sent under the number of the
/// request.
pub fn kept_messages_were_sent()
    ensures { (config : ServerConfig) (current : List Change) (earlier : List Happening) (conn number : ℕ)
        (body : List ℕ) (asked : RepublishRequest) (message : NotificationMessage)
        → let s = new_server config current in
        let happening = Hears conn (heard.Message number body) in
        request_at body ≡ Ok (request.Subscription (sub_request.Republish asked))
        → IsWithin (Repeated message ∷ []) (facts_said (after happening (state_after earlier s)).said)
        → (messages : List NotificationMessage)
        × AreMessages asked.subscription_id messages (life_of (happening ∷ earlier) s)
        × IsSent asked.retransmit_sequence_number message messages }
{
    subscription::messages_are_numbered();
    subscription::sent_messages_are_kept();
}

/// An item that isn't Disabled has a stream, which began when it was made or left Disabled. Of two neighbours among all
/// entries that messages told of it, and those that its queue holds, both are changes of its node, the later one behind
/// the former, and directly behind it where it isn't marked, in a queue of two places or more. The changes are those
/// with which the life began, and those that were fed since; and the last entry is the last of them. So what comes next
/// is linked too.
pub fn neighbours_of_messages_are_linked()
    ensures { (config : ServerConfig) (current : List Change) (happenings : List Happening) (id : ℕ) (sub : SubState)
        (item_id : ℕ) (item : ItemState) → let s = new_server config current in
        sub_at id (state_after happenings s).subs ≡ Some sub → item_of item_id sub.items ≡ Some item
        → is_disabled item.mode ≡ false
        → IsLinkedStream id sub item_id item (current ++ fed_in happenings) (life_of happenings s) }
{
    subscription::messages_are_numbered();
    subscription::sent_messages_are_kept();
    subscription::neighbours_are_linked();
}

/// A subscription sends no more messages than entries were put into its items' queues, and those that are still held
/// are left: the calls are those of its life.
pub fn messages_are_counted()
    ensures { (spec : SubSpec) (start : ℕ) (calls : List Call)
        → length (messages_sent spec start calls) + held (state_of spec start calls).items ≤ entries_put spec start calls }
{}

/// Where no SetMonitoringMode asked for Disabled, the stream of an item is never broken off: of two neighbours among all
/// entries that the subscription's messages ever told of it, and those that its queue holds, the later one is linked to
/// the former, in one message or in two.
pub fn chains_of_messages_are_linked()
    ensures { (config : ServerConfig) (current : List Change) (happenings : List Happening) (id : ℕ) (sub : SubState)
        (item_id : ℕ) (item : ItemState) → let s = new_server config current in
        NeverOff happenings id → sub_at id (state_after happenings s).subs ≡ Some sub
        → item_of item_id sub.items ≡ Some item → is_disabled item.mode ≡ false
        → IsLinkedChain id sub item_id item (current ++ fed_in happenings) (life_of happenings s) }
{
    subscription::messages_are_numbered();
    subscription::sent_messages_are_kept();
    subscription::neighbours_are_linked();
    subscription::ids_rise();
}

/// How many messages a subscription of a life may send, by what happened in it: they and the entries that its queues
/// still hold are no more than the changes that were fed, and the items that CreateMonitoredItems of it asked for, once
/// each, and once more for each SetMonitoringMode of it that found an item Disabled and left it otherwise. A change
/// counts once for each item of its node, so once at the most where no two items are of one node. The same is said of
/// the items that were made in it, which are among those that were asked for, and are as many as ids were given to items
/// while it is there.
pub fn messages_of_lives_are_counted()
    ensures { (config : ServerConfig) (current : List Change) (happenings : List Happening) (id : ℕ)
        → IsBounded id happenings (new_server config current) }
{
    subscription::messages_are_numbered();
    subscription::sent_messages_are_kept();
}
