//! What the messages in responses are.
ghost use Rattle.std.specs.Prelude.{◌≡◌, ◌∷◌, [], ℕ, List, Ok};
ghost use Rattle.set_model.specs.declared.source.Change.{Change};
ghost use Rattle.ua_sub_msgs.specs.declared.notification.MonitoredItemNotification.{MonitoredItemNotification};
ghost use Rattle.ua_sub_msgs.specs.declared.notification.NotificationMessage.{NotificationMessage};
ghost use Rattle.ua_sub_msgs.specs.declared.publish.PublishResponse.{PublishResponse};
ghost use Rattle.ua_sub_msgs.specs.declared.publish.RepublishRequest.{RepublishRequest};
ghost use Rattle.ua_sub_msgs.specs.declared.reply.SubReply.TheVariants as sub_reply;
ghost use Rattle.ua_sub_msgs.specs.declared.request.SubRequest.TheVariants as sub_request;
ghost use Rattle.ua_services.specs.declared.request.Request.TheVariants as request;
ghost use Rattle.ua_services.specs.Requests.{request_at};
ghost use Rattle.link_rules.specs.declared.content.Content.TheVariants as content;
ghost use Rattle.link_rules.specs.Messages.{content_of};
ghost use Rattle.server_rules.specs.declared.config.ServerConfig.{ServerConfig};
ghost use Rattle.server_rules.specs.State.{ServerState, new_server};
ghost use Rattle.server_rules.specs.Step.{Happening, after};
ghost use Rattle.server_laws.specs.Beginning.{KeptUnder};
ghost use Rattle.server_laws.specs.Course.{said_after};
ghost use Rattle.server_laws.specs.Facts.{IsWithin, facts_of_sub, facts_said};
ghost use Rattle.server_laws.specs.Moves.{Repeated, Sent};
ghost use Rattle.server_tellings.specs.Again.{IsKeptMessage, asks};
ghost use Rattle.server_tellings.specs.Carried.{AreCarried, IsMessage};

/// Whatever happens to a server, each Publish response that it says carries a keep-alive, which has no notification, a
/// message of some entries of items, or one StatusChangeNotification (OPC 10000-4, 5.13.5). Where a message of these
/// brings values, it was sent as a data message of the subscription that the response names.
pub fn publish_responses_are_messages()
    ensures step { (happening : Happening) (s : ServerState) → AreCarried (after happening s).said }
    ensures sent { (r : PublishResponse) (values : List MonitoredItemNotification) → IsMessage r.notification_message
        → content_of r.notification_message.notification_data ≡ content.Values values
        → facts_of_sub (sub_reply.Publish r) ≡ Sent r.subscription_id r.notification_message ∷ [] }
{}

/// A message that is said again, in a Republish response, is one that was kept: when the Republish was taken, the
/// subscription that it names kept the message under the number that it asks for. In a life there was such a request
/// wherever a message is said again, and the message is one of the data messages that the subscription had sent by then, at
/// the place of that number.
pub fn repeated_messages_were_sent()
    ensures step { (conn number : ℕ) (body : List ℕ) (asked : RepublishRequest) (s : ServerState)
        (message : NotificationMessage) → request_at body ≡ Ok (request.Subscription (sub_request.Republish asked))
        → IsWithin (Repeated message ∷ []) (facts_said (after (asks conn number body) s).said)
        → KeptUnder asked.subscription_id asked.retransmit_sequence_number message s }
    ensures life { (config : ServerConfig) (current : List Change) (happenings : List Happening)
        (message : NotificationMessage) → let s = new_server config current in
        IsWithin (Repeated message ∷ []) (facts_said (said_after happenings s)) → IsKeptMessage message happenings s }
{
    server_laws::subscriptions_are_calls();
}
