//! The messages that a link missed.

ghost use Rattle.std.specs.Prelude.{◌≡◌, ◌<◌, ◌^◌, ℕ, true, false, List, Ok, Some};
ghost use Rattle.ua_base.specs.Status.{bad_message_not_available};
ghost use Rattle.ua_structures.specs.Body.{body_at};
ghost use Rattle.ua_structures.specs.declared.header.ResponseHeader.{ResponseHeader};
ghost use Rattle.ua_channel.specs.declared.heard.Heard.TheVariants as heard;
ghost use Rattle.ua_session_msgs.specs.declared.reply.SessionReply.TheVariants as session_reply;
ghost use Rattle.ua_sub_msgs.specs.declared.notification.MonitoredItemNotification.{MonitoredItemNotification};
ghost use Rattle.ua_sub_msgs.specs.declared.publish.RepublishResponse.{RepublishResponse};
ghost use Rattle.ua_sub_msgs.specs.declared.subscription.TransferSubscriptionsResponse.{TransferSubscriptionsResponse};
ghost use Rattle.ua_sub_msgs.specs.declared.reply.SubReply.TheVariants as sub_reply;
ghost use Rattle.ua_services.specs.declared.reply.Reply.TheVariants as reply;
ghost use Rattle.ua_services.specs.Families.{replies};
ghost use Rattle.link_rules.specs.declared.content.Content.TheVariants as content;
ghost use Rattle.link_rules.specs.declared.phase.Phase.TheVariants as phase;
ghost use Rattle.link_rules.specs.declared.remembered.Remembered.{Remembered};
ghost use Rattle.link_rules.specs.State.{LinkState};
ghost use Rattle.link_rules.specs.Asking.{is_answer, is_fault};
ghost use Rattle.link_rules.specs.Messages.{content_of};
ghost use Rattle.link_rules.specs.Numbers.{wanted_of};
ghost use Rattle.link_rules.specs.Subscribing.{available_of};
ghost use Rattle.link_rules.specs.Step.{Hears, after};
ghost use Rattle.link_laws.specs.Missed.{GoesOn, IsBehind};

/// A transfer that tells which messages are kept has those asked for again that are not behind the next number, one after
/// another in their order; after the last of them the link is ready. One that is answered by data of a small number is
/// behind the next number then, and one that isn't available is left out.
pub fn missed_messages_are_asked_for()
    ensures kept { (number : ℕ) (body available : List ℕ) (r : TransferSubscriptionsResponse) (remembered : Remembered) (l : LinkState)
        → l.closes ≡ false → l.phase ≡ phase.Transferring → l.remembered ≡ Some remembered
        → body_at replies body ≡ Ok (reply.Subscription (sub_reply.TransferSubscriptions r))
        → r.response_header.request_handle ≡ l.conversation.last → available_of r ≡ Some available
        → GoesOn (wanted_of remembered.next available) remembered (after (Hears (heard.Message number body)) l) }
    ensures behind { (number : ℕ) (body wanted : List ℕ) (values : List MonitoredItemNotification) (r : RepublishResponse)
        (remembered : Remembered) (l : LinkState)
        → l.closes ≡ false → l.phase ≡ phase.Republishing wanted → l.remembered ≡ Some remembered
        → body_at replies body ≡ Ok (reply.Subscription (sub_reply.Republish r)) → is_answer r.response_header l ≡ true
        → content_of r.notification_message.notification_data ≡ content.Values values
        → r.notification_message.sequence_number < 2 ^ 31
        → IsBehind r.notification_message.sequence_number wanted remembered (after (Hears (heard.Message number body)) l) }
    ensures skipped { (number : ℕ) (body wanted : List ℕ) (h : ResponseHeader) (remembered : Remembered) (l : LinkState)
        → l.closes ≡ false → l.phase ≡ phase.Republishing wanted → l.remembered ≡ Some remembered
        → body_at replies body ≡ Ok (reply.Session (session_reply.ServiceFault h))
        → is_fault l.conversation.last bad_message_not_available h ≡ true
        → GoesOn wanted remembered (after (Hears (heard.Message number body)) l) }
{}
