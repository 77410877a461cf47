//! A subscription's message, and what the client finds in it.
ghost use Rattle.std.specs.Prelude.{◌≡◌, ◌≢◌, ℕ, ℤ, List, [], Ok, map, FitsSigned};
ghost use Rattle.std.specs.Int.{w64};
ghost use Rattle.ua_values.specs.Laws.{KeepsArray};
ghost use Rattle.ua_structures.specs.Body.{body_at};
ghost use Rattle.ua_sub_msgs.specs.declared.publish.PublishResponse.{PublishResponse};
ghost use Rattle.ua_sub_msgs.specs.declared.publish.RepublishResponse.{RepublishResponse};
ghost use Rattle.ua_sub_msgs.specs.declared.reply.SubReply.TheVariants as sub_reply;
ghost use Rattle.ua_services.specs.declared.reply.Reply.{Reply};
ghost use Rattle.ua_services.specs.declared.reply.Reply.TheVariants as reply;
ghost use Rattle.ua_services.specs.Families.{replies, reply_put, written_reply};
ghost use Rattle.subscription.specs.Items.{Told};
ghost use Rattle.subscription.specs.Message.{message_of, notified};
ghost use Rattle.link_rules.specs.declared.content.Content.TheVariants as content;
ghost use Rattle.link_rules.specs.Messages.{content_of};
ghost use Rattle.arriving_entries.specs.Brought.{FitsHeader, FitsMessageOf, FitsPublish, FitsTold, HoldsValues};

/// A message that tells entries brings the client the values that were put into it, each under its handle, in their order,
/// where their numbers are those that their types hold and they are no more than an array may have. It has one object, a
/// DataChangeNotification, which is read as what was written, and nothing else. A message that tells none is a keep-alive.
pub fn messages_bring_their_values()
    ensures values { (number : ℕ) (now : ℤ) (told : List Told) → told ≢ [] → FitsSigned w64 now
        → KeepsArray FitsTold told
        → content_of (message_of number now told).notification_data ≡ content.Values (map (notified now) told) }
    ensures holds { (number : ℕ) (now : ℤ) (told : List Told) → told ≢ [] → FitsSigned w64 now
        → KeepsArray FitsTold told
        → HoldsValues (map (notified now) told) (message_of number now told).notification_data }
    ensures alive { (number : ℕ) (now : ℤ) → content_of (message_of number now []).notification_data ≡ content.Alive }
{
    ua_sub_msgs::notifications_are_held();
}

/// Each reply that keeps the limits is read by the other end as it was said. So it is of the reply to a Publish or a
/// Republish with a message of at most 1000 entries, where the numbers of the message, of the reply's header and of its
/// lists are those that their types hold; what the message brings is said above.
pub fn said_messages_are_read()
    ensures replies { (answer : Reply) → (reply_put answer).keeps → body_at replies (written_reply answer) ≡ Ok answer }
    ensures publish { (number : ℕ) (now : ℤ) (told : List Told) (r : PublishResponse)
        → r.notification_message ≡ message_of number now told → FitsPublish r → FitsMessageOf number now told
        → body_at replies (written_reply (reply.Subscription (sub_reply.Publish r)))
        ≡ Ok (reply.Subscription (sub_reply.Publish r)) }
    ensures republish { (number : ℕ) (now : ℤ) (told : List Told) (r : RepublishResponse)
        → r.notification_message ≡ message_of number now told → FitsHeader r.response_header
        → FitsMessageOf number now told
        → body_at replies (written_reply (reply.Subscription (sub_reply.Republish r)))
        ≡ Ok (reply.Subscription (sub_reply.Republish r)) }
{
    ua_services::replies_are_read_again();
}
