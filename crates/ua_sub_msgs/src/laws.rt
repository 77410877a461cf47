//! What holds of the families of this crate, each the contract of a function that does nothing.

ghost use Rattle.ua_structures.specs.Body.{AreLawful, AreHeld};
ghost use Rattle.ua_sub_msgs.specs.Families.{sub_requests, request_put, sub_replies, reply_put};
ghost use Rattle.ua_sub_msgs.specs.Families.{notifications, notification_put, filters, filter_put};

/// Bytes are a body of one SubRequest at most; what is written of one is read again.
pub fn sub_requests_are_lawful()
    ensures { AreLawful sub_requests request_put }
{}

/// Bytes are a body of one SubReply at most; what is written of one is read again.
pub fn sub_replies_are_lawful()
    ensures { AreLawful sub_replies reply_put }
{}

/// An object holds one Notification at most; what is written of one is read again.
pub fn notifications_are_held()
    ensures { AreHeld notifications notification_put }
{}

/// An object holds one Filter at most; what is written of one is read again.
pub fn filters_are_held()
    ensures { AreHeld filters filter_put }
{}
