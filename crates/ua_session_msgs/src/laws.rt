//! What holds of the families of this crate, each the contract of a function that does nothing.

ghost use Rattle.ua_structures.specs.Body.{AreLawful, AreHeld};
ghost use Rattle.ua_session_msgs.specs.Families.{session_requests, request_put, session_replies, reply_put};
ghost use Rattle.ua_session_msgs.specs.Families.{identity_tokens, token_put};

/// Bytes are a body of one SessionRequest at most; what is written of one is read again.
pub fn session_requests_are_lawful()
    ensures { AreLawful session_requests request_put }
{}

/// Bytes are a body of one SessionReply at most; what is written of one is read again.
pub fn session_replies_are_lawful()
    ensures { AreLawful session_replies reply_put }
{}

/// An object holds one IdentityToken at most; what is written of one is read again.
pub fn identity_tokens_are_held()
    ensures { AreHeld identity_tokens token_put }
{}
