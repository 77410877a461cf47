//! Laws of a link over bytes, each the contract of a function that does nothing. That no byte of a server makes a step
//! answer anything but Ok or want of memory is said by the step's type.

ghost use Rattle.std.specs.Prelude.{◌≡◌, ◌++◌, ℕ, List};
ghost use Rattle.ua_channel.specs.Arriving.{Arrive, Sent, bytes_of, heard_all};
ghost use Rattle.ua_link.specs.declared.event.LinkEvent.TheVariants as event;
ghost use Rattle.ua_link.specs.Talk.{TalkState, answer, ears, stepped};

/// How the connection's stream is cut into pieces doesn't matter: two pieces are one.
pub fn pieces_are_one()
    ensures { (first second : List ℕ) (s : TalkState)
        → stepped (event.Bytes (first ++ second)) s ≡ stepped (event.Bytes second) (stepped (event.Bytes first) s) }
{}

/// The bytes of messages, as a server puts them, are these messages heard one by one, in their order.
pub fn bytes_are_messages()
    ensures { (sent : List Sent) (s : TalkState) → Arrive ears answer sent s
        → stepped (event.Bytes (bytes_of sent)) s ≡ heard_all ears answer sent s }
{}
