//! Laws of a server over bytes, each the contract of a function that does nothing. That no byte of a peer makes a step
//! answer anything but Ok or want of memory is said by the step's type.

ghost use Rattle.std.specs.Prelude.{[], ◌≡◌, ◌++◌, false, ℕ, List, None, Some};
ghost use Rattle.ua_channel.specs.Arriving.{Arrive, Sent, bytes_of};
ghost use Rattle.ua_channel.specs.Sharing.{end_at};
ghost use Rattle.ua_channel.specs.State.{ChannelState};
ghost use Rattle.server_rules.specs.Connecting.{is_above};
ghost use Rattle.ua_server.specs.declared.event.ServerEvent.TheVariants as event;
ghost use Rattle.ua_server.specs.State.{BytesState};
ghost use Rattle.ua_server.specs.Step.{apart, heard_on, rest_answer, rest_ears, stepped};

/// How a connection's stream is cut into pieces doesn't matter: two pieces are one.
pub fn pieces_are_one()
    ensures { (conn : ℕ) (first second : List ℕ) (s : BytesState)
        → stepped (event.Bytes conn (first ++ second)) s
        ≡ stepped (event.Bytes conn second) (stepped (event.Bytes conn first) s) }
{}

/// The bytes of messages, as another end puts them, are these messages heard one by one, in their order.
pub fn bytes_are_messages()
    ensures { (conn : ℕ) (sent : List Sent) (c : ChannelState) (s : BytesState)
        → end_at conn s.channels ≡ Some c
        → Arrive (rest_ears conn) (rest_answer conn) sent (apart conn c s)
        → stepped (event.Bytes conn (bytes_of sent)) s ≡ heard_on conn sent c s }
{}

/// No bytes are no event, and events of connections that aren't there, or whose number was there before, change nothing.
pub fn none_is_nothing()
    ensures bytes { (conn : ℕ) (s : BytesState) → stepped (event.Bytes conn []) s ≡ s }
    ensures unknown { (conn : ℕ) (bytes : List ℕ) (s : BytesState) → end_at conn s.channels ≡ None
        → stepped (event.Bytes conn bytes) s ≡ s }
    ensures closed { (conn : ℕ) (s : BytesState) → end_at conn s.channels ≡ None
        → stepped (event.Closed conn) s ≡ s }
    ensures opened { (conn : ℕ) (s : BytesState) → is_above s.hub.highest conn ≡ false
        → stepped (event.Opened conn) s ≡ s }
{}
