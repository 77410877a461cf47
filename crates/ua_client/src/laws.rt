//! Laws of a client over bytes, each the contract of a function that does nothing. That no byte of a server makes a step
//! answer anything but Ok or want of memory is said by the step's type.

ghost use Rattle.std.specs.Prelude.{◌≡◌, ◌++◌, false, ℕ, List, Some};
ghost use Rattle.ua_channel.specs.Arriving.{Arrive, Sent, bytes_of};
ghost use Rattle.ua_channel.specs.Sharing.{end_at};
ghost use Rattle.ua_channel.specs.State.{ChannelState};
ghost use Rattle.client_rules.specs.State.{is_server};
ghost use Rattle.ua_client.specs.declared.event.ClientEvent.TheVariants as event;
ghost use Rattle.ua_client.specs.State.{BytesState};
ghost use Rattle.ua_client.specs.Step.{apart, ended, heard_on, rest_answer, rest_ears, stepped, taken};

/// How the stream of a server is cut into pieces doesn't matter for what the client makes of its bytes: two pieces are
/// one. An event of bytes is this, and then its end; so two events are one where nothing is to be done at the first one's
/// end: no link may dial, and no deaf end holds anything.
pub fn pieces_are_one()
    ensures bytes { (server : ℕ) (first second : List ℕ) (s : BytesState)
        → taken server (first ++ second) s ≡ taken server second (taken server first s) }
    ensures events { (server : ℕ) (first second : List ℕ) (s : BytesState)
        → ended (taken server first s) ≡ taken server first s
        → stepped (event.Bytes server (first ++ second)) s
        ≡ stepped (event.Bytes server second) (stepped (event.Bytes server first) s) }
{}

/// The bytes of messages, as another end puts them, are these messages heard one by one, in their order, each with all
/// that follows it before the next one.
pub fn bytes_are_messages()
    ensures { (server : ℕ) (sent : List Sent) (c : ChannelState) (s : BytesState)
        → end_at server s.channels ≡ Some c
        → Arrive (rest_ears server) (rest_answer server) sent (apart server c s)
        → taken server (bytes_of sent) s ≡ heard_on server sent c s }
{}

/// What comes of a server that the client doesn't have is no event.
pub fn others_are_nothing()
    ensures opened { (server : ℕ) (s : BytesState) → is_server server s.hub ≡ false
        → stepped (event.Opened server) s ≡ s }
    ensures refused { (server : ℕ) (s : BytesState) → is_server server s.hub ≡ false
        → stepped (event.Refused server) s ≡ s }
    ensures bytes { (server : ℕ) (bytes : List ℕ) (s : BytesState) → is_server server s.hub ≡ false
        → stepped (event.Bytes server bytes) s ≡ s }
    ensures closed { (server : ℕ) (s : BytesState) → is_server server s.hub ≡ false
        → stepped (event.Closed server) s ≡ s }
{}
