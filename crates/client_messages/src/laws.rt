//! Laws of a client over whole messages, each the contract of a function that does nothing.
ghost use Rattle.std.specs.Prelude.{◌≡◌, ◌⊎◌, ℕ, List, map, true, false};
ghost use Rattle.ua_channel.specs.State.{is_deaf};
ghost use Rattle.ua_channel.specs.Arriving.{Chain, Sent, bytes_of};
ghost use Rattle.ua_channel.specs.Sharing.{end_at};
ghost use Rattle.link_rules.specs.Opening.{begins_anew};
ghost use Rattle.client_rules.specs.declared.config.ClientConfig.{ClientConfig};
ghost use Rattle.client_rules.specs.State.{is_server, link_of};
ghost use Rattle.client_rules.specs.Step.{ears};
ghost use Rattle.client_keeps.specs.Fitting.{FitsConfig};
ghost use Rattle.ua_client.specs.declared.event.ClientEvent.{ClientEvent};
ghost use Rattle.ua_client.specs.declared.event.ClientEvent.TheVariants as event;
ghost use Rattle.ua_client.specs.State.{BytesState, new_bytes, out_of, without_out, without_wish};
ghost use Rattle.ua_client.specs.Step.{stepped};
ghost use Rattle.message_ends.specs.Showing.{ExpectsIn};
ghost use Rattle.message_ends.specs.Talk as talk;
ghost use Rattle.client_messages.specs.Messages.{MessagesState, closes, connects, hears, is_refused, new_talk, waits};
ghost use Rattle.client_messages.specs.Messages.{without_wish_of};
ghost use Rattle.client_messages.specs.Showing.{AllComeFit, IsBeside, Puts, Stands, renewed_firsts, taken_firsts};

/// A client over bytes that begins is shown by one over messages that begins: no end put anything, and what each puts is
/// numbered from 1 on.
pub fn a_client_begins()
    ensures { (config : ClientConfig) → FitsConfig config
        → Stands (λ server. 1) (new_bytes config) (new_talk config) }
{}

/// Each event of a client over bytes is the same event of one over messages, which shows it then: the same client behind
/// its ends, the same tokens at each end, and what was put there and not taken, in its order. Bytes that come from a
/// server are those of messages, one after the other, which the client may hear, and of which the server's end awaits
/// the first; in which pieces they come doesn't matter.
pub fn events_are_shown()
    ensures opened { (firsts : ℕ → ℕ) (server : ℕ) (r : BytesState) (t : MessagesState) → Stands firsts r t
        → Stands (renewed_firsts server r.hub firsts) (stepped (event.Opened server) r) (connects server t) }
    ensures refused { (firsts : ℕ → ℕ) (server : ℕ) (r : BytesState) (t : MessagesState) → Stands firsts r t
        → Stands firsts (stepped (event.Refused server) r) (is_refused server t) }
    ensures bytes { (firsts : ℕ → ℕ) (server first next : ℕ) (sent : List Sent) (r : BytesState) (t : MessagesState)
        → AllComeFit sent → Chain first sent next
        → (is_deaf (ears server r.hub) ≡ true) ⊎ ExpectsIn first (end_at server r.channels) → Stands firsts r t
        → Stands firsts (stepped (event.Bytes server (bytes_of sent)) r) (hears server (map (λ m. m.wire) sent) t) }
    ensures closed { (firsts : ℕ → ℕ) (server : ℕ) (r : BytesState) (t : MessagesState) → Stands firsts r t
        → Stands firsts (stepped (event.Closed server) r) (closes server t) }
    ensures time { (firsts : ℕ → ℕ) (ms : ℕ) (r : BytesState) (t : MessagesState) → Stands firsts r t
        → Stands firsts (stepped (event.Tick ms) r) (waits ms t) }
{}

/// The bytes that are put for a server are those of the messages that are put for it, each of which fits where a server
/// hears it, with numbers that follow each other. They are taken together, and what is put then goes on with the next
/// number. A wish that is taken changes nothing of the ends.
pub fn what_is_put_is_taken()
    ensures put { (firsts : ℕ → ℕ) (server : ℕ) (r : BytesState) (t : MessagesState) → Stands firsts r t
        → Puts (firsts server) (end_at server r.channels) (out_of server r) (talk.out_of server t) }
    ensures taken { (firsts : ℕ → ℕ) (server : ℕ) (r : BytesState) (t : MessagesState) → Stands firsts r t
        → Stands (taken_firsts server r firsts) (without_out server r) (talk.without_out server t) }
    ensures wish { (firsts : ℕ → ℕ) (server : ℕ) (r : BytesState) (t : MessagesState) → Stands firsts r t
        → Stands firsts (record r { hub = without_wish server r.hub }) (without_wish_of server t) }
{}

/// After the bytes of messages a server's end awaits the number after all of them. An event beside a server changes
/// nothing of what its end awaits, nor does taking what was put; and where a connection to it is opened the first number
/// is awaited, or, if one stands, what was awaited before.
pub fn bytes_are_awaited()
    ensures next { (firsts : ℕ → ℕ) (server first next : ℕ) (sent : List Sent) (r : BytesState) (t : MessagesState)
        → AllComeFit sent → Chain first sent next
        → (is_deaf (ears server r.hub) ≡ true) ⊎ ExpectsIn first (end_at server r.channels)
        → is_server server r.hub ≡ true → Stands firsts r t
        → ExpectsIn next (end_at server (stepped (event.Bytes server (bytes_of sent)) r).channels) }
    ensures beside { (e : ClientEvent) (next number : ℕ) (r : BytesState) → IsBeside number e
        → ExpectsIn next (end_at number r.channels) → ExpectsIn next (end_at number (stepped e r).channels) }
    ensures opened { (server : ℕ) (r : BytesState) → is_server server r.hub ≡ true
        → begins_anew (link_of server r.hub) ≡ true
        → ExpectsIn 1 (end_at server (stepped (event.Opened server) r).channels) }
    ensures standing { (next server : ℕ) (r : BytesState) → begins_anew (link_of server r.hub) ≡ false
        → ExpectsIn next (end_at server r.channels)
        → ExpectsIn next (end_at server (stepped (event.Opened server) r).channels) }
    ensures taken { (server number next : ℕ) (r : BytesState) → ExpectsIn next (end_at number r.channels)
        → ExpectsIn next (end_at number (without_out server r).channels) }
{}
