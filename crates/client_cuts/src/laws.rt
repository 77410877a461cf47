ghost use Rattle.std.specs.Prelude.{◌≡◌, ◌++◌, is_some, true, ℕ, List};
ghost use Rattle.ua_channel.specs.Sharing.{end_at};
ghost use Rattle.client_rules.specs.declared.config.ClientConfig.{ClientConfig};
ghost use Rattle.ua_client.specs.declared.event.ClientEvent.{ClientEvent};
ghost use Rattle.ua_client.specs.declared.event.ClientEvent.TheVariants as event;
ghost use Rattle.ua_client.specs.State.{BytesState, new_bytes, out_of, without_out, without_wish};
ghost use Rattle.ua_client.specs.Step.{ended, stepped};
ghost use Rattle.client_cuts.specs.Resting.{Call, IsAtRest, life_after};
ghost use Rattle.client_cuts.specs.Waiting.{IsNoOpening, with_waiting};

/// Two events of bytes of one server are one, of a client that is at rest, as one is after any calls: it is in the same
/// state then, with the same report, the same wishes and the same bytes for each server.
pub fn events_are_one()
    ensures rest { (server : ℕ) (first second : List ℕ) (s : BytesState) → IsAtRest s
        → stepped (event.Bytes server (first ++ second)) s
        ≡ stepped (event.Bytes server second) (stepped (event.Bytes server first) s) }
    ensures life { (config : ClientConfig) (calls : List Call) (server : ℕ) (first second : List ℕ)
        → stepped (event.Bytes server (first ++ second)) (life_after config calls)
        ≡ stepped (event.Bytes server second) (stepped (event.Bytes server first) (life_after config calls)) }
{}

/// A client is at rest when it begins, and after each event; and it stays so where bytes or wishes are taken.
pub fn clients_are_at_rest()
    ensures twice { (s : BytesState) → IsAtRest (ended s) }
    ensures begins { (config : ClientConfig) → IsAtRest (new_bytes config) }
    ensures event { (e : ClientEvent) (s : BytesState) → IsAtRest s → IsAtRest (stepped e s) }
    ensures bytes { (server : ℕ) (s : BytesState) → IsAtRest s → IsAtRest (without_out server s) }
    ensures wish { (server : ℕ) (s : BytesState) → IsAtRest s
        → IsAtRest (record s { hub = without_wish server s.hub }) }
    ensures life { (config : ClientConfig) (calls : List Call) → IsAtRest (life_after config calls) }
{}

/// When the bytes for a server are taken doesn't matter, but that a connection to it which is opened drops those that
/// weren't: any other event makes of a client the same as of one for whose server more bytes wait. So it is with bytes that
/// are taken between two events of bytes.
pub fn taken_bytes_have_no_part()
    ensures event { (e : ClientEvent) (server : ℕ) (bytes : List ℕ) (s : BytesState) → IsNoOpening server e
        → stepped e (with_waiting server bytes s) ≡ with_waiting server bytes (stepped e s) }
    ensures taken { (server : ℕ) (s : BytesState)
        → with_waiting server (out_of server s) (without_out server s) ≡ s }
    ensures out { (server : ℕ) (bytes : List ℕ) (s : BytesState) → is_some (end_at server s.channels) ≡ true
        → out_of server (with_waiting server bytes s) ≡ bytes ++ out_of server s }
    ensures between { (server other : ℕ) (first second : List ℕ) (s : BytesState) → IsAtRest s
        → stepped (event.Bytes server (first ++ second)) s
        ≡ with_waiting other (out_of other (stepped (event.Bytes server first) s))
        (stepped (event.Bytes server second) (without_out other (stepped (event.Bytes server first) s))) }
{}
