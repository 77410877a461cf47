//! A server over bytes is shown by one over messages, event by event.
ghost use Rattle.std.specs.Prelude.{◌≡◌, ◌≢◌, ◌<◌, ◌^◌, ℕ, List, map, None, Some, true};
ghost use Rattle.std.specs.List.{AllByRecursion};
ghost use Rattle.set_model.specs.declared.source.Change.{Change};
ghost use Rattle.ua_channel.specs.Arriving.{Chain, Sent, bytes_of};
ghost use Rattle.ua_channel.specs.Sharing.{end_at};
ghost use Rattle.ua_channel.specs.State.{ChannelState, is_deaf};
ghost use Rattle.message_ends.specs.Showing.{ExpectsIn, firsts_with, next_in};
ghost use Rattle.message_ends.specs.Talk.{Talk, out_of, without_out};
ghost use Rattle.server_rules.specs.declared.config.ServerConfig.{ServerConfig};
ghost use Rattle.server_rules.specs.State.{ServerState};
ghost use Rattle.server_rules.specs.Step.{Happening, after, ears};
ghost use Rattle.server_keeps.specs.Lawful.{OpensOther};
ghost use Rattle.server_keeps.specs.Fitting.{FitsChange, FitsConfig};
ghost use Rattle.ua_server.specs.declared.event.ServerEvent.TheVariants as event;
ghost use Rattle.ua_server.specs.State.{BytesState, new_bytes};
ghost use Rattle.ua_server.specs.State as over_bytes;
ghost use Rattle.ua_server.specs.Step.{stepped};
ghost use Rattle.server_messages.specs.Fitting.{ComesFit};
ghost use Rattle.server_messages.specs.Messages.{closed, fed, heard, is_closing, leveled, new_talk, opened, ticked};
ghost use Rattle.server_messages.specs.Showing.{ArePut, Awaits, ServerStands};

/// A server over whole messages, without bytes, pieces and numbers of chunks, shows what a server over bytes does,
/// event by event: the same server, and of the messages that were put on each connection the bytes, in their order. It
/// shows so where it begins with a config and current values that keep the limits, and an item is fed a change that
/// does; where a connection is opened whose number has no end; and where what was put on a connection is taken, which
/// is on both sides the same messages, each of which fits where a link hears it. And the same connections are to be
/// closed then.
pub fn messages_show_bytes()
    ensures begins { (config : ServerConfig) (current : List Change) → FitsConfig config
        → AllByRecursion FitsChange current
        → ServerStands (λ conn. 1) (new_bytes config current) (new_talk config current) }
    ensures opened { (firsts : ℕ → ℕ) (conn : ℕ) (r : BytesState) (t : Talk ServerState)
        → end_at conn r.channels ≡ None → ServerStands firsts r t
        → ServerStands (firsts_with conn 1 firsts) (stepped (event.Opened conn) r) (opened conn t) }
    ensures closed { (firsts : ℕ → ℕ) (conn : ℕ) (r : BytesState) (t : Talk ServerState)
        → ServerStands firsts r t → ServerStands firsts (stepped (event.Closed conn) r) (closed conn t) }
    ensures fed { (firsts : ℕ → ℕ) (change : Change) (r : BytesState) (t : Talk ServerState) → FitsChange change
        → ServerStands firsts r t → ServerStands firsts (stepped (event.Feed change) r) (fed change t) }
    ensures ticked { (firsts : ℕ → ℕ) (ms : ℕ) (r : BytesState) (t : Talk ServerState)
        → ServerStands firsts r t → ServerStands firsts (stepped (event.Tick ms) r) (ticked ms t) }
    ensures leveled { (firsts : ℕ → ℕ) (level : ℕ) (r : BytesState) (t : Talk ServerState) → level < 2 ^ 8
        → ServerStands firsts r t → ServerStands firsts (stepped (event.Level level) r) (leveled level t) }
    ensures taken { (firsts : ℕ → ℕ) (conn : ℕ) (r : BytesState) (t : Talk ServerState) → ServerStands firsts r t
        → ServerStands (firsts_with conn (next_in (end_at conn r.channels)) firsts) (over_bytes.without_out conn r)
        (without_out conn t) }
    ensures put { (firsts : ℕ → ℕ) (conn : ℕ) (c : ChannelState) (r : BytesState) (t : Talk ServerState)
        → end_at conn r.channels ≡ Some c → ServerStands firsts r t
        → ArePut (firsts conn) c.sending.next (over_bytes.out_of conn r) (out_of conn t) }
    ensures closing { (firsts : ℕ → ℕ) (conn : ℕ) (r : BytesState) (t : Talk ServerState) → ServerStands firsts r t
        → over_bytes.is_closing conn r ≡ is_closing conn t }
{
    server_keeps::what_is_put_keeps_the_limits();
    server_keeps::orders_are_lawful();
    link_keeps::replies_that_keep_fit();
    server_ends::ends_are_of_connections();
}

/// And it shows so where the bytes of messages come on a connection that is deaf, or whose end awaits the first one's
/// number, where their numbers follow each other: the server over messages hears the same messages, one after another.
/// Of what comes nothing else is asked but that what a server hears of each message keeps the limits. Then the
/// connection is deaf, or its end awaits the number after them all.
pub fn messages_show_what_comes()
    ensures shown { (conn first next : ℕ) (firsts : ℕ → ℕ) (sent : List Sent) (r : BytesState) (t : Talk ServerState)
        → AllByRecursion (λ m. ComesFit m.wire) sent → Chain first sent next → Awaits conn first r
        → ServerStands firsts r t
        → ServerStands firsts (stepped (event.Bytes conn (bytes_of sent)) r) (heard conn (map (λ m. m.wire) sent) t) }
    ensures awaits { (conn first next : ℕ) (firsts : ℕ → ℕ) (sent : List Sent) (r : BytesState) (t : Talk ServerState)
        → AllByRecursion (λ m. ComesFit m.wire) sent → Chain first sent next → Awaits conn first r
        → ServerStands firsts r t → Awaits conn next (stepped (event.Bytes conn (bytes_of sent)) r) }
{
    server_keeps::what_is_put_keeps_the_limits();
    server_keeps::orders_are_lawful();
    link_keeps::replies_that_keep_fit();
    server_ends::ends_are_of_connections();
}

/// A new end awaits the first number, and another event of a server leaves what each end awaits, but for the one whose
/// connection is opened, closed or heard.
pub fn what_is_awaited_stays()
    ensures new { (conn : ℕ) (r : BytesState) → end_at conn r.channels ≡ None
        → ExpectsIn 1 (end_at conn (stepped (event.Opened conn) r).channels) }
    ensures opened { (conn other next : ℕ) (r : BytesState) → other ≢ conn → ExpectsIn next (end_at other r.channels)
        → ExpectsIn next (end_at other (stepped (event.Opened conn) r).channels) }
    ensures closed { (conn other next : ℕ) (r : BytesState) → other ≢ conn → ExpectsIn next (end_at other r.channels)
        → ExpectsIn next (end_at other (stepped (event.Closed conn) r).channels) }
    ensures heard { (conn other next : ℕ) (bytes : List ℕ) (r : BytesState) → other ≢ conn
        → ExpectsIn next (end_at other r.channels)
        → ExpectsIn next (end_at other (stepped (event.Bytes conn bytes) r).channels) }
    ensures fed { (conn next : ℕ) (change : Change) (r : BytesState) → ExpectsIn next (end_at conn r.channels)
        → ExpectsIn next (end_at conn (stepped (event.Feed change) r).channels) }
    ensures ticked { (conn next ms : ℕ) (r : BytesState) → ExpectsIn next (end_at conn r.channels)
        → ExpectsIn next (end_at conn (stepped (event.Tick ms) r).channels) }
    ensures leveled { (conn next level : ℕ) (r : BytesState) → ExpectsIn next (end_at conn r.channels)
        → ExpectsIn next (end_at conn (stepped (event.Level level) r).channels) }
    ensures taken { (conn other next : ℕ) (r : BytesState) → ExpectsIn next (end_at other r.channels)
        → ExpectsIn next (end_at other (over_bytes.without_out conn r).channels) }
{}

/// A connection that is deaf, or whose end awaits a number, is so after any event but that it is opened, closed or
/// heard itself. And a connection that is deaf stays so whatever happens, until it is opened.
pub fn what_comes_is_awaited_still()
    ensures deaf { (conn : ℕ) (happening : Happening) (s : ServerState) → OpensOther conn happening
        → is_deaf (ears conn s) ≡ true → is_deaf (ears conn (after happening s).state) ≡ true }
    ensures opened { (conn other next : ℕ) (r : BytesState) → other ≢ conn → Awaits other next r
        → Awaits other next (stepped (event.Opened conn) r) }
    ensures closed { (conn other next : ℕ) (r : BytesState) → other ≢ conn → Awaits other next r
        → Awaits other next (stepped (event.Closed conn) r) }
    ensures heard { (conn other next : ℕ) (bytes : List ℕ) (r : BytesState) → other ≢ conn → Awaits other next r
        → Awaits other next (stepped (event.Bytes conn bytes) r) }
    ensures fed { (conn next : ℕ) (change : Change) (r : BytesState) → Awaits conn next r
        → Awaits conn next (stepped (event.Feed change) r) }
    ensures ticked { (conn next ms : ℕ) (r : BytesState) → Awaits conn next r
        → Awaits conn next (stepped (event.Tick ms) r) }
    ensures leveled { (conn next level : ℕ) (r : BytesState) → Awaits conn next r
        → Awaits conn next (stepped (event.Level level) r) }
    ensures taken { (conn other next : ℕ) (r : BytesState) → Awaits other next r
        → Awaits other next (over_bytes.without_out conn r) }
{}
