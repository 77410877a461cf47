//! What each connection is told, and when.
ghost use Rattle.std.specs.Prelude.{◌≡◌, ◌++◌, [], false, true, ℕ, List, None, Ok, Option, Some};
ghost use Rattle.set_model.specs.declared.source.Change.{Change};
ghost use Rattle.sessions.specs.Table.{check_answer, lives};
ghost use Rattle.ua_channel.specs.declared.heard.Heard.{Heard};
ghost use Rattle.ua_channel.specs.declared.heard.Heard.TheVariants as heard;
ghost use Rattle.ua_channel.specs.State.{is_deaf};
ghost use Rattle.ua_sub_msgs.specs.declared.publish.RepublishRequest.{RepublishRequest};
ghost use Rattle.ua_sub_msgs.specs.declared.request.SubRequest.TheVariants as sub_request;
ghost use Rattle.ua_sub_msgs.specs.declared.subscription.TransferSubscriptionsRequest.{TransferSubscriptionsRequest};
ghost use Rattle.ua_services.specs.declared.request.Request.TheVariants as request;
ghost use Rattle.ua_services.specs.Requests.{request_at};
ghost use Rattle.subscription.specs.State.{SubState};
ghost use Rattle.server_rules.specs.declared.config.ServerConfig.{ServerConfig};
ghost use Rattle.server_rules.specs.Moves.{owns};
ghost use Rattle.server_rules.specs.Operations.{own_sub};
ghost use Rattle.ua_services.specs.declared.reply.Reply.{Reply};
ghost use Rattle.server_rules.specs.declared.conn.Asker.{Asker};
ghost use Rattle.server_rules.specs.declared.conn.Conn.{Conn};
ghost use Rattle.server_rules.specs.Answering.{replied};
ghost use Rattle.server_rules.specs.State.{ServerState, conn_at, new_server, sub_at};
ghost use Rattle.server_rules.specs.Said.{Said};
ghost use Rattle.server_rules.specs.Step.{Closes, Happening, Hears, after, ears};
ghost use Rattle.server_rules.specs.Acts.{state_after};
ghost use Rattle.server_laws.specs.Beginning.{HearNoPublish, IsAnsweredBy, IsQuietSince, RepeatsKept, TransfersKept};
ghost use Rattle.server_laws.specs.Course.{life_of};
ghost use Rattle.server_laws.specs.Numbers.{RiseTo, conn_numbers, highest_after, numbers_after};
ghost use Rattle.server_laws.specs.Owners.{GivesOwner, NeverMoved, StillOwns};
ghost use Rattle.server_laws.specs.Lockstep.{Anywhere, IsAtOnceOf, IsNoPublish, IsOnePut, IsOpening, IsQuiet, IsReplied, IsTold, MayHear, Never, NoneWaits, Other, SaysOn};

/// A request other than Publish that is taken on a connection is answered at once, under its number, by the response of
/// its service or by a ServiceFault, and a body that is no request by a fault. What is said before that in the same
/// step answers Publishes that waited. So on a connection on which none waits one message is put for each that is
/// taken: the j-th put answers the j-th taken. An answer that is too large for the other end is replaced by a fault, or
/// by an ERR, after which nothing is heard.
pub fn requests_are_answered_at_once()
    ensures { (conn number : ℕ) (body : List ℕ) (s : ServerState) → is_deaf (ears conn s) ≡ false
        → IsAtOnceOf (request_at body) → IsQuiet conn s
        → IsReplied (Other conn) conn number (request_at body) s (after (Hears conn (heard.Message number body)) s) }
{}

/// No Publish waits on a connection until one is taken there, and until then it is told nothing but the answers to what
/// is taken there. After its end none waits there any more.
pub fn connections_are_quiet_until_a_publish()
    ensures first { (conn : ℕ) (config : ServerConfig) (current : List Change) → IsQuiet conn (new_server config current) }
    ensures others { (conn : ℕ) (happening : Happening) (s : ServerState) → MayHear (Other conn) happening
        → IsQuiet conn s → IsTold (Other conn) (after happening s) }
    ensures own { (conn : ℕ) (h : Heard) (s : ServerState) → IsNoPublish h → IsQuiet conn s
        → IsQuiet conn (after (Hears conn h) s).state }
    ensures ends { (conn : ℕ) (c : Conn) (s : ServerState) → conn_at conn s.conns ≡ Some c
        → IsQuiet conn (after (Closes conn) s).state }
{}

/// Where no Publish waits anywhere, nothing is said but answers to what is taken, and none of them is a Publish
/// response; so until the next Publish no message of a subscription is put.
pub fn nothing_is_sent_before_a_publish()
    ensures silent { (happening : Happening) (s : ServerState) → MayHear Never happening → NoneWaits s
        → ((after happening s).said ≡ []) × NoneWaits (after happening s).state }
    ensures answered { (conn number : ℕ) (body : List ℕ) (s : ServerState) → is_deaf (ears conn s) ≡ false
        → IsAtOnceOf (request_at body) → NoneWaits s
        → IsReplied Never conn number (request_at body) s (after (Hears conn (heard.Message number body)) s) }
    ensures stays { (conn : ℕ) (h : Heard) (s : ServerState) → IsNoPublish h → NoneWaits s
        → NoneWaits (after (Hears conn h) s).state }
    ensures none { (said : List Said) → SaysOn Never said → said ≡ [] }
{}

/// A good result of TransferSubscriptions tells the numbers of the messages that the subscription keeps when the request
/// is taken (OPC 10000-4, 5.13.7).
pub fn transfers_answer_the_kept_numbers()
    ensures { (conn number : ℕ) (body : List ℕ) (r : TransferSubscriptionsRequest) (s : ServerState)
        → let asked = Ok (request.Subscription (sub_request.TransferSubscriptions r)) in
        is_deaf (ears conn s) ≡ false → request_at body ≡ asked
        → IsReplied Anywhere conn number asked s (after (Hears conn (heard.Message number body)) s) }
{}

/// On a connection that hears, one message is put there for a HEL and for an OPN, be it an ERR; an answer puts one on
/// the connection of its request, where that is there.
pub fn openings_are_answered_at_once()
    ensures openings { (conn : ℕ) (h : Heard) (s : ServerState) → is_deaf (ears conn s) ≡ false → IsOpening h
        → IsOnePut conn (after (Hears conn h) s) }
    ensures answers { (asker : Asker) (answer : Reply) (s : ServerState) (c : Conn) → conn_at asker.conn s.conns ≡ Some c
        → IsOnePut asker.conn (replied asker answer s) }
{}

/// The quiet beginning of a connection. Where no connection is there when it is opened, no Publish waits; and from there
/// until the first Publish is taken, whatever else happens, no Publish response is put, so no message of a subscription,
/// and each subscription that is still there keeps the same messages as at the beginning, or was made since then and
/// keeps none. So a good result of TransferSubscriptions tells the numbers of what was kept at the beginning (OPC
/// 10000-4, 5.13.7), and a Republish is answered by the message that was kept under its number then (5.13.6); or by a
/// fault, which says that the connection has no such session, that this has no such subscription any more, or that
/// nothing was kept under the number.
pub fn beginnings_are_quiet()
    ensures alone { (config : ServerConfig) (current : List Change) (earlier : List Happening)
        → let s = state_after earlier (new_server config current) in s.conns ≡ [] → NoneWaits s }
    ensures stays { (config : ServerConfig) (current : List Change) (earlier later : List Happening)
        → let s = state_after earlier (new_server config current) in
        NoneWaits s → HearNoPublish later → IsQuietSince s (life_of later s) }
    ensures transferred { (config : ServerConfig) (current : List Change) (earlier later : List Happening)
        (conn number : ℕ) (body : List ℕ) (r : TransferSubscriptionsRequest)
        → let s = state_after earlier (new_server config current) in let now = state_after later s in
        NoneWaits s → HearNoPublish later → is_deaf (ears conn now) ≡ false
        → request_at body ≡ Ok (request.Subscription (sub_request.TransferSubscriptions r))
        → IsAnsweredBy Never (TransfersKept r s) conn number (after (Hears conn (heard.Message number body)) now) }
    ensures republished { (config : ServerConfig) (current : List Change) (earlier later : List Happening)
        (conn number : ℕ) (body : List ℕ) (r : RepublishRequest)
        → let s = state_after earlier (new_server config current) in let now = state_after later s in
        NoneWaits s → HearNoPublish later → is_deaf (ears conn now) ≡ false
        → request_at body ≡ Ok (request.Subscription (sub_request.Republish r))
        → IsAnsweredBy Never (RepeatsKept conn r s now) conn number (after (Hears conn (heard.Message number body)) now) }
    ensures joined { (earlier later : List Happening) (s : ServerState)
        → state_after (later ++ earlier) s ≡ state_after later (state_after earlier s) }
{}

/// The connections that are there are those that were opened under a number above all before, and weren't closed since,
/// in this order; nothing else changes which are there. So their numbers rise, and none is above the highest that was
/// opened.
pub fn connections_are_those_opened()
    ensures numbers { (happening : Happening) (s : ServerState)
        → conn_numbers (after happening s).state ≡ numbers_after happening s }
    ensures highest { (happening : Happening) (s : ServerState)
        → (after happening s).state.highest ≡ highest_after happening s }
    ensures rise { (happening : Happening) (s : ServerState) → RiseTo s.highest (conn_numbers s)
        → RiseTo (after happening s).state.highest (conn_numbers (after happening s).state) }
    ensures life { (config : ServerConfig) (current : List Change) (happenings : List Happening)
        → let s = state_after happenings (new_server config current) in RiseTo s.highest (conn_numbers s) }
{}

/// A subscription that a TransferSubscriptions gives with a good result is the session's (OPC 10000-4, 5.13.7). A session
/// that owns a subscription owns it until a TransferSubscriptions takes it, or the subscription is no more, or the
/// session is no more. So where a session that got a subscription so asks for something of it, and is told that it has
/// no such one, though no other transfer took it, then the subscription is no more.
pub fn owners_keep_their_subscriptions()
    ensures given { (config : ServerConfig) (current : List Change) (earlier : List Happening)
        (conn number : ℕ) (body : List ℕ) (r : TransferSubscriptionsRequest)
        → let s = state_after earlier (new_server config current) in
        let did = after (Hears conn (heard.Message number body)) s in
        is_deaf (ears conn s) ≡ false
        → request_at body ≡ Ok (request.Subscription (sub_request.TransferSubscriptions r))
        → IsAnsweredBy Anywhere (GivesOwner conn r s did.state) conn number did }
    ensures kept { (config : ServerConfig) (current : List Change) (earlier later : List Happening) (session id : ℕ)
        (sub : SubState) → let s = state_after earlier (new_server config current) in
        owns session id s ≡ true → lives session s.sessions.sessions ≡ true → sub_at id s.subs ≡ Some sub
        → NeverMoved id later → StillOwns session id (state_after later s) }
    ensures gone { (conn session id : ℕ) (token : Option (List ℕ)) (now : ServerState) → StillOwns session id now
        → check_answer token conn now.sessions ≡ Ok session → own_sub session id now ≡ None
        → sub_at id now.subs ≡ None }
{}
