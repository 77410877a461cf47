//! What a server puts, where what it takes keeps the limits.
ghost use Rattle.std.specs.Prelude.{◌≡◌, ◌<◌, ◌^◌, ℕ, List, None, Bool, true};
ghost use Rattle.std.specs.List.{AllByRecursion};
ghost use Rattle.set_model.specs.declared.source.Change.{Change};
ghost use Rattle.ua_chunks.specs.Sending.{Sending, limit_of};
ghost use Rattle.ua_channel.specs.State.{first_sending};
ghost use Rattle.ua_channel.specs.declared.heard.Heard.TheVariants as heard;
ghost use Rattle.ua_session_msgs.specs.declared.channel.OpenSecureChannelRequest.{OpenSecureChannelRequest};
ghost use Rattle.ua_session_msgs.specs.declared.request.SessionRequest.TheVariants as session_request;
ghost use Rattle.ua_session_msgs.specs.Structures.{an_open_secure_channel_request};
ghost use Rattle.ua_services.specs.declared.request.Request.{Request};
ghost use Rattle.ua_services.specs.declared.request.Request.TheVariants as request;
ghost use Rattle.ua_services.specs.Families.{request_put, written_request};
ghost use Rattle.ua_services.specs.Requests.{is_service};
ghost use Rattle.server_rules.specs.declared.config.ServerConfig.{ServerConfig};
ghost use Rattle.server_rules.specs.State.{ServerState, conn_at, new_server};
ghost use Rattle.server_rules.specs.Step.{Happening, Opens, after};
ghost use Rattle.server_rules.specs.Acts.{history, state_after};
ghost use Rattle.server_keeps.specs.Again.{IsReadAgain};
ghost use Rattle.server_keeps.specs.Fitting.{FitsChange, FitsConfig, FitsHappening, FitsHeard, FitsServer, KeepsAct, KeepsDid};
ghost use Rattle.server_keeps.specs.Lawful.{HasLimit, IsLawfulOn, OpensOther};

/// A server that begins with a config and current values that fit, fits; and where it fits and what happens to it does,
/// it fits afterwards, and all that it says keeps the limits: each reply does (and each notification in the message that
/// a reply brings), each greeting, and the numbers of each message. So it is of a whole life, whatever happens in it: a
/// request is taken that keeps the limits, or a body that is none; an item is fed a change; time goes by.
pub fn what_is_put_keeps_the_limits()
    ensures first { (config : ServerConfig) (current : List Change) → FitsConfig config
        → AllByRecursion FitsChange current → FitsServer (new_server config current) }
    ensures step { (happening : Happening) (s : ServerState) → FitsServer s → FitsHappening happening
        → KeepsDid (after happening s) }
    ensures state { (config : ServerConfig) (current : List Change) (happenings : List Happening) → FitsConfig config
        → AllByRecursion FitsChange current → AllByRecursion FitsHappening happenings
        → FitsServer (state_after happenings (new_server config current)) }
    ensures life { (config : ServerConfig) (current : List Change) (happenings : List Happening) → FitsConfig config
        → AllByRecursion FitsChange current → AllByRecursion FitsHappening happenings
        → AllByRecursion KeepsAct (history happenings (new_server config current)) }
{}

/// So whatever a server puts in such a life is read again as what it is: a reply's body gives the reply, an ACK's the
/// greeting, an ERR's the code, and each object in a subscription's message its notification.
pub fn what_is_put_is_read_again()
    ensures { (config : ServerConfig) (current : List Change) (happenings : List Happening) → FitsConfig config
        → AllByRecursion FitsChange current → AllByRecursion FitsHappening happenings
        → AllByRecursion IsReadAgain (history happenings (new_server config current)) }
{
    ua_services::replies_are_read_again();
    ua_sub_msgs::notifications_are_held();
    ua_chunks::greetings_are_read();
}

/// The orders that a server gives for a connection are those that its end may be given: messages of numbers of 32 bits,
/// each within the limits that the other end named, and the limits themselves. A new end has the limits that the server
/// knows of it, and what happens next leaves it so.
pub fn orders_are_lawful()
    ensures opens { (number : ℕ) (s : ServerState) → conn_at number s.conns ≡ None
        → HasLimit number (limit_of first_sending) (after (Opens number) s).state }
    ensures step { (number : ℕ) (sending : Sending) (happening : Happening) (s : ServerState) → FitsServer s
        → FitsHappening happening → OpensOther number happening → HasLimit number (limit_of sending) s
        → IsLawfulOn number sending (after happening s) }
{}

/// A request that keeps the limits fits where it is taken: in a message, and that for a secure channel in an OPN.
pub fn requests_that_keep_fit()
    ensures message { (number : ℕ) (r : Request) → number < 2 ^ 32 → (request_put r).keeps
        → is_service (request_put r).kind ≡ true → FitsHeard (heard.Message number (written_request r)) }
    ensures opening { (channel : ℕ) (follows : Bool) (number : ℕ) (r : OpenSecureChannelRequest) → number < 2 ^ 32
        → an_open_secure_channel_request.keeps r
        → FitsHeard (heard.Opening channel follows number
        (written_request (request.Session (session_request.OpenSecureChannel r)))) }
{
    ua_services::requests_are_read_again();
    ua_session_msgs::session_requests_are_lawful();
}
