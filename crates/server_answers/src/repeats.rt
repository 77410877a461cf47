//! Messages that are said again.
ghost use Rattle.std.specs.Prelude.{◌≡◌, ◌∷◌, ◌++◌, [], ℕ, List, Some};
ghost use Rattle.std.specs.List.{AllByRecursion};
ghost use Rattle.set_model.specs.declared.source.Change.{Change};
ghost use Rattle.ua_chunks.specs.Assembly.{Tokens};
ghost use Rattle.ua_channel.specs.declared.ear.Ear.{Ear};
ghost use Rattle.ua_channel.specs.declared.heard.Heard.{Heard};
ghost use Rattle.ua_channel.specs.Messages.{hearing_of};
ghost use Rattle.ua_channel.specs.Orders.{puts_of};
ghost use Rattle.ua_channel.specs.Sharing.{own};
ghost use Rattle.ua_channel.specs.State.{WireState};
ghost use Rattle.ua_sub_msgs.specs.declared.publish.RepublishResponse.{RepublishResponse};
ghost use Rattle.ua_sub_msgs.specs.declared.reply.SubReply.TheVariants as sub_reply;
ghost use Rattle.ua_services.specs.declared.reply.Reply.TheVariants as reply;
ghost use Rattle.server_rules.specs.declared.config.ServerConfig.{ServerConfig};
ghost use Rattle.server_rules.specs.State.{new_server};
ghost use Rattle.server_rules.specs.Said.{orders_of};
ghost use Rattle.server_rules.specs.Step.{Happening, Hears, after};
ghost use Rattle.server_rules.specs.Acts.{state_after};
ghost use Rattle.server_keeps.specs.Fitting.{FitsChange, FitsConfig, FitsHappening};
ghost use Rattle.link_laws.specs.Taken.{heard_reply};
ghost use Rattle.server_answers.specs.Repeats.{WasKeptThen};
ghost use Rattle.server_answers.specs.Turns.{IsAnswer};

/// Where something is heard in a server's life, and the one message that is put on its connection then is heard, by whatever
/// end, as a Republish response, a Republish request was heard, and the subscription that it names kept the message of
/// the response under the number that was asked for when the request was heard (OPC 10000-4, 5.13.6). So a HEL, an OPN, a
/// fault and any other request get no such response.
pub fn repeated_messages_were_kept_then()
    ensures step { (config : ServerConfig) (current : List Change) (happenings : List Happening) (conn : ℕ) (h : Heard)
        (wire : WireState) (e : Ear) (tokens : Tokens) (response : RepublishResponse) (later earlier : List Happening)
        → let s = new_server config current in
        FitsConfig config → AllByRecursion FitsChange current → AllByRecursion FitsHappening happenings
        → happenings ≡ later ++ Hears conn h ∷ earlier
        → puts_of (own conn (orders_of (after (Hears conn h) (state_after earlier s)).said)) ≡ wire ∷ []
        → heard_reply (hearing_of e wire tokens).heard ≡ Some (reply.Subscription (sub_reply.Republish response))
        → WasKeptThen h response.notification_message (state_after earlier s) }
    ensures answered { (config : ServerConfig) (current : List Change) (happenings : List Happening) (conn place : ℕ)
        (wire : WireState) (e : Ear) (tokens : Tokens) (response : RepublishResponse)
        → let s = new_server config current in
        (x : IsAnswer conn place wire happenings s)
        → FitsConfig config → AllByRecursion FitsChange current → AllByRecursion FitsHappening happenings
        → heard_reply (hearing_of e wire tokens).heard ≡ Some (reply.Subscription (sub_reply.Republish response))
        → WasKeptThen x.heard response.notification_message (state_after x.earlier s) }
{
    server_laws::lives_are_steps();
    server_laws::subscriptions_are_calls();
    server_keeps::what_is_put_is_read_again();
    server_tellings::repeated_messages_were_sent();
}
