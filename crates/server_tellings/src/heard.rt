//! What is heard of a server's messages.
ghost use Rattle.std.specs.Prelude.{◌≡◌, ℕ, List, Some};
ghost use Rattle.std.specs.List.{AllByRecursion};
ghost use Rattle.set_model.specs.declared.source.Change.{Change};
ghost use Rattle.ua_chunks.specs.Assembly.{Tokens};
ghost use Rattle.ua_channel.specs.declared.ear.Ear.{Ear};
ghost use Rattle.ua_channel.specs.Messages.{hearing_of};
ghost use Rattle.ua_channel.specs.State.{WireState};
ghost use Rattle.ua_sub_msgs.specs.declared.notification.MonitoredItemNotification.{MonitoredItemNotification};
ghost use Rattle.ua_services.specs.declared.reply.Reply.{Reply};
ghost use Rattle.server_rules.specs.declared.config.ServerConfig.{ServerConfig};
ghost use Rattle.server_rules.specs.State.{new_server};
ghost use Rattle.server_rules.specs.Step.{Happening};
ghost use Rattle.server_laws.specs.Course.{life_of, said_after};
ghost use Rattle.server_keeps.specs.Fitting.{FitsChange, FitsConfig, FitsHappening};
ghost use Rattle.link_rules.specs.State.{LinkState};
ghost use Rattle.link_rules.specs.Step as alone;
ghost use Rattle.link_laws.specs.Taken.{heard_reply};
ghost use Rattle.link_takings.specs.From.{IsPublished, IsRepublished};
ghost use Rattle.server_tellings.specs.Heard.{IsPutOn, IsReplySaid, WasRepeated, WasSent};

/// A reply that is heard of a message which a server's life put on a connection, by whatever end, is one that was said
/// there: as that message, in answer to a request.
pub fn what_is_heard_was_said()
    ensures { (config : ServerConfig) (current : List Change) (happenings : List Happening) (conn : ℕ) (wire : WireState)
        (e : Ear) (tokens : Tokens) (answer : Reply) → let all = said_after happenings (new_server config current) in
        FitsConfig config → AllByRecursion FitsChange current → AllByRecursion FitsHappening happenings
        → IsPutOn conn wire all → heard_reply (hearing_of e wire tokens).heard ≡ Some answer
        → IsReplySaid conn wire answer all }
{
    server_laws::lives_are_steps();
    server_keeps::what_is_put_is_read_again();
}

/// Data that are heard of such a message were sent: those of a Publish response as the message of this number of the
/// subscription that the response names, and those of a Republish response as a message that is sent again.
pub fn data_heard_were_sent()
    ensures published { (config : ServerConfig) (current : List Change) (happenings : List Happening) (conn : ℕ)
        (wire : WireState) (e : Ear) (tokens : Tokens) (id number : ℕ) (values : List MonitoredItemNotification)
        → let did = life_of happenings (new_server config current) in
        FitsConfig config → AllByRecursion FitsChange current → AllByRecursion FitsHappening happenings
        → IsPutOn conn wire did.said → IsPublished id number values (alone.Hears (hearing_of e wire tokens).heard)
        → WasSent id number values did }
    ensures republished { (config : ServerConfig) (current : List Change) (happenings : List Happening) (conn : ℕ)
        (wire : WireState) (e : Ear) (tokens : Tokens) (number : ℕ) (values : List MonitoredItemNotification) (l : LinkState)
        → let did = life_of happenings (new_server config current) in
        FitsConfig config → AllByRecursion FitsChange current → AllByRecursion FitsHappening happenings
        → IsPutOn conn wire did.said
        → IsRepublished number values (alone.Hears (hearing_of e wire tokens).heard) l
        → WasRepeated number values did }
{
    server_laws::lives_are_steps();
    server_keeps::what_is_put_is_read_again();
}
