//! Laws of ends, for any core, each the contract of a function that does nothing.

ghost use Rattle.std.specs.Prelude.{[], ◌≡◌, ◌⊎◌, ℕ, List, ◌++◌, true};
ghost use Rattle.ua_channel.specs.Arriving.{AreLawful, Arrive, Chain, Expects, Follows, Mirrors, Sent, after_sent, bytes_of};
ghost use Rattle.ua_channel.specs.Arriving.{HearsFront, heard_all, heard_in, heard_next};
ghost use Rattle.ua_channel.specs.declared.wire.Order.{Order};
ghost use Rattle.ua_channel.specs.Messages.{MessageState, message_after, no_tokens, obeyed_messages};
ghost use Rattle.ua_channel.specs.Messages.{settled_messages};
ghost use Rattle.ua_channel.specs.Node.{Deafens, NodeState, deaf, node_after, node_of, settled};
ghost use Rattle.ua_channel.specs.Orders.{obeyed_all};
ghost use Rattle.ua_channel.specs.State.{new_channel};
ghost use Rattle.ua_channel.specs.declared.side.Side.{Side};

use crate::node::Core;

/// How a stream is cut into pieces doesn't matter, for any core that a fault makes deaf: two pieces are one.
pub fn pieces_are_one<C: Core>()
    ensures { (conn : ℕ) (first second : List ℕ) (n : NodeState C) → Deafens (C.ears conn) (C.answer conn)
        → node_after (C.ears conn) (C.answer conn) (first ++ second) n
        ≡ node_after (C.ears conn) (C.answer conn) second (node_after (C.ears conn) (C.answer conn) first n) }
{}

/// Messages that an end put, each with its own sender, come to the other end as they were put, whatever came before
/// them: the core hears each of them once, in their order, before the next one. Of the end nothing is asked but that it
/// awaits their numbers: a message of another channel, with a token that isn't taken, or of a kind that isn't, is heard
/// as the fault that it is.
pub fn messages_are_heard<C: Core>()
    ensures { (conn : ℕ) (sent : List Sent) (n : NodeState C) → Deafens (C.ears conn) (C.answer conn)
        → Arrive (C.ears conn) (C.answer conn) sent n
        → node_after (C.ears conn) (C.answer conn) (bytes_of sent) n
        ≡ heard_all (C.ears conn) (C.answer conn) sent n }
{}

/// Of some first bytes of these messages the core hears the first of the messages, as they were put, and nothing else:
/// no fault, whatever of the next message has come.
pub fn fronts_are_heard<C: Core>()
    ensures { (conn : ℕ) (front more : List ℕ) (sent : List Sent) (n : NodeState C)
        → Deafens (C.ears conn) (C.answer conn) → Arrive (C.ears conn) (C.answer conn) sent n
        → front ++ more ≡ bytes_of sent → HearsFront (C.ears conn) (C.answer conn) front sent n }
{}

/// An end that hears a message, and isn't deaf then, awaits the number after it.
pub fn numbers_go_on<C: Core>()
    ensures { (conn : ℕ) (m : Sent) (n : NodeState C) → Deafens (C.ears conn) (C.answer conn) → Follows m n.channel
        → (deaf (C.ears conn) (C.answer conn) (heard_next (C.ears conn) (C.answer conn) m n) ≡ true)
        ⊎ Expects (after_sent m).next (heard_next (C.ears conn) (C.answer conn) m n).channel }
{}

/// Messages whose numbers follow each other arrive at an end that is deaf, or awaits the first one's number: so all of
/// them are heard.
pub fn chains_arrive<C: Core>()
    ensures { (conn first next : ℕ) (sent : List Sent) (n : NodeState C) → Deafens (C.ears conn) (C.answer conn)
        → Chain first sent next
        → (deaf (C.ears conn) (C.answer conn) n ≡ true) ⊎ Expects first n.channel
        → Arrive (C.ears conn) (C.answer conn) sent n }
{}

/// An end over whole messages, without bytes, pieces and numbers, shows what the end over bytes does, step by step: the
/// same core, the same tokens, and of the messages put the bytes in their order. So it does where orders come from
/// elsewhere, where a deaf end is shut, and where the bytes are taken.
pub fn messages_show_bytes<C: Core>()
    ensures begin { (side : Side) (core : C) → Mirrors 1 (node_of core (new_channel side))
        (record { core = core; tokens = no_tokens; out = [] }) }
    ensures next { (conn : ℕ) (first : ℕ) (m : Sent) (n : NodeState C) (k : MessageState C)
        → Deafens (C.ears conn) (C.answer conn)
        → (deaf (C.ears conn) (C.answer conn) n ≡ true) ⊎ Follows m n.channel
        → AreLawful (C.answer conn (heard_in (C.ears conn) (C.answer conn) m n) n.core).1 n.channel.sending
        → Mirrors first n k
        → Mirrors first (heard_next (C.ears conn) (C.answer conn) m n)
        (message_after (C.ears conn) (C.answer conn) m.wire k) }
    ensures ordered { (first : ℕ) (orders : List Order) (n : NodeState C) (k : MessageState C)
        → AreLawful orders n.channel.sending → Mirrors first n k
        → Mirrors first (record n { channel = obeyed_all orders n.channel }) (obeyed_messages orders k) }
    ensures shut { (conn : ℕ) (first : ℕ) (n : NodeState C) (k : MessageState C) → Mirrors first n k
        → Mirrors first (settled (C.ears conn) (C.answer conn) n) (settled_messages (C.ears conn) (C.answer conn) k) }
    ensures taken { (first : ℕ) (n : NodeState C) (k : MessageState C) → Mirrors first n k
        → Mirrors n.channel.sending.next (record n { channel = record n.channel { out = [] } })
        (record k { out = [] }) }
{}
