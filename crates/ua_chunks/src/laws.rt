//! Laws of frames and framers, each the contract of a function that does nothing.

ghost use Rattle.std.specs.Prelude.{[], ◌∷◌, ◌≡◌, ◌<◌, ◌≤◌, ◌+◌, ◌^◌, ◌↔◌, ◌⊎◌, ℕ, List, ◌++◌};
ghost use Rattle.std.specs.Prelude.{length, map, false, true, Option, None, Some, Ok, Err, All};
ghost use Rattle.std.specs.List.{AllByRecursion, concat, flat_map};
ghost use Rattle.ua_base.specs.Number.{after_chunk};
ghost use Rattle.ua_base.specs.Status.{bad_secure_channel_token_unknown, bad_sequence_number_invalid};
ghost use Rattle.ua_base.specs.Status.{bad_tcp_secure_channel_unknown};
ghost use Rattle.ua_values.specs.Laws.{IsLawful};
ghost use Rattle.ua_values.specs.Reading.{input};
ghost use Rattle.ua_chunks.specs.declared.frame.Chunk.TheVariants as chunk;
ghost use Rattle.ua_chunks.specs.declared.frame.Frame.{Frame};
ghost use Rattle.ua_chunks.specs.declared.frame.Kind.{Kind};
ghost use Rattle.ua_chunks.specs.declared.frame.Kind.TheVariants as kind;
ghost use Rattle.ua_chunks.specs.declared.greeting.Greeting.{Greeting};
ghost use Rattle.ua_chunks.specs.declared.message.MessageFault.{MessageFault};
ghost use Rattle.ua_chunks.specs.Arrival.{ArePut, BeginsWith, InStep, IsPut, Put, after_all, all_put, frames_put};
ghost use Rattle.ua_chunks.specs.Arrival.{message_put, opn_put, placed};
ghost use Rattle.ua_chunks.specs.Assembly.{Assembly, Breaks, Drops, Ended, HasFirstFault, IsIdle, IsMiddle, Leads};
ghost use Rattle.ua_chunks.specs.Assembly.{RefusesFirst, Tokens, assembled, fault_after, head_of, messages_of};
ghost use Rattle.ua_chunks.specs.Assembly.{new_assembly};
ghost use Rattle.ua_chunks.specs.Assembly.{own_bytes, renewed, takes_number, takes_token, tokens_of, used, with_number};
ghost use Rattle.ua_chunks.specs.Bodies.{KeepsGreeting, KeepsHello, KeepsOpnHead, error, error_at, greeting};
ghost use Rattle.ua_chunks.specs.Bodies.{greeting_at, hello, hello_at, opn_head, opn_head_at, opn_of, policy_at};
ghost use Rattle.ua_chunks.specs.Bodies.{value_of, whole_at, written_error, written_greeting, written_hello};
ghost use Rattle.ua_chunks.specs.Bodies.{written_opn_head};
ghost use Rattle.ua_chunks.specs.Frames.{BreaksRule, Split, fault_of, framed, moved};
ghost use Rattle.ua_chunks.specs.Framing.{Brings, Framing, IsBetween, StandsAt, Stays, after_feed, fed, frames_of};
ghost use Rattle.ua_chunks.specs.Framing.{given, new_framing};
ghost use Rattle.ua_chunks.specs.Sending.{IsSending, Sending, after_put, new_sending, none_policy, opn_part};
ghost use Rattle.ua_chunks.specs.Sending.{parts_of, put_bytes, whole_part, part_bytes, with_limits};
ghost use Rattle.ua_chunks.specs.Traffic.{Action, AreAllowed, Comes, Event, FramesBegin, HeardFault, IsDeaf};
ghost use Rattle.ua_chunks.specs.Traffic.{actions_bytes, after_actions, all_heard, all_tokens, events_of, frames_in};
ghost use Rattle.ua_chunks.specs.Traffic.{heard, hearing, said_by};
ghost use Rattle.ua_chunks.specs.Streams.{AreFrom, IsFramed, after_frames, all_bytes};

/// The frames of bytes are the longest list of frames that the bytes begin with: the frames' bytes and the rest are the
/// bytes, no frame begins the rest, and no other list is so. The fault is that of the first eight bytes of the rest
/// (OPC 10000-6, 7.1.2.2).
pub fn frames_are_the_longest()
    ensures framed { (place : ℕ) (bytes : List ℕ) → place < 2 ^ 64 → All (λ byte. byte < 256) bytes
        → IsFramed place bytes (framed place bytes) }
    ensures only { (place : ℕ) (bytes : List ℕ) (split : Split) → place < 2 ^ 64 → All (λ byte. byte < 256) bytes
        → IsFramed place bytes split → split ≡ framed place bytes }
    ensures fault { (rest : List ℕ) (code : ℕ) → (fault_of rest ≡ Some code) ↔ BreaksRule rest code }
{}

/// What was written as frames is read as these frames, whatever follows; fed to a framer that holds nothing, they are
/// what comes out.
pub fn frames_are_read_again()
    ensures framed { (place : ℕ) (frames : List Frame) (more : List ℕ) → place < 2 ^ 64 → AreFrom place frames
        → framed place (all_bytes frames ++ more)
        ≡ after_frames frames (framed (moved place (length (all_bytes frames))) more) }
    ensures fed { (frames : List Frame) (s : Framing) → IsBetween s → AreFrom s.place frames
        → Brings frames (all_bytes frames) s }
{}

/// How a stream is cut into pieces doesn't matter: after any calls the frames, the place, the fault and the rest are
/// those of all bytes.
pub fn pieces_are_one()
    ensures state { (first second : List ℕ) (s : Framing)
        → after_feed (first ++ second) s ≡ after_feed second (after_feed first s) }
    ensures frames { (first second : List ℕ) (s : Framing)
        → frames_of (first ++ second) s ≡ frames_of first s ++ frames_of second (after_feed first s) }
    ensures all { (pieces : List (List ℕ)) → given pieces new_framing ≡ (framed 0 (concat pieces)).frames }
    ensures stands { (pieces : List (List ℕ)) → StandsAt (framed 0 (concat pieces)) (fed pieces new_framing) }
{}

/// A framer that has found a fault finds the same one whatever comes, and no more frames.
pub fn faults_stay()
    ensures framer { (bytes : List ℕ) (s : Framing) (code : ℕ) → fault_of s.held ≡ Some code → Stays bytes code s }
    ensures assembler { (frames : List Frame) (fault : MessageFault) (a : Assembly)
        → a.fault ≡ Some fault → Ended frames fault a }
{}

/// Where some of the frames break a rule, the first that does ends it all: the messages are those of the frames before
/// it, and then comes its fault, whatever follows.
pub fn messages_come_before_a_fault()
    ensures breaks { (before later : List Frame) (f : Frame) (fault : MessageFault) (a : Assembly)
        → fault_after f (assembled before a) ≡ Some fault
        → Breaks (before ++ f ∷ later) (messages_of before a) fault a }
    ensures first { (frames : List Frame) (fault : MessageFault) (a : Assembly) → a.fault ≡ None
        → (assembled frames a).fault ≡ Some fault → HasFirstFault frames fault a }
{}

/// Of what comes without a fault each front comes without one, and makes a front of what all makes: of the bytes that
/// a framer is fed, and of the frames that an assembler takes.
pub fn fronts_are_sound()
    ensures framer { (front more : List ℕ) (s : Framing) → fault_of (after_feed (front ++ more) s).held ≡ None
        → fault_of (after_feed front s).held ≡ None }
    ensures assembler { (first second : List Frame) (a : Assembly) → (assembled (first ++ second) a).fault ≡ None
        → (assembled first a).fault ≡ None }
    ensures messages { (first second : List Frame) (a : Assembly)
        → messages_of (first ++ second) a ≡ messages_of first a ++ messages_of second (assembled first a) }
{}

/// Which sequence number follows which: the next one, or, after one of the last 1024 numbers of 32 bits, one of the
/// first 1024 (OPC 10000-6, 6.7.2.4). The number that a sender takes next always follows.
pub fn numbers_follow()
    ensures rule { (number last : ℕ) → (takes_number number (Some last) ≡ true)
        ↔ ((number ≡ last + 1) ⊎ ((4294966271 < last) × (number < 1024))) }
    ensures next { (number : ℕ) → takes_number (after_chunk number) (Some number) ≡ true }
{}

/// Middle chunks and a final one, of which none breaks a rule, make one message: of the final one's request, and with
/// the bytes of all of them, one after the other. With an abort chunk in place of the final one they make none
/// (OPC 10000-6, 6.7.2.2 and 6.7.3).
pub fn chunks_make_a_message()
    ensures message { (frames : List Frame) (last : Frame) (a : Assembly) → IsIdle a → AllByRecursion IsMiddle frames
        → last.chunk ≡ chunk.Final → (assembled (frames ++ last ∷ []) a).fault ≡ None
        → messages_of (frames ++ last ∷ []) a
        ≡ record { request = (head_of last.body).request; body = flat_map own_bytes (frames ++ last ∷ []) } ∷ [] }
    ensures aborted { (frames : List Frame) (last : Frame) (a : Assembly) → AllByRecursion IsMiddle frames
        → last.chunk ≡ chunk.Abort → (assembled (frames ++ last ∷ []) a).fault ≡ None → Drops (frames ++ last ∷ []) a }
{}

/// What a sender put arrives: from any place of a stream on, whatever follows, the frames of a list of messages are
/// found as such, none larger than the sender's size, and an assembler in step makes of them these messages, in their
/// order, and is in step again. So however the bytes are cut, a new framer and a new assembler give what a new sender
/// of the same channel and token put. Each frame of a message but its last makes nothing, and the last makes the
/// message; a front of the bytes gives a front of the frames and of the messages.
pub fn what_is_put_arrives()
    ensures frames { (place : ℕ) (messages : List Put) (s : Sending) (more : List ℕ)
        → place < 2 ^ 64 → IsSending s → ArePut messages s → framed place (all_put messages s ++ more)
        ≡ after_frames (frames_put place messages s) (framed (moved place (length (all_put messages s))) more) }
    ensures sizes { (place : ℕ) (messages : List Put) (s : Sending) → IsSending s → ArePut messages s
        → AllByRecursion (λ frame. 8 + length frame.body ≤ s.size) (frames_put place messages s) }
    ensures messages { (place : ℕ) (messages : List Put) (s : Sending) (a : Assembly)
        → IsSending s → InStep s a → ArePut messages s
        → messages_of (frames_put place messages s) a ≡ map message_put messages }
    ensures in_step { (place : ℕ) (messages : List Put) (s : Sending) (a : Assembly)
        → IsSending s → InStep s a → ArePut messages s
        → InStep (after_all messages s) (assembled (frames_put place messages s) a) }
    ensures sending { (place : ℕ) (messages : List Put) (s : Sending) → IsSending s → ArePut messages s
        → IsSending (after_all messages s) }
    ensures fed { (messages : List Put) (s : Sending) (f : Framing) → IsBetween f → IsSending s → ArePut messages s
        → Brings (frames_put f.place messages s) (all_put messages s) f }
    ensures leads { (place : ℕ) (m : Put) (s : Sending) (a : Assembly) → IsSending s → InStep s a → IsPut m s
        → Leads (placed place (parts_of m.kind m.request m.body s)) (message_put m) a }
    ensures tokens { (place : ℕ) (m : Put) (s : Sending) (a : Assembly) → IsSending s → InStep s a → IsPut m s
        → tokens_of (assembled (placed place (parts_of m.kind m.request m.body s)) a) ≡ used s.token (tokens_of a) }
    ensures front { (front more : List ℕ) (messages : List Put) (s : Sending) (f : Framing) (a : Assembly)
        → IsBetween f → IsSending s → InStep s a → ArePut messages s → front ++ more ≡ all_put messages s
        → BeginsWith front (frames_put f.place messages s) (map message_put messages) f a }
    ensures whole { (pieces : List (List ℕ)) (messages : List Put) (channel token size max_message max_chunks : ℕ)
        → channel < 2 ^ 32 → token < 2 ^ 32 → 8192 ≤ size
        → ArePut messages (new_sending channel token size max_message max_chunks)
        → concat pieces ≡ all_put messages (new_sending channel token size max_message max_chunks)
        → messages_of (given pieces new_framing) (new_assembly channel token) ≡ map message_put messages }
{}

/// The first chunk of a message that came by another channel, or with a token that isn't taken, is refused with the
/// code that says so, and so is one whose number doesn't follow; nothing comes after it.
pub fn foreign_chunks_are_refused()
    ensures channel { (place : ℕ) (m : Put) (s : Sending) (a : Assembly) → IsSending s → IsPut m s → a.fault ≡ None
        → (s.channel ≡ a.channel → ⊥)
        → RefusesFirst (placed place (parts_of m.kind m.request m.body s))
        (record { place = place; code = bad_tcp_secure_channel_unknown }) a }
    ensures token { (place : ℕ) (m : Put) (s : Sending) (a : Assembly) → IsSending s → IsPut m s → a.fault ≡ None
        → s.channel ≡ a.channel → takes_token s.token a ≡ false
        → RefusesFirst (placed place (parts_of m.kind m.request m.body s))
        (record { place = place; code = bad_secure_channel_token_unknown }) a }
    ensures number { (place : ℕ) (m : Put) (s : Sending) (a : Assembly) → IsSending s → IsPut m s → a.fault ≡ None
        → s.channel ≡ a.channel → takes_token s.token a ≡ true → takes_number s.next a.last ≡ false
        → RefusesFirst (placed place (parts_of m.kind m.request m.body s))
        (record { place = place; code = bad_sequence_number_invalid }) a }
{}

/// An OPN that a sender put is one frame, no larger than the sender's size, is read as it was put, and an assembler
/// that takes its number stays in step.
pub fn an_opn_is_read()
    ensures frame { (place request : ℕ) (body more : List ℕ) (s : Sending)
        → place < 2 ^ 64 → IsSending s → length body ≤ 4096 → framed place (put_bytes kind.Opn request body s ++ more)
        ≡ after_frames (placed place (opn_part request body s ∷ []))
        (framed (moved place (length (put_bytes kind.Opn request body s))) more) }
    ensures long { (request : ℕ) (body : List ℕ) (s : Sending)
        → length (opn_part request body s).body ≡ 71 + length body }
    ensures size { (request : ℕ) (body : List ℕ) (s : Sending) → IsSending s → length body ≤ 4096
        → 8 + length (opn_part request body s).body ≤ s.size }
    ensures fed { (request : ℕ) (body : List ℕ) (s : Sending) (f : Framing) → IsBetween f → length body ≤ 4096
        → Brings (placed f.place (opn_part request body s ∷ [])) (put_bytes kind.Opn request body s) f }
    ensures policy { (request : ℕ) (body : List ℕ) (s : Sending) → IsSending s → request < 2 ^ 32
        → value_of (policy_at (input 0 (opn_part request body s).body)) ≡ Ok (Some none_policy) }
    ensures read { (request : ℕ) (body : List ℕ) (s : Sending) → IsSending s → request < 2 ^ 32
        → opn_of (opn_head_at (input 0 (opn_part request body s).body)) ≡ Ok (opn_put request body s) }
    ensures in_step { (request : ℕ) (body : List ℕ) (s : Sending) (a : Assembly) → InStep s a
        → InStep (after_put kind.Opn request body s) (with_number s.next a) }
    ensures sending { (request : ℕ) (body : List ℕ) (s : Sending) → IsSending s
        → IsSending (after_put kind.Opn request body s) }
{}

/// A frame of one part that was written comes out as it is, and the bodies of HEL, ACK and ERR are read as they were
/// written.
pub fn greetings_are_read()
    ensures fed { (k : Kind) (body : List ℕ) (f : Framing) → IsBetween f → length body ≤ 65528
        → Brings (placed f.place (whole_part k body ∷ [])) (part_bytes (whole_part k body)) f }
    ensures hello { (g : Greeting) (url : Option (List ℕ)) → KeepsHello (g, url)
        → value_of (whole_at hello_at (input 0 (written_hello (g, url)))) ≡ Ok (g, url) }
    ensures ack { (g : Greeting) → KeepsGreeting g
        → value_of (whole_at greeting_at (input 0 (written_greeting g))) ≡ Ok g }
    ensures err { (code : ℕ) → code < 2 ^ 32
        → value_of (whole_at error_at (input 0 (written_error code))) ≡ Ok code }
{}

/// A new sender and a new assembler of one channel and token are in step. They stay so where both are renewed, where
/// the assembler's token is new and the sender's the former one of the same channel, where the sender then has what the
/// assembler awaits, and where the sender's limits change.
pub fn renewals_keep_step()
    ensures begin { (channel token size max_message max_chunks : ℕ)
        → InStep (new_sending channel token size max_message max_chunks) (new_assembly channel token) }
    ensures both { (channel token : ℕ) (s : Sending) (a : Assembly) → InStep s a
        → InStep (record s { channel = channel; token = token }) (renewed channel token a) }
    ensures former { (token : ℕ) (s : Sending) (a : Assembly) → InStep s a → s.token ≡ a.token
        → InStep s (renewed s.channel token a) }
    ensures end { (s : Sending) (a : Assembly) → InStep s a
        → InStep (record s { channel = a.channel; token = a.token }) a }
    ensures limits { (size max_message max_chunks : ℕ) (s : Sending) (a : Assembly) → InStep s a
        → InStep (with_limits size max_message max_chunks s) a }
{}

/// What is so of each sender: of a new one, of one that is renewed or has new limits, and of one that put something.
pub fn senders_stay_sound()
    ensures begin { (channel token size max_message max_chunks : ℕ) → channel < 2 ^ 32 → token < 2 ^ 32 → 8192 ≤ size
        → IsSending (new_sending channel token size max_message max_chunks) }
    ensures renewed { (channel token : ℕ) (s : Sending) → IsSending s → channel < 2 ^ 32 → token < 2 ^ 32
        → IsSending (record s { channel = channel; token = token }) }
    ensures limits { (size max_message max_chunks : ℕ) (s : Sending) → IsSending s → 8192 ≤ size
        → IsSending (with_limits size max_message max_chunks s) }
    ensures put { (k : Kind) (request : ℕ) (body : List ℕ) (s : Sending) → IsSending s
        → IsSending (after_put k request body s) }
{}

/// Everything that an end puts is heard as it was put: HEL, ACK, ERR, OPN, MSG and CLO in any order, while limits
/// change and channels are renewed, by both ends at once, first by the one that hears, or by an OPN. The bytes are
/// these frames, however they are cut, and a front of them is a front of the frames, without a fault; what is heard of
/// a front of the frames and renewals is a front of what is heard of all. Where a frame breaks a rule, what came before
/// it is heard, then the fault, and then nothing.
pub fn everything_put_is_heard()
    ensures fed { (actions : List Action) (s : Sending) (t : Tokens) (f : Framing)
        → IsBetween f → IsSending s → AreAllowed actions s t
        → Brings (frames_in (events_of f.place actions s)) (actions_bytes actions s) f }
    ensures heard { (place : ℕ) (actions : List Action) (s : Sending) (a : Assembly)
        → IsSending s → InStep s a → AreAllowed actions s (tokens_of a)
        → heard (events_of place actions s) a ≡ all_heard actions s }
    ensures in_step { (place : ℕ) (actions : List Action) (s : Sending) (a : Assembly)
        → IsSending s → InStep s a → AreAllowed actions s (tokens_of a)
        → InStep (after_actions actions s) (hearing (events_of place actions s) a) }
    ensures tokens { (place : ℕ) (actions : List Action) (s : Sending) (a : Assembly)
        → IsSending s → InStep s a → AreAllowed actions s (tokens_of a)
        → tokens_of (hearing (events_of place actions s) a) ≡ all_tokens actions s (tokens_of a) }
    ensures sending { (actions : List Action) (s : Sending) (t : Tokens) → IsSending s → AreAllowed actions s t
        → IsSending (after_actions actions s) }
    ensures front { (front more : List ℕ) (actions : List Action) (s : Sending) (t : Tokens) (f : Framing)
        → IsBetween f → IsSending s → AreAllowed actions s t → front ++ more ≡ actions_bytes actions s
        → FramesBegin front (frames_in (events_of f.place actions s)) f }
    ensures parts { (first second : List Event) (a : Assembly)
        → heard (first ++ second) a ≡ heard first a ++ heard second (hearing first a) }
    ensures broken { (first later : List Event) (f : Frame) (code : ℕ) (a : Assembly)
        → (hearing first a).fault ≡ None → said_by f.kind f (hearing first a) ≡ Err code
        → heard (first ++ Comes f ∷ later) a
        ≡ heard first a ++ HeardFault (record { place = f.place; code = code }) ∷ [] }
    ensures deaf { (events : List Event) (fault : MessageFault) (a : Assembly) → a.fault ≡ Some fault
        → IsDeaf events fault a }
{}

/// HEL, ACK, ERR and the front of an OPN: no spelling is a proper front of another, and what is written is read again.
pub fn bodies_are_lawful()
    ensures hello { IsLawful KeepsHello hello hello_at written_hello }
    ensures ack { IsLawful KeepsGreeting greeting greeting_at written_greeting }
    ensures err { IsLawful (λ code. code < 2 ^ 32) error error_at written_error }
    ensures opn { IsLawful KeepsOpnHead opn_head opn_head_at written_opn_head }
{}
