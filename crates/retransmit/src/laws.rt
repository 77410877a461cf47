//! What any calls come to. Nothing here runs.
ghost use Rattle.std.specs.Prelude.{◌≡◌, ◌≤◌, ◌<◌, ◌==◌, ℕ, List, None, filter, length, if◌then◌else◌};
ghost use Rattle.retransmit.specs.Kept.{message_of};
ghost use Rattle.retransmit.specs.History.{AreNewest, Call, acknowledged, available, kept_after, last_sent, sendings_since, unacknowledged};

/// After any sendings and acknowledgements, told newest first, a number's message is kept exactly where the number was
/// sent, is not acknowledged since it was sent last, and since then never 64 others, sent after it, waited at once for
/// their acknowledgements; and it is the message that was sent last under the number (OPC 10000-4, 5.13.1.1). So the
/// message of a number is kept as long as others were sent fewer than 64 times since, and what is kept are always the
/// newest of the unacknowledged messages, each number once.
pub fn keeps_what_is_available<M: Drop>()
    ensures given { (number : ℕ) (history : List (Call M))
        → message_of number (kept_after history) ≡ available number history }
    ensures newest { (history : List (Call M)) → AreNewest (kept_after history) (unacknowledged history) }
    ensures recent { (number : ℕ) (history : List (Call M)) → sendings_since number history < 64
        → message_of number (kept_after history) ≡
        (if acknowledged number history then None else last_sent number history) }
    ensures single { (number : ℕ) (history : List (Call M))
        → length (filter (λ sent. sent.number == number) (kept_after history)) ≤ 1 }
{}
