//! What time brings: a silent server is left, levels are read and tokens renewed (OPC 10000-4, 5.5.2 and 6.6.2.4.2).

ghost use Rattle.std.specs.Prelude.{◌≡◌, OnOk};
ghost use Rattle.link_rules.specs.Time.{asked_for, is_level_due, is_overdue, is_renewal_due, is_silent, is_token_old, is_unanswered, keeps_up, reads_level, renews_token, ticked};
ghost use Rattle.link_turn.specs.Turns.{done};

use link_rules::{Asked, Phase, ReadyState, Setting};
use link_turn::{Link, Turn};
use std::alloc::Global;
use ua_base::OutOfMemory;

/// How long a reply is waited for, in milliseconds.
const REPLY_SPAN: u64 = 5_000;

/// How long a subscription may send nothing, in milliseconds: thrice its keep-alive interval.
const SILENCE: u64 = 3_000;

/// How long after one Read of the ServiceLevel the next one is sent, in milliseconds.
const LEVEL_SPAN: u64 = 1_000;

// ---- a server that doesn't answer

fn is_unanswered(asked: Option<Asked>, link: &Link) -> bool
    ensures { result ≡ is_unanswered asked link.now }
{
    match asked {
        None => false,
        Some(asked) => link.has_passed(REPLY_SPAN, asked.at),
    }
}

fn asked_for(setting: Option<Setting>) -> Option<Asked>
    ensures { result ≡ asked_for setting }
{
    match setting {
        None => None,
        Some(setting) => Some(setting.asked),
    }
}

/// Whether nothing came of the subscription for too long, or no reply to a request.
fn is_silent(ready: ReadyState, link: &Link) -> bool
    ensures { result ≡ is_silent ready link.now }
{
    link.has_passed(SILENCE, link.since())
        || is_unanswered(link.conversation().reading, link)
        || is_unanswered(link.conversation().renewal, link)
        || is_unanswered(asked_for(ready.setting), link)
}

fn is_overdue(link: &Link) -> bool
    ensures { result ≡ is_overdue link.now }
{
    match link.phase() {
        Phase::Idle => false,
        Phase::Ready(ready) => is_silent(*ready, link),
        _ => link.has_passed(REPLY_SPAN, link.since()),
    }
}

// ---- what is asked again and again

fn is_level_due(reading: Option<Asked>, link: &Link) -> bool
    ensures { result ≡ is_level_due reading link.now }
{
    match reading {
        Some(_) => false,
        None => link.has_passed(LEVEL_SPAN, link.conversation().read_at),
    }
}

/// Reads the ServiceLevel, where it is due.
#[tactic(auto, using(link_turn::proofs::Doing::done_nothing_of), unfolding(link_rules::specs::Time::reads_level))]
fn reads_level(alloc: Global, turn: &mut Turn) -> Result<(), OutOfMemory>
    ensures { OnOk result (turn.new ≡ done (reads_level turn.old.link) turn.old) }
{
    if is_level_due(turn.link().conversation().reading, turn.link()) {
        turn.read_level(alloc)
    } else {
        Ok(())
    }
}

/// Whether three quarters of the token's lifetime have passed.
fn is_token_old(link: &Link) -> bool
    ensures { result ≡ is_token_old link.now }
{
    let lifetime = u128::from(link.conversation().lifetime);
    let held = u128::from(link.age().saturating_sub(link.conversation().opened));
    3 * lifetime <= 4 * held
}

fn is_renewal_due(renewal: Option<Asked>, link: &Link) -> bool
    ensures { result ≡ is_renewal_due renewal link.now }
{
    match renewal {
        Some(_) => false,
        None => is_token_old(link),
    }
}

/// Asks for another token, where it is due.
#[tactic(auto, using(link_turn::proofs::Doing::done_nothing_of), unfolding(link_rules::specs::Time::renews_token))]
fn renews_token(alloc: Global, turn: &mut Turn) -> Result<(), OutOfMemory>
    ensures { OnOk result (turn.new ≡ done (renews_token turn.old.link) turn.old) }
{
    if turn.link().is_ready() && is_renewal_due(turn.link().conversation().renewal, turn.link()) {
        turn.renew_token(alloc)
    } else {
        Ok(())
    }
}

/// Reads the level and renews the token of a link that is ready.
#[tactic(auto, using(link_turn::proofs::Doing::done_then, link_turn::proofs::Doing::done_nothing_of), unfolding(link_rules::specs::Time::keeps_up))]
fn keeps_up(alloc: Global, turn: &mut Turn) -> Result<(), OutOfMemory>
    ensures { OnOk result (turn.new ≡ done (keeps_up turn.old.link) turn.old) }
{
    if turn.link().is_ready() {
        reads_level(alloc, turn)?;
        renews_token(alloc, turn)
    } else {
        Ok(())
    }
}

/// So many milliseconds went by.
///
/// # Errors
///
/// Want of memory. Nothing is said of what stands then.
#[tactic(auto, unfolding(link_rules::specs::Time::ticked))]
pub fn ticked(alloc: Global, turn: &mut Turn, ms: u32) -> Result<(), OutOfMemory>
    ensures { OnOk result (turn.new ≡ done (ticked ms turn.old.link) turn.old) }
{
    turn.age_by(ms);
    if is_overdue(turn.link()) {
        turn.break_off(alloc)
    } else {
        keeps_up(alloc, turn)
    }
}
