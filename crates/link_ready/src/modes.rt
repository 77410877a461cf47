//! Replies to SetMonitoringMode (OPC 10000-4, 5.12.4).

ghost use Rattle.std.specs.Prelude.{◌≡◌, OnOk};
ghost use Rattle.link_rules.specs.Ready.{confirms, mode_replied, mode_replied_by};
ghost use Rattle.link_turn.specs.Turns.{done};

use link_publishing::sets_mode;
use link_rules::{Notice, ReadyState, Setting};
use link_turn::{Turn, is_reply_to};
use std::alloc::Global;
use ua_base::OutOfMemory;
use ua_structures::ResponseHeader;

/// The items have the mode. Another one that the client wants by now is asked for.
#[tactic(auto, using(link_turn::proofs::Doing::done_then), unfolding(link_rules::specs::Ready::confirms))]
fn confirms(
    alloc: Global,
    turn: &mut Turn,
    setting: Setting,
    ready: ReadyState,
) -> Result<(), OutOfMemory>
    ensures { OnOk result (turn.new ≡ done (confirms setting ready turn.old.link) turn.old) }
{
    turn.set_ready(ReadyState {
        setting: None,
        confirmed: Some(setting.mode),
        ..ready
    });
    turn.tell(Notice::Confirmed { mode: setting.mode })?;
    sets_mode(alloc, turn)
}

/// The reply to a SetMonitoringMode: what each item answers isn't looked at.
#[tactic(auto, unfolding(link_rules::specs::Ready::mode_replied))]
pub(crate) fn mode_replied(
    alloc: Global,
    turn: &mut Turn,
    header: ResponseHeader,
    ready: ReadyState,
) -> Result<(), OutOfMemory>
    ensures { OnOk result (turn.new ≡ done (mode_replied_by ready.setting header ready turn.old.link) turn.old) }
{
    let Some(setting) = ready.setting else {
        return turn.break_off(alloc);
    };
    if is_reply_to(setting.asked.handle, header) {
        confirms(alloc, turn, setting, ready)
    } else {
        turn.break_off(alloc)
    }
}
