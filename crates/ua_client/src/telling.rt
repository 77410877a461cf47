//! What the log sees of what a link tells.

ghost use Rattle.std.specs.Prelude.{◌≡◌, length, OnErr, OnOk};
ghost use Rattle.delivery_log.specs.Log.{CoversServer};
ghost use Rattle.client_rules.specs.Acts.{acted_if, beginning, of_item, on_confirmed, on_sent, seen_of_notice};
ghost use Rattle.client_rules.specs.Arrival.{arrived_of};
ghost use Rattle.delivery_log.specs.History.{Enter, Set};

use crate::arrival::arrived;
use delivery_log::{Joint, Log, Turn};
use link_rules::Notice;
use set_model::{GapCause, LogLine};
use std::alloc::Global;
use ua_base::{Mode, OutOfMemory, SetMode};
use ua_variants::DataValue;

/// The joint of a stream that begins.
fn beginning(set: SetMode) -> Joint
    ensures { result ≡ beginning set }
{
    match set {
        SetMode::Hot | SetMode::Direct => Joint::Open(GapCause::Late),
        SetMode::Warm => Joint::Held,
        SetMode::Cold => Joint::Open(GapCause::Cold),
    }
}

/// A stream of an item begins.
fn begin(log: &mut Log, set: SetMode, items: u8, server: u8, item: u8)
    requires server { CoversServer server log.old }
    requires items { length log.old.lasts ≡ items }
    ensures state { log.new ≡ acted_if (of_item items item (Set server item (beginning set))) log.old }
    ensures joints { length log.new.joints ≡ length log.old.joints }
    ensures lasts { length log.new.lasts ≡ length log.old.lasts }
{
    if item >= 1 && item <= items {
        log.set_joint(server, item, beginning(set));
    }
}

/// A value of an item is entered.
fn take(
    alloc: Global,
    log: &mut Log,
    items: u8,
    server: u8,
    item: u8,
    value: &DataValue,
) -> Result<(), OutOfMemory>
    requires server { CoversServer server log.old }
    requires items { length log.old.lasts ≡ items }
    ensures ok { OnOk result (log.new ≡ acted_if (of_item items item (Enter server item (arrived_of value.now))) log.old) }
    ensures err { OnErr result (log.new ≡ log.old) }
    ensures joints { length log.new.joints ≡ length log.old.joints }
    ensures lasts { length log.new.lasts ≡ length log.old.lasts }
{
    if item >= 1 && item <= items {
        let entry = arrived(alloc, value)?;
        log.enter(alloc, server, item, &entry)
    } else {
        Ok(())
    }
}

/// A mode of all items was sent.
fn send(log: &mut Log, set: SetMode, mode: Mode, server: u8)
    requires { CoversServer server log.old }
    ensures state { log.new ≡ acted_if (on_sent set mode server) log.old }
    ensures joints { length log.new.joints ≡ length log.old.joints }
    ensures lasts { length log.new.lasts ≡ length log.old.lasts }
{
    match (set, mode) {
        (SetMode::Warm, Mode::Disabled) => log.turn_all(server, Turn::Become(Joint::Held)),
        _ => {}
    }
}

/// A mode of all items was confirmed.
fn confirm(log: &mut Log, set: SetMode, mode: Mode, server: u8)
    requires { CoversServer server log.old }
    ensures state { log.new ≡ acted_if (on_confirmed set mode server) log.old }
    ensures joints { length log.new.joints ≡ length log.old.joints }
    ensures lasts { length log.new.lasts ≡ length log.old.lasts }
{
    match (set, mode) {
        (SetMode::Warm, Mode::Reporting) => log.turn_all(server, Turn::Confirm),
        _ => {}
    }
}

/// What the log of a set with so many items sees of what the link of a server told.
pub(crate) fn see(
    alloc: Global,
    log: &mut Log,
    set: SetMode,
    items: u8,
    server: u8,
    notice: &Notice,
) -> Result<(), OutOfMemory>
    requires server { CoversServer server log.old }
    requires items { length log.old.lasts ≡ items }
    ensures ok { OnOk result (log.new ≡ acted_if (seen_of_notice set items server notice.now) log.old) }
    ensures err { OnErr result (log.new ≡ log.old) }
    ensures joints { length log.new.joints ≡ length log.old.joints }
    ensures lasts { length log.new.lasts ≡ length log.old.lasts }
{
    match notice {
        Notice::Ready => log.note(LogLine::Ready { server }),
        Notice::Lost => log.note(LogLine::Lost { server }),
        Notice::Unsupported => log.note(LogLine::Unsupported { server }),
        Notice::Level { .. } => Ok(()),
        Notice::Stream { item } => {
            begin(log, set, items, server, *item);
            Ok(())
        }
        Notice::Jump => {
            log.turn_all(server, Turn::Loosen(GapCause::Lost));
            Ok(())
        }
        Notice::Taken { item, value } => take(alloc, log, items, server, *item, value),
        Notice::Sent { mode } => {
            send(log, set, *mode, server);
            Ok(())
        }
        Notice::Confirmed { mode } => {
            confirm(log, set, *mode, server);
            Ok(())
        }
    }
}
