//! What a link takes of a message of its subscription (OPC 10000-4, 5.13.1.1).

ghost use Rattle.std.specs.Prelude.{◌≡◌, ◌∷◌, OnOk};
ghost use Rattle.std.specs.List.{find};
ghost use Rattle.link_rules.specs.declared.notice.Notice.TheVariants as notice;
ghost use Rattle.link_rules.specs.Said.{tells};
ghost use Rattle.link_rules.specs.Messages.{all_taken, data_taken, has_handle, kept_alive, newest, taken_of};
ghost use Rattle.link_turn.specs.Turns.{done, with_link};

use link_rules::{Monitored, Notice, Remembered};
use link_turn::{Turn, is_jump, is_next};
use ua_base::{OutOfMemory, next_message};
use ua_structures::UaArray;
use ua_sub_msgs::MonitoredItemNotification;

// ---- values

/// The item of a handle.
fn item_of(items: &[Monitored], handle: u32) -> Option<Monitored>
    ensures { result ≡ find (has_handle handle) items.now }
{
    items
        .iter()
        .copied()
        .find(|monitored| u32::from(monitored.item) == handle)
}

/// Tells a value of its item; one under the handle of no item is skipped.
fn take(turn: &mut Turn, one: MonitoredItemNotification) -> Result<(), OutOfMemory>
    ensures { OnOk result (turn.new ≡ done (tells (taken_of turn.old.link.monitored one) turn.old.link) turn.old) }
{
    match item_of(turn.link().monitored(), one.client_handle) {
        Some(monitored) => turn.tell(Notice::Taken {
            item: monitored.item,
            value: one.value,
        }),
        None => Ok(()),
    }
}

/// Tells values in their order.
fn take_all(turn: &mut Turn, values: Vec<MonitoredItemNotification>) -> Result<(), OutOfMemory>
    ensures { OnOk result
        (turn.new ≡ done (tells (all_taken turn.old.link.monitored values.items) turn.old.link) turn.old) }
{
    for one in values {
        take(turn, one)?;
    }
    Ok(())
}

// ---- a message by its number

/// A keep-alive has the number of the message that comes next: one that is ahead tells that messages are missing.
///
/// # Errors
///
/// Want of memory, here and in each call below. Nothing is said of what stands then.
#[tactic(auto, using(link_turn::proofs::Doing::done_nothing_of), unfolding(link_rules::specs::Messages::kept_alive))]
pub fn kept_alive(turn: &mut Turn, number: u32, remembered: Remembered) -> Result<(), OutOfMemory>
    ensures { OnOk result (turn.new ≡ done (kept_alive number remembered turn.old.link) turn.old) }
{
    if is_jump(remembered.next, number) {
        turn.await_next(number, remembered);
        turn.tell(Notice::Jump)
    } else {
        Ok(())
    }
}

/// The message is the newest now.
fn set_newest(turn: &mut Turn, number: u32, remembered: Remembered) -> Result<(), OutOfMemory>
    ensures { OnOk result
        (turn.new ≡ with_link (newest number remembered turn.old.link) turn.old) }
{
    turn.acknowledge(number)?;
    turn.await_next(next_message(number), remembered);
    Ok(())
}

/// The next message is taken: its values are told.
fn take_next(
    turn: &mut Turn,
    number: u32,
    values: UaArray<MonitoredItemNotification>,
    remembered: Remembered,
) -> Result<(), OutOfMemory>
    ensures { OnOk result (turn.new
        ≡ done (tells (all_taken turn.old.link.monitored values) (newest number remembered turn.old.link)) turn.old) }
{
    match set_newest(turn, number, remembered) {
        Ok(()) => take_all(turn, values.into_vec()),
        Err(OutOfMemory) => {
            drop(values);
            Err(OutOfMemory)
        }
    }
}

/// A message is taken before which others are missing, which is told before its values.
#[tactic(auto, using(crate::proofs::Telling::told_more))]
fn take_ahead(
    turn: &mut Turn,
    number: u32,
    values: UaArray<MonitoredItemNotification>,
    remembered: Remembered,
) -> Result<(), OutOfMemory>
    ensures { OnOk result (turn.new ≡ done
        (tells (notice.Jump ∷ all_taken turn.old.link.monitored values) (newest number remembered turn.old.link)) turn.old) }
{
    match turn.tell(Notice::Jump) {
        Ok(()) => take_next(turn, number, values, remembered),
        Err(OutOfMemory) => {
            drop(values);
            Err(OutOfMemory)
        }
    }
}

/// The next message is taken, and one that is ahead too, behind a jump; an old one is acknowledged once more, and no
/// value of it is taken.
#[tactic(auto, using(link_turn::proofs::Doing::done_nothing_of), unfolding(link_rules::specs::Messages::data_taken))]
pub fn data_taken(
    turn: &mut Turn,
    number: u32,
    values: UaArray<MonitoredItemNotification>,
    remembered: Remembered,
) -> Result<(), OutOfMemory>
    ensures { OnOk result (turn.new ≡ done (data_taken number values remembered turn.old.link) turn.old) }
{
    if is_next(remembered.next, number) {
        take_next(turn, number, values, remembered)
    } else if is_jump(remembered.next, number) {
        take_ahead(turn, number, values, remembered)
    } else {
        drop(values);
        turn.acknowledge(number)
    }
}
