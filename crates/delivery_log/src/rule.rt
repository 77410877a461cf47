ghost use Rattle.std.specs.Prelude.{◌≡◌};
ghost use Rattle.delivery_log.specs.Judge.{confirmed, has_overflow, joint_after, judge, later, turned, unless_held, verdict_after, verdict_of};

use set_model::{GapCause, Stamp};
use ua_base::status::{OVERFLOW_BITS, OVERFLOW_MASK};

/// What is known, for one server and item, of what lies between its entries and the item's last data line.
#[derive(Clone, Copy, Debug, PartialEq, Eq)]
pub enum Joint {
    /// The next entry of the server goes on from the one that came last from it.
    Joined,
    /// Something may be missing before the next entry, for this cause.
    Open(GapCause),
    /// The item's monitoring is off at the server, or not yet confirmed to be on again: entries that come
    /// meanwhile do not join.
    Held,
}

/// What befalls a joint, other than an entry.
#[derive(Clone, Copy, Debug, PartialEq, Eq)]
pub enum Turn {
    /// It becomes this one, whatever it was.
    Become(Joint),
    /// Something may be missing before the next entry, for this cause: it becomes `Open`, unless it is `Held`.
    Loosen(GapCause),
    /// The item's monitoring is confirmed to be on again (OPC 10000-4, 5.12.4): `Held` becomes `Open` with the cause
    /// `Warm`, and any other joint stays.
    Confirm,
}

/// What the log gains by an entry.
#[derive(Clone, Copy, Debug, PartialEq, Eq)]
pub enum Verdict {
    /// No line.
    Nothing,
    /// A data line.
    Deliver,
    /// A gap line with this cause, and a data line after it.
    GapDeliver(GapCause),
}

/// Whether the status says that the item's queue dropped values (OPC 10000-4, 5.12.1.5 and 7.34.1): it is about a
/// data value, and has the overflow bit.
pub(crate) fn has_overflow(status: u32) -> bool
    ensures { result ≡ has_overflow status }
{
    status & OVERFLOW_MASK == OVERFLOW_BITS
}

/// The stamp last delivered, after an entry of this stamp.
pub(crate) fn later(last: Option<Stamp>, time: Option<Stamp>) -> Option<Stamp>
    ensures { result ≡ later last time }
{
    match (last, time) {
        (last, None) => last,
        (None, time) => time,
        (Some(last), Some(time)) => Some(if last.is_before(time) { time } else { last }),
    }
}

fn unless_held(joint: Joint, next: Joint) -> Joint
    ensures { result ≡ unless_held joint next }
{
    match joint {
        Joint::Held => Joint::Held,
        Joint::Joined | Joint::Open(_) => next,
    }
}

fn confirmed(joint: Joint) -> Joint
    ensures { result ≡ confirmed joint }
{
    match joint {
        Joint::Held => Joint::Open(GapCause::Warm),
        Joint::Joined | Joint::Open(_) => joint,
    }
}

/// The joint after what befalls it.
pub(crate) fn turned(turn: Turn, joint: Joint) -> Joint
    ensures { result ≡ turned turn joint }
{
    match turn {
        Turn::Become(next) => next,
        Turn::Loosen(cause) => unless_held(joint, Joint::Open(cause)),
        Turn::Confirm => confirmed(joint),
    }
}

fn joint_after(time: Option<Stamp>, joint: Joint) -> Joint
    ensures { result ≡ joint_after time joint }
{
    match time {
        None => unless_held(joint, Joint::Open(GapCause::NoTime)),
        Some(_) => unless_held(joint, Joint::Joined),
    }
}

fn verdict_after(joint: Joint, marked: bool) -> Verdict
    ensures { result ≡ verdict_after joint marked }
{
    match joint {
        Joint::Open(cause) => Verdict::GapDeliver(cause),
        Joint::Held => Verdict::GapDeliver(GapCause::Warm),
        Joint::Joined if marked => Verdict::GapDeliver(GapCause::Overflow),
        Joint::Joined => Verdict::Deliver,
    }
}

fn verdict_of(last: Option<Stamp>, joint: Joint, time: Option<Stamp>, marked: bool) -> Verdict
    ensures { result ≡ verdict_of last joint time marked }
{
    match (last, time) {
        (_, None) => Verdict::Nothing,
        (None, Some(_)) => Verdict::Deliver,
        (Some(last), Some(time)) if last.is_before(time) => verdict_after(joint, marked),
        (Some(_), Some(_)) => Verdict::Nothing,
    }
}

/// The rule of the log: what an entry gains, and the joint after it. `last` is the stamp of the item's last data line,
/// `joint` that of the entry's server and item, `time` the entry's own stamp, and `marked` says that its status has the
/// overflow bit.
pub fn judge(
    last: Option<Stamp>,
    joint: Joint,
    time: Option<Stamp>,
    marked: bool,
) -> (Verdict, Joint)
    ensures { result ≡ judge last joint time marked }
{
    (
        verdict_of(last, joint, time, marked),
        joint_after(time, joint),
    )
}
