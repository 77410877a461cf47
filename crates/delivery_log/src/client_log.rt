ghost use Rattle.std.specs.Prelude.{◌≡◌, ◌<◌, ◌≤◌, ◌++◌, [], ◌∷◌, length, map, replicate, slice_index_or, slice_set, OnOk, OnErr, IfOk};
ghost use Rattle.set_model.specs.declared.line.GapCause.TheVariants.{Late};
ghost use Rattle.delivery_log.specs.declared.rule.Joint.TheVariants.{Open};
ghost use Rattle.delivery_log.specs.Judge.{turned};
ghost use Rattle.delivery_log.specs.Log.{Covers, CoversServer, begun, data_line, entered, joint_at, last_kept, late_joints, lines_by, new_log, noted, with_all_turned, with_joint, with_turned};
ghost use Rattle.delivery_log.specs.Rows.{HaveWidth};

use crate::rule::{Joint, Turn, Verdict, has_overflow, judge, later, turned};
use set_model::{Arrived, GapCause, LogLine, Stamp};
use std::alloc::Global;
use std::marker::Model;
use ua_base::OutOfMemory;

/// The joints of one server, one for each item, item 1 first.
#[derive(Debug, Drop)]
pub struct Joints {
    joints: Vec<Joint>,
}

impl Model for Joints {
    ghost use Rattle.std.specs.Prelude.{List};
    ghost use Rattle.delivery_log.specs.declared.rule.Joint.{Joint};

    ghost Value = { List Joint };

    ghost view = { λ j. j.joints.items };
}

impl Joints {
    /// These joints. It takes no memory.
    pub fn of(joints: Vec<Joint>) -> Joints
        ensures { result ≡ joints.items }
    {
        Joints { joints }
    }

    fn late(alloc: Global, items: u8) -> Result<Joints, OutOfMemory>
        ensures { IfOk result (λ j. j ≡ replicate items (Open Late)) }
    {
        let joints = vec![in alloc; Joint::Open(GapCause::Late); usize::from(items)]?;
        Ok(Joints { joints })
    }

    fn at(&self, place: usize) -> Joint
        ensures { result ≡ slice_index_or self.now place (Open Late) }
    {
        match self.joints.get(place) {
            Some(joint) => *joint,
            None => Joint::Open(GapCause::Late),
        }
    }

    fn set(&mut self, place: usize, joint: Joint)
        requires { place < length self.old }
        ensures { self.new ≡ slice_set self.old place joint }
    {
        self.joints[place] = joint;
    }

    fn turn(&mut self, turn: Turn)
        ensures { self.new ≡ map (turned turn) self.old }
    {
        for joint in self.joints.iter_mut() {
            *joint = turned(turn, *joint);
        }
    }
}

/// The joints of all servers before anything came.
fn late_joints(alloc: Global, servers: u8, items: u8) -> Result<Vec<Joints>, OutOfMemory>
    ensures { IfOk result (λ joints. joints.items ≡ late_joints servers items) }
{
    let mut joints = Vec::new(alloc);
    for _server in 0..servers {
        joints.push(Joints::late(alloc, items)?)?;
    }
    Ok(joints)
}

/// Appends the lines that an entry gains by the verdict on it: none where it has no source time.
fn push_lines(
    alloc: Global,
    lines: &mut Vec<LogLine>,
    item: u8,
    entry: &Arrived,
    verdict: Verdict,
) -> Result<(), OutOfMemory>
    ensures ok { OnOk result (lines.new.items ≡ lines.old.items ++ lines_by item entry.now.time entry.now verdict) }
    ensures err { OnErr result (lines.new.items ≡ lines.old.items) }
{
    let Some(stamp) = entry.time else {
        return Ok(());
    };
    match verdict {
        Verdict::Nothing => Ok(()),
        Verdict::Deliver => push_data(alloc, lines, item, stamp, entry),
        Verdict::GapDeliver(cause) => {
            lines.reserve(2)?;
            let data = data_line(alloc, item, stamp, entry)?;
            lines.push(LogLine::Gap { item, cause })?;
            lines.push(data)?;
            Ok(())
        }
    }
}

fn data_line(alloc: Global, item: u8, stamp: Stamp, entry: &Arrived) -> Result<LogLine, OutOfMemory>
    ensures { IfOk result (λ line. line ≡ data_line item stamp entry.now) }
{
    let value = entry.value.copy(alloc)?;
    Ok(LogLine::Delivered {
        item,
        time: stamp.time,
        pico: stamp.pico,
        value,
        status: entry.status,
    })
}

fn push_data(
    alloc: Global,
    lines: &mut Vec<LogLine>,
    item: u8,
    stamp: Stamp,
    entry: &Arrived,
) -> Result<(), OutOfMemory>
    ensures ok { OnOk result (lines.new.items ≡ lines.old.items ++ data_line item stamp entry.now ∷ []) }
    ensures err { OnErr result (lines.new.items ≡ lines.old.items) }
{
    lines.push(data_line(alloc, item, stamp, entry)?)?;
    Ok(())
}

/// The client's log: its lines, and what the rule needs of what was delivered.
#[derive(Debug, Drop)]
pub struct Log {
    lasts: Vec<Option<Stamp>>,
    joints: Vec<Joints>,
    lines: Vec<LogLine>,
}

impl Model for Log {
    ghost use Rattle.std.specs.Prelude.{length, List};
    ghost use Rattle.delivery_log.specs.State.{LogState};
    ghost use Rattle.delivery_log.specs.Rows.{HaveWidth};

    ghost Value = { LogState };

    ghost view = { λ l. record { lasts = l.lasts.items; joints = l.joints.items; lines = l.lines.items } };

    ghost invariant = { λ l. HaveWidth (length l.lasts.items) l.joints.items };
}

impl Log {
    /// The log of a client of so many servers and items, before anything came.
    pub fn new(alloc: Global, servers: u8, items: u8) -> Result<Log, OutOfMemory>
        ensures { IfOk result (λ log. log ≡ new_log servers items) }
    {
        let lasts = vec![in alloc; None; usize::from(items)]?;
        let joints = late_joints(alloc, servers, items)?;
        Ok(Log {
            lasts,
            joints,
            lines: Vec::new(alloc),
        })
    }

    /// A log that goes on from another one: it begins with these stamps last delivered, one for each item, and with
    /// these joints, those of server 1 first. It has no lines yet, and takes no memory.
    pub fn begun(alloc: Global, lasts: Vec<Option<Stamp>>, joints: Vec<Joints>) -> Log
        requires { HaveWidth (length lasts.items) joints.items }
        ensures { result ≡ begun lasts.items joints.items }
    {
        Log {
            lasts,
            joints,
            lines: Vec::new(alloc),
        }
    }

    /// How many items it is of.
    pub fn items(&self) -> usize
        ensures { result ≡ length self.now.lasts }
    {
        self.lasts.len()
    }

    /// How many servers it is of.
    pub fn servers(&self) -> usize
        ensures { result ≡ length self.now.joints }
    {
        self.joints.len()
    }

    /// The stamp of an item's last data line, `None` where it has none. Items are numbered from 1.
    pub fn last(&self, item: u8) -> Option<Stamp>
        requires { (1 ≤ item) × (item ≤ length self.now.lasts) }
        ensures { result ≡ last_kept item self.now }
    {
        self.lasts[usize::from(item - 1)]
    }

    /// The joint of a server and item, both numbered from 1.
    pub fn joint(&self, server: u8, item: u8) -> Joint
        requires { Covers server item self.now }
        ensures { result ≡ joint_at server item self.now }
    {
        self.joints[usize::from(server - 1)].at(usize::from(item - 1))
    }

    /// Sets the joint of a server and item, both numbered from 1. It takes no memory.
    pub fn set_joint(&mut self, server: u8, item: u8, joint: Joint)
        requires { Covers server item self.old }
        ensures { self.new ≡ with_joint server item joint self.old }
    {
        self.joints[usize::from(server - 1)].set(usize::from(item - 1), joint);
    }

    /// What befalls the joint of a server and item, both numbered from 1. It takes no memory.
    pub fn turn(&mut self, server: u8, item: u8, turn: Turn)
        requires { Covers server item self.old }
        ensures { self.new ≡ with_turned server item turn self.old }
    {
        self.set_joint(server, item, turned(turn, self.joint(server, item)));
    }

    /// What befalls all joints of a server, numbered from 1: one for each item. It takes no memory.
    pub fn turn_all(&mut self, server: u8, turn: Turn)
        requires { CoversServer server self.old }
        ensures { self.new ≡ with_all_turned server turn self.old }
    {
        self.joints[usize::from(server - 1)].turn(turn);
    }

    /// Enters an entry of a server and item, both numbered from 1, by the rule of `judge`.
    pub fn enter(
        &mut self,
        alloc: Global,
        server: u8,
        item: u8,
        entry: &Arrived,
    ) -> Result<(), OutOfMemory>
        requires { Covers server item self.old }
        ensures ok { OnOk result (self.new ≡ entered server item entry.now self.old) }
        ensures err { OnErr result (self.new ≡ self.old) }
    {
        let place = usize::from(item - 1);
        let last = self.lasts[place];
        let (verdict, joint) = judge(
            last,
            self.joint(server, item),
            entry.time,
            has_overflow(entry.status),
        );
        push_lines(alloc, &mut self.lines, item, entry, verdict)?;
        self.lasts[place] = later(last, entry.time);
        self.set_joint(server, item, joint);
        Ok(())
    }

    /// Appends a line that tells of no entry, such as `switch` or `ready`.
    pub fn note(&mut self, line: LogLine) -> Result<(), OutOfMemory>
        ensures ok { OnOk result (self.new ≡ noted line self.old) }
        ensures err { OnErr result (self.new ≡ self.old) }
    {
        self.lines.push(line)?;
        Ok(())
    }

    /// The lines so far.
    pub fn lines(&self) -> &[LogLine]
        ensures { result.now ≡ self.now.lines }
    {
        self.lines.as_slice()
    }
}
