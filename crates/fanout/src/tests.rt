use crate::{Counting, Fanout, Limited, NoSuch, Stopped, Tally};
use set_model::{GapCause, LogLine, Seen};
use std::test::Fail;

fn data_line(item: u8) -> LogLine {
    LogLine::Delivered {
        item,
        time: 1,
        pico: 0,
        value: Seen::Whole(5),
        status: 0,
    }
}

fn gap_line(item: u8) -> LogLine {
    LogLine::Gap {
        item,
        cause: GapCause::Late,
    }
}

#[test]
fn sixteen_are_attached_and_the_next_one_comes_back(rt: HostRuntime) -> Result<(), Fail> {
    let alloc = rt.alloc();
    let mut fanout = Fanout::new(alloc)?;
    let mut stopped = Vec::new(alloc);
    for id in 1..=16u8 {
        let listener = Box::new(alloc, Counting::new())?;
        assert_eq!(&rt; fanout.attach(1, listener).ok(), Some(id));
    }
    let more = Box::new(alloc, Counting::new())?;
    assert!(&rt; fanout.attach(1, more).is_err());
    fanout.tell(&data_line(1), &mut stopped)?;
    fanout.tell(&gap_line(2), &mut stopped)?;
    let tally = Tally {
        changes: 1,
        gaps: 0,
    };
    assert_eq!(&rt; fanout.detach(3), Ok(tally));
    assert_eq!(&rt; fanout.detach(3), Err(NoSuch));
    let more = Box::new(alloc, Counting::new())?;
    assert_eq!(&rt; fanout.attach(2, more).ok(), Some(17));
    fanout.tell(&gap_line(2), &mut stopped)?;
    let tally = Tally {
        changes: 0,
        gaps: 1,
    };
    assert_eq!(&rt; fanout.detach(17), Ok(tally));
    assert!(&rt; stopped.is_empty());
    Ok(())
}

#[test]
fn two_stop_at_the_same_line(rt: HostRuntime) -> Result<(), Fail> {
    let alloc = rt.alloc();
    let mut fanout = Fanout::new(alloc)?;
    let mut stopped = Vec::new(alloc);
    for spare in 0..3u64 {
        let listener = Box::new(alloc, Limited::new(spare))?;
        assert!(&rt; fanout.attach(1, listener).is_ok());
    }
    let first = Box::new(alloc, Limited::new(0))?;
    assert_eq!(&rt; fanout.attach(2, first).ok(), Some(4));
    fanout.tell(&data_line(1), &mut stopped)?;
    let none = Tally {
        changes: 0,
        gaps: 0,
    };
    assert_eq!(&rt;
        stopped.as_slice(),
        [Stopped { id: 1, tally: none }].as_slice()
    );
    let one = Box::new(alloc, Limited::new(0))?;
    assert_eq!(&rt; fanout.attach(1, one).ok(), Some(5));
    fanout.tell(&gap_line(1), &mut stopped)?;
    let tally = Tally {
        changes: 1,
        gaps: 0,
    };
    let all = [
        Stopped { id: 1, tally: none },
        Stopped { id: 2, tally },
        Stopped { id: 5, tally: none },
    ];
    assert_eq!(&rt; stopped.as_slice(), all.as_slice());
    assert_eq!(&rt; fanout.detach(2), Err(NoSuch));
    let last = Tally {
        changes: 1,
        gaps: 1,
    };
    assert_eq!(&rt; fanout.detach(3), Ok(last));
    Ok(())
}
