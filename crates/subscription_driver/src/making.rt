//! What the words of a line make.

ghost use Rattle.std.specs.Prelude.{◌≤◌, IfOk};

use rows::{Stop, number, truth};
use set_model::{Change, MOST_PICO};
use std::alloc::Global;
use subscription::{ItemSpec, SubSpec, Subscription};
use ua_base::{Mode, Timestamps};

/// What a subscription is made with: interval, keep-alive count, lifetime count, most notifications, enabled.
pub(crate) fn spec(words: [&str; 5]) -> Result<SubSpec, Stop> {
    let [interval, keep_alive, lifetime, most, enabled] = words;
    Ok(SubSpec {
        id: 1,
        interval: number(interval)?,
        keep_alive: number(keep_alive)?,
        lifetime: number(lifetime)?,
        most: number(most)?,
        enabled: truth(enabled)?,
    })
}

/// The subscription that there is before any line.
pub(crate) fn blank(alloc: Global) -> Result<Subscription, Stop> {
    let spec = spec(["100", "10", "30", "1000", "true"])?;
    Ok(Subscription::new(alloc, spec, 0)?)
}

pub(crate) fn mode(word: &str) -> Result<Mode, Stop> {
    match word {
        "disabled" => Ok(Mode::Disabled),
        "sampling" => Ok(Mode::Sampling),
        "reporting" => Ok(Mode::Reporting),
        _ => Err(Stop::BadLine),
    }
}

fn stamps(word: &str) -> Result<Timestamps, Stop> {
    match word {
        "source" => Ok(Timestamps::Source),
        "server" => Ok(Timestamps::Server),
        "both" => Ok(Timestamps::Both),
        "neither" => Ok(Timestamps::Neither),
        _ => Err(Stop::BadLine),
    }
}

fn is_oldest(word: &str) -> Result<bool, Stop> {
    match word {
        "oldest" => Ok(true),
        "newest" => Ok(false),
        _ => Err(Stop::BadLine),
    }
}

fn size(word: &str) -> Result<u32, Stop>
    ensures least { IfOk result (λ size. 1 ≤ size) }
    ensures most { IfOk result (λ size. size ≤ 1000) }
{
    let size = number::<u32>(word)?;
    if size < 1 || size > 1000 {
        return Err(Stop::BadLine);
    }
    Ok(size)
}

/// What an item is made with: node, handle, mode, size and rule of its queue, times.
pub(crate) fn item(words: [&str; 6]) -> Result<ItemSpec, Stop>
    ensures least { IfOk result (λ item. 1 ≤ item.queue) }
    ensures most { IfOk result (λ item. item.queue ≤ 1000) }
{
    let [node, handle, mode_word, size_word, rule, times] = words;
    let queue = size(size_word)?;
    Ok(ItemSpec {
        node: number(node)?,
        handle: number(handle)?,
        mode: mode(mode_word)?,
        queue,
        oldest: is_oldest(rule)?,
        stamps: stamps(times)?,
    })
}

/// The change of a node: `TIME` or `TIME.PICO`, and the value.
pub(crate) fn change(node: u8, at: &str, value: &str) -> Result<Change, Stop> {
    let (time, pico) = match at.split_once('.') {
        Some((time, pico)) => (time, number(pico)?),
        None => (at, 0),
    };
    if pico > MOST_PICO {
        return Err(Stop::BadLine);
    }
    Ok(Change {
        item: node,
        time: number(time)?,
        pico,
        value: number(value)?,
    })
}

/// The current change of a node: none where there are no words.
pub(crate) fn current(node: u8, words: &[&str]) -> Result<Option<Change>, Stop> {
    match words {
        [] => Ok(None),
        [at, value] => Ok(Some(change(node, at, value)?)),
        _ => Err(Stop::BadLine),
    }
}
