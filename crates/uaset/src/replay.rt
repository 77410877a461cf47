ghost use Rattle.std.specs.Prelude.{◌≡◌, ◌≤◌, IfOk, OnOk};
ghost use Rattle.set_model.specs.Report.{report_text};
ghost use Rattle.set_world.specs.Worlds.{all_taken};
ghost use Rattle.uaset.specs.Answer.{Renders, answer_of, client_log, size_of};

use scenario::{Line, ReadError};
use set_model::report_of;
use set_world::World;
use std::alloc::Global;
use ua_base::{OutOfMemory, SetMode};

/// The mode of a set, how wide it is, and which entry a full queue of it discards, as its first two lines say.
#[derive(Clone, Copy)]
struct Size {
    mode: SetMode,
    servers: u8,
    items: u8,
    queue: u32,
    oldest: bool,
}

fn size_of(lines: &[Line]) -> Size
    ensures mode { result.mode ≡ (size_of lines.now).mode }
    ensures servers { result.servers ≡ (size_of lines.now).servers }
    ensures items { result.items ≡ (size_of lines.now).items }
    ensures queue { result.queue ≡ (size_of lines.now).queue }
    ensures oldest { result.oldest ≡ (size_of lines.now).oldest }
{
    match lines {
        [
            Line::Set { mode, servers },
            Line::Items {
                items,
                queue,
                oldest,
            },
            ..
        ] => Size {
            mode: *mode,
            servers: *servers,
            items: *items,
            queue: *queue,
            oldest: *oldest,
        },
        _ => Size {
            mode: SetMode::Direct,
            servers: 0,
            items: 0,
            queue: 2,
            oldest: true,
        },
    }
}

/// Takes each line in turn.
fn run(alloc: Global, world: &mut World, lines: &[Line]) -> Result<(), OutOfMemory>
    ensures { OnOk result (world.new ≡ all_taken lines.now world.old) }
{
    for line in lines {
        world.line(alloc, line)?;
    }
    Ok(())
}

/// The report of a scenario's lines.
fn report_lines(alloc: Global, lines: &[Line]) -> Result<Vec<u8>, OutOfMemory>
    requires queue { (1 ≤ (size_of lines.now).queue) × ((size_of lines.now).queue ≤ 1000) }
    requires servers { (1 ≤ (size_of lines.now).servers) × ((size_of lines.now).servers ≤ 8) }
    ensures { IfOk result (λ text. text.items ≡ report_text (client_log lines.now)) }
{
    let size = size_of(lines);
    let mut world = World::new(
        alloc,
        size.mode,
        size.servers,
        size.items,
        size.queue,
        size.oldest,
    )?;
    run(alloc, &mut world, lines)?;
    report_of(alloc, world.lines())
}

/// The report of a scenario's text, which may attach so many listeners, or its first faulty line.
pub(crate) fn replay(alloc: Global, bytes: &[u8], pool: usize) -> Result<Vec<u8>, ReadError>
    ensures { Renders (λ text. text.items) result (answer_of pool bytes.now) }
{
    let lines = scenario::read(alloc, bytes, pool)?;
    Ok(report_lines(alloc, lines.as_slice())?)
}
