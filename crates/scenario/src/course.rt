//! Scenarios made from a seed.
ghost use Rattle.std.specs.Prelude.{◌≡◌, ◌<◌, ◌≤◌, ◌+◌, ◌-◌, ◌∷◌, ◌++◌, [], Ok, OnOk, IfOk, length};
ghost use Rattle.scenario.specs.declared.line.Line.TheVariants as line;
ghost use Rattle.scenario.specs.Past.{changes_in, items_in, servers_in};
ghost use Rattle.scenario.specs.Generate.{change_drawn, changed, course_of, first_draw, generated, items_drawn};
ghost use Rattle.scenario.specs.Generate.{level_or_pass, line_drawn, mode_of_draw, next_state, one_more, other};
ghost use Rattle.scenario.specs.Generate.{befalling_drawn, begun, by_number};
ghost use Rattle.scenario.specs.Generate.{run_or_start, second_draw, server_drawn, set_drawn};
ghost use Rattle.scenario.specs.Generate.{start_or_pass, state_drawn};
ghost use Rattle.scenario.specs.Sound.{IsSound};

use crate::dice::Dice;
use crate::line::Line;
use crate::reader::Reader;
use set_model::Change;
use std::alloc::Global;
use std::marker::Model;
use ua_base::{OutOfMemory, SetMode};

/// Where a scenario stands: the dice, the time of the last change, and the lines so far.
#[derive(Debug, Drop)]
struct Course {
    dice: Dice,
    time: u64,
    reader: Reader,
}

impl Model for Course {
    ghost use Rattle.scenario.specs.Generate as drawing;
    ghost use Rattle.scenario.specs.Sound.{IsSound};

    ghost Value = { drawing.Course };

    ghost view = { λ c. record { state = c.dice.state; time = c.time; lines = c.reader } };

    ghost invariant = { λ c. IsSound c.time c.reader };
}

/// The mode of a set's number below 3.
fn mode_of_draw(number: u32) -> SetMode
    ensures { result ≡ mode_of_draw number }
{
    match number {
        0 => SetMode::Hot,
        1 => SetMode::Warm,
        _ => SetMode::Cold,
    }
}

/// The first line, by two draws.
fn draw_set(dice: &mut Dice) -> Line
    ensures line { result ≡ set_drawn dice.old.state }
    ensures state { dice.new.state ≡ next_state (next_state dice.old.state) }
{
    let mode = mode_of_draw(dice.draw(3));
    let servers = 2 + dice.draw(3) as u8;
    Line::Set { mode, servers }
}

/// The second line, by two draws.
fn draw_items(dice: &mut Dice) -> Line
    ensures line { result ≡ items_drawn dice.old.state }
    ensures state { dice.new.state ≡ next_state (next_state dice.old.state) }
{
    let items = 1 + dice.draw(4) as u8;
    let queue = 2 + dice.draw(9);
    Line::Items {
        items,
        queue,
        oldest: true,
    }
}

/// A server of the set, by one draw.
fn draw_server(dice: &mut Dice, before: &Reader) -> u8
    requires least { 1 ≤ servers_in before.now }
    requires most { servers_in before.now ≤ 8 }
    ensures value { result ≡ server_drawn before.now dice.old.state }
    ensures state { dice.new.state ≡ next_state dice.old.state }
    ensures low { 1 ≤ result }
    ensures high { result ≤ servers_in before.now }
{
    1 + dice.draw(u32::from(before.servers())) as u8
}

/// The server starts where it doesn't run and its boot number can rise; else rounds pass.
fn start_or_pass(before: &Reader, server: u8) -> Line
    requires low { 1 ≤ server }
    requires high { server ≤ servers_in before.now }
    ensures { result ≡ start_or_pass before.now server }
{
    let life = before.life(u64::from(server));
    if !life.running && life.boot < u16::MAX {
        Line::Start { server }
    } else {
        Line::Pass { rounds: 8 }
    }
}

/// A line for a server that runs; one that doesn't starts.
fn run_or_start(before: &Reader, server: u8, line: Line) -> Line
    requires low { 1 ≤ server }
    requires high { server ≤ servers_in before.now }
    ensures { result ≡ run_or_start before.now server line }
{
    if before.life(u64::from(server)).running {
        line
    } else {
        start_or_pass(before, server)
    }
}

fn level_or_pass(before: &Reader, server: u8, level: u8) -> Line
    requires low { 1 ≤ server }
    requires high { server ≤ servers_in before.now }
    ensures { result ≡ level_or_pass before.now server level }
{
    if before.life(u64::from(server)).running {
        Line::Level { server, level }
    } else {
        Line::Pass { rounds: 8 }
    }
}

/// A feed, by two draws.
fn draw_feed(dice: &mut Dice, before: &Reader) -> Line
    requires least { 1 ≤ servers_in before.now }
    requires most { servers_in before.now ≤ 8 }
    ensures line { result ≡ run_or_start before.now (server_drawn before.now dice.old.state)
        (line.Feed (server_drawn before.now dice.old.state) (1 + second_draw 3 dice.old.state)) }
    ensures state { dice.new.state ≡ next_state (next_state dice.old.state) }
{
    let server = draw_server(dice, before);
    let count = 1 + dice.draw(3);
    run_or_start(before, server, Line::Feed { server, count })
}

/// A level, by two draws.
fn draw_level(dice: &mut Dice, before: &Reader) -> Line
    requires least { 1 ≤ servers_in before.now }
    requires most { servers_in before.now ≤ 8 }
    ensures line { result ≡ level_or_pass before.now (server_drawn before.now dice.old.state)
        (second_draw 256 dice.old.state) }
    ensures state { dice.new.state ≡ next_state (next_state dice.old.state) }
{
    let server = draw_server(dice, before);
    let level = dice.draw(256) as u8;
    level_or_pass(before, server, level)
}

/// A line that befalls one server, by a number from 91 to 98 and one draw.
fn draw_befalling(dice: &mut Dice, before: &Reader, number: u32) -> Line
    requires least { 1 ≤ servers_in before.now }
    requires most { servers_in before.now ≤ 8 }
    ensures line { result ≡ befalling_drawn before.now number dice.old.state }
    ensures state { dice.new.state ≡ next_state dice.old.state }
{
    let server = draw_server(dice, before);
    match number {
        ..93 => Line::Cut { server },
        93 => Line::Half { server },
        94 => Line::Hold { server },
        95 | 96 => Line::Free { server },
        97 => run_or_start(before, server, Line::Stop { server }),
        _ => start_or_pass(before, server),
    }
}

/// A line that is no change, by a number from 30 to 99.
fn draw_line(dice: &mut Dice, before: &Reader, number: u32) -> Line
    requires least { 1 ≤ servers_in before.now }
    requires most { servers_in before.now ≤ 8 }
    ensures line { result ≡ line_drawn before.now number dice.old.state }
    ensures state { dice.new.state ≡ state_drawn number dice.old.state }
{
    match number {
        ..55 => draw_feed(dice, before),
        55..75 => Line::Pass {
            rounds: 1 + dice.draw(8),
        },
        75..87 => Line::Tick {
            ms: 50 * (1 + dice.draw(10)),
        },
        87..91 => draw_level(dice, before),
        91..99 => draw_befalling(dice, before, number),
        _ => Line::Piece {
            bytes: 1 + dice.draw(4096),
        },
    }
}

impl Course {
    /// The first two lines of a scenario from this seed.
    fn begin(alloc: Global, seed: u64) -> Result<Course, OutOfMemory>
        ensures { IfOk result (λ course. course ≡ begun seed) }
    {
        let mut dice = Dice { state: seed };
        let mut reader = Reader::new(alloc);
        let set = draw_set(&mut dice);
        reader.take(set)?;
        let items = draw_items(&mut dice);
        reader.take(items)?;
        Ok(Course {
            dice,
            time: 0,
            reader,
        })
    }

    fn add_change(&mut self) -> Result<(), OutOfMemory>
        requires { length self.old.lines < 200000 }
        ensures { OnOk result (self.new ≡ changed self.old) }
    {
        let item = 1 + self.dice.draw(u32::from(self.reader.items())) as u8;
        let time = self.time + 1 + u64::from(self.dice.draw(10));
        let value = i64::from(self.reader.changes()) + 1;
        let change = Change {
            item,
            time: time as i64,
            pico: 0,
            value,
        };
        self.reader.take(Line::Change { change })?;
        self.time = time;
        Ok(())
    }

    fn add_other(&mut self, number: u32) -> Result<(), OutOfMemory>
        requires { length self.old.lines < 200000 }
        ensures { OnOk result (self.new ≡ other number self.old) }
    {
        let line = draw_line(&mut self.dice, &self.reader, number);
        self.reader.take(line)?;
        Ok(())
    }

    /// One line more.
    fn add_line(&mut self) -> Result<(), OutOfMemory>
        requires { length self.old.lines < 200000 }
        ensures { OnOk result (self.new ≡ one_more self.old) }
    {
        let number = self.dice.draw(100);
        if number < 30 {
            self.add_change()
        } else {
            self.add_other(number)
        }
    }
}

/// So many lines after the first two.
fn course_of(alloc: Global, seed: u64, count: u64) -> Result<Course, OutOfMemory>
    requires { count < 199999 }
    ensures { IfOk result (λ course. course ≡ course_of count seed) }
{
    let mut course = Course::begin(alloc, seed)?;
    for place in 0..count {
        course.add_line()?;
    }
    Ok(course)
}

/// The scenario of so many lines that follows from this seed, in hot, warm or cold mode, with 2 to 4 servers and 1 to 4
/// items. Each choice is a draw of `x = x * 6364136223846793005 + 1442695040888963407` modulo 2^64, which begins as the
/// seed, and gives the upper 31 bits of `x` modulo the number of choices.
pub fn generate(alloc: Global, seed: u64, lines: u64) -> Result<Vec<Line>, OutOfMemory>
    requires least { 3 ≤ lines }
    requires most { lines ≤ 200000 }
    ensures { IfOk result (λ made. made.items ≡ generated seed lines) }
{
    let course = course_of(alloc, seed, lines - 3)?;
    course.reader.end()
}
