ghost use Rattle.std.specs.Prelude.{◌≡◌, ◌==◌, ◌<◌, ◌≤◌, ◌^◌, ◌+◌, ◌∷◌, ◌++◌, ℕ, List, [], pos, true};
ghost use Rattle.std.specs.Prelude.{Some, None, Ok, Err, OnOk, OnErr, IfOk, filter, length, not, vec_len};
ghost use Rattle.std.specs.Vec.{vec_capacity};
ghost use Rattle.scenario.specs.declared.form.Form.TheVariants as form;
ghost use Rattle.scenario.specs.declared.fault.FaultKind.TheVariants as kind;
ghost use Rattle.scenario.specs.declared.fault.ReadError.TheVariants as errors;
ghost use Rattle.scenario.specs.declared.line.Line.TheVariants as line;
ghost use Rattle.scenario.specs.declared.rules.Rules.{Rules};
ghost use Rattle.scenario.specs.declared.table.Need.TheVariants as need;
ghost use Rattle.scenario.specs.Words.{words_of};
ghost use Rattle.scenario.specs.Table.{all_pass, counts, row_of};
ghost use Rattle.scenario.specs.Past.{attached_in, change_of, changes_in, has_ended, ids_after, is_direct_in, items_in};
ghost use Rattle.scenario.specs.Past.{listens_in, servers_in};
ghost use Rattle.scenario.specs.Faults.{any_form_fault, change_fault, content_verdict, fits_mode, fits_value, has_item};
ghost use Rattle.scenario.specs.Faults.{has_no_listener, in_bounds, is_attached, is_between, is_in_place, is_item};
ghost use Rattle.scenario.specs.Faults.{is_plain, is_server, is_within, kind_of_refusal, line_or_fault, misses_set};
ghost use Rattle.scenario.specs.Faults.{need_fault, pico_of, tested, verdict};
ghost use Rattle.set_model.specs.Source.{IsEndOf};
ghost use Rattle.set_model.specs.declared.source.Change.{Change};
ghost use Rattle.scenario.specs.Reading.{EndHasRoom, HasRoom, life_of, MayFollow, NamesServer, Steps};
ghost use Rattle.scenario.specs.Scenario.{ended, Reads};

use crate::fault::{FaultKind, ReadError, ScenarioFault};
use crate::form::{Form, form_of};
use crate::line::Line;
use crate::rules::Rules;
use crate::table::{Argument, Arguments, Modes, Name, Need, Numbers, Row};
use crate::tally::{Life, Tally};
use crate::words::split_word;
use set_model::{Change, SourceEnd, SourceFault};
use std::alloc::Global;
use std::marker::Model;
use ua_base::{OutOfMemory, SetMode};

/// The most ids of listeners, of which at most `MOST_ATTACHED` listen at a time.
const MOST_LISTENS: usize = 255;

const MOST_ATTACHED: usize = 16;

/// The lines read so far, each kept once, and what is recalled of them.
#[derive(Debug, Drop)]
pub(crate) struct Reader {
    lines: Vec<Line>,
    source_end: SourceEnd,
    tally: Tally,
    attached: Vec<u8>,
}

impl Model for Reader {
    ghost use Rattle.std.specs.Prelude.{List};
    ghost use Rattle.scenario.specs.declared.line.Line.{Line};
    ghost use Rattle.scenario.specs.Reading.{Recalls};

    ghost Value = { List Line };

    ghost view = { λ r. r.lines.items };

    ghost invariant = { λ r. Recalls r.lines.items r.source_end r.tally r.attached.items };
}

/// The number as a `u32`, where it is within these bounds.
fn within(number: u64, low: u32, high: u32) -> Result<u32, FaultKind>
    ensures { result ≡ tested (is_within low high number) number kind.OutOfRange }
{
    if number < u64::from(low) || number > u64::from(high) {
        return Err(FaultKind::OutOfRange);
    }
    Ok(number as u32)
}

/// A source time: from 1 to 10^18.
fn time_of(number: u64) -> Result<i64, FaultKind>
    ensures { result ≡ tested (is_within 1 (10 ^ 18) number) (pos number) kind.OutOfRange }
{
    if number < 1 || number > 1_000_000_000_000_000_000 {
        return Err(FaultKind::OutOfRange);
    }
    Ok(number as i64)
}

/// Picoseconds in steps of ten: from 0 to 9999, and 0 where none are said.
fn pico_of(number: Option<u64>) -> Result<u16, FaultKind>
    ensures { result ≡ tested (is_within 0 9999 (pico_of number)) (pico_of number) kind.OutOfRange }
{
    match number {
        None => Ok(0),
        Some(number) if number <= 9999 => Ok(number as u16),
        Some(_) => Err(FaultKind::OutOfRange),
    }
}

/// A value of 64 bits with a sign.
fn value_of(number: i128) -> Result<i64, FaultKind>
    ensures { result ≡ tested (fits_value number) number kind.OutOfRange }
{
    if number < i128::from(i64::MIN) || number > i128::from(i64::MAX) {
        return Err(FaultKind::OutOfRange);
    }
    Ok(number as i64)
}

fn set_line(mode: SetMode, servers: u64) -> Result<Line, FaultKind>
    ensures { (rules : Rules) (before : List Line) →
        result ≡ content_verdict rules before (form.Set mode servers) }
{
    let servers = within(servers, 1, 8)? as u8;
    Ok(Line::Set { mode, servers })
}

fn items_line(items: u64, queue: u64, oldest: bool) -> Result<Line, FaultKind>
    ensures { (rules : Rules) (before : List Line) →
        result ≡ content_verdict rules before (form.Items items queue oldest) }
{
    let items = within(items, 1, 64)? as u8;
    let queue = within(queue, 2, 1000)?;
    Ok(Line::Items {
        items,
        queue,
        oldest,
    })
}

/// Why the source refuses a change, as a kind of fault.
fn kind_of_refusal(refusal: Option<SourceFault>) -> Option<FaultKind>
    ensures { result ≡ kind_of_refusal refusal }
{
    match refusal {
        Some(SourceFault::Full) => Some(FaultKind::TooMany),
        Some(SourceFault::TimeNotRising { .. }) => Some(FaultKind::TimeNotRising),
        Some(SourceFault::SameValue) => Some(FaultKind::SameValue),
        Some(SourceFault::OutOfMemory) | None => None,
    }
}

/// A change of the line is the source's last one from now on.
fn feed_source(source_end: &mut SourceEnd, line: Line)
    requires { EndHasRoom source_end.old line }
    ensures { (changes : List Change) → IsEndOf source_end.old changes →
        IsEndOf source_end.new (changes ++ change_of line) }
{
    match line {
        Line::Change { change } => source_end.add(change),
        _ => {}
    }
}

/// The listener no longer listens.
fn detach(attached: &mut Vec<u8>, id: u8)
    ensures { attached.new.items ≡ filter (λ other. not (other == id)) attached.old.items }
{
    attached.retain(|other| *other != id)
}

/// The listener of the line listens, or no longer does.
fn attach(attached: &mut Vec<u8>, tally: Tally, line: Line)
    requires reserved { vec_len attached.old < vec_capacity attached.old }
    requires room { HasRoom tally line }
    ensures { attached.new.items ≡ ids_after (tally.listens + 1) attached.old.items line }
{
    match line {
        Line::Listen { .. } => {
            let _ = attached.push(tally.listens + 1);
        }
        Line::Unlisten { id } => detach(attached, id),
        _ => {}
    }
}

/// One line more, for which there is room.
fn push_reserved(lines: &mut Vec<Line>, line: Line)
    requires { vec_len lines.old < vec_capacity lines.old }
    ensures { lines.new.items ≡ lines.old.items ++ line ∷ [] }
{
    let _ = lines.push(line);
}

/// Whether a line with these arguments has as many numbers.
fn counts(arguments: Arguments, numbers: Numbers) -> bool
    ensures { result ≡ counts arguments numbers }
{
    matches!(
        (arguments, numbers),
        (Arguments::Nothing, Numbers::Nothing)
            | (Arguments::One(_), Numbers::One(_))
            | (Arguments::Two(..), Numbers::Two(..))
    )
}

fn is_in_bounds(argument: Argument, number: u64) -> bool
    ensures { result ≡ in_bounds argument number }
{
    match argument {
        Argument::From(low, high) => u64::from(low) <= number && number <= u64::from(high),
        Argument::Server | Argument::Item => true,
    }
}

fn are_in_bounds(arguments: Arguments, numbers: Numbers) -> bool
    ensures { result ≡ all_pass in_bounds arguments numbers }
{
    match (arguments, numbers) {
        (Arguments::One(a), Numbers::One(first)) => is_in_bounds(a, first),
        (Arguments::Two(a, b), Numbers::Two(first, second)) => {
            is_in_bounds(a, first) && is_in_bounds(b, second)
        }
        _ => true,
    }
}

/// Whether a number that says a server says one of so many.
fn is_server(servers: u8, argument: Argument, number: u64) -> bool
    ensures { result ≡ is_server servers argument number }
{
    match argument {
        Argument::Server => 1 <= number && number <= u64::from(servers),
        Argument::Item | Argument::From(..) => true,
    }
}

/// Whether a number that says an item says one of so many.
fn is_item(items: u8, argument: Argument, number: u64) -> bool
    ensures { result ≡ is_item items argument number }
{
    match argument {
        Argument::Item => 1 <= number && number <= u64::from(items),
        Argument::Server | Argument::From(..) => true,
    }
}

impl Reader {
    /// Before any line. It takes no memory.
    pub(crate) fn new(alloc: Global) -> Reader
        ensures { result ≡ [] }
    {
        Reader {
            lines: Vec::new(alloc),
            source_end: SourceEnd::new(),
            tally: Tally::new(),
            attached: Vec::new(alloc),
        }
    }

    fn item(&self, item: u64) -> Result<u8, FaultKind>
        ensures { result ≡ tested (has_item self.now item) item kind.NoSuchItem }
    {
        if item < 1 || item > u64::from(self.tally.items) {
            return Err(FaultKind::NoSuchItem);
        }
        Ok(item as u8)
    }

    fn has_server(&self, arguments: Arguments, numbers: Numbers) -> bool
        ensures said { result ≡ all_pass (is_server (servers_in self.now)) arguments numbers }
        ensures few { servers_in self.now ≤ 8 }
    {
        let servers = self.tally.servers;
        match (arguments, numbers) {
            (Arguments::One(a), Numbers::One(first)) => is_server(servers, a, first),
            (Arguments::Two(a, b), Numbers::Two(first, second)) => {
                is_server(servers, a, first) && is_server(servers, b, second)
            }
            _ => true,
        }
    }

    fn has_item(&self, arguments: Arguments, numbers: Numbers) -> bool
        ensures said { result ≡ all_pass (is_item (items_in self.now)) arguments numbers }
        ensures few { items_in self.now ≤ 64 }
    {
        let items = self.tally.items;
        match (arguments, numbers) {
            (Arguments::One(a), Numbers::One(first)) => is_item(items, a, first),
            (Arguments::Two(a, b), Numbers::Two(first, second)) => {
                is_item(items, a, first) && is_item(items, b, second)
            }
            _ => true,
        }
    }

    /// How many servers the set has.
    pub(crate) fn servers(&self) -> u8
        ensures { result ≡ servers_in self.now }
    {
        self.tally.servers
    }

    /// How many items the set has.
    pub(crate) fn items(&self) -> u8
        ensures { result ≡ items_in self.now }
    {
        self.tally.items
    }

    /// How many changes came.
    pub(crate) fn changes(&self) -> u32
        ensures { result ≡ length (changes_in self.now) }
    {
        self.tally.changes
    }

    /// How a server of the set lives.
    pub(crate) fn life(&self, server: u64) -> Life
        requires { is_within 1 (servers_in self.now) server ≡ true }
        ensures { result ≡ life_of server self.now }
    {
        self.tally.life(server as u8)
    }

    fn change_fault(&self, rules: Rules, change: Change) -> Option<FaultKind>
        ensures { result ≡ change_fault rules self.now change }
    {
        if self.tally.changes >= rules.changes {
            return Some(FaultKind::TooMany);
        }
        kind_of_refusal(self.source_end.refusal(change))
    }

    fn change_line(
        &self,
        rules: Rules,
        item: u64,
        time: u64,
        pico: Option<u64>,
        value: i128,
    ) -> Result<Line, FaultKind>
        ensures { result ≡ content_verdict rules self.now (form.Change item time pico value) }
    {
        let time = time_of(time)?;
        let pico = pico_of(pico)?;
        let value = value_of(value)?;
        let item = self.item(item)?;
        let change = Change {
            item,
            time,
            pico,
            value,
        };
        match self.change_fault(rules, change) {
            Some(kind) => Err(kind),
            None => Ok(Line::Change { change }),
        }
    }

    fn has_no_listener(&self, rules: Rules) -> bool
        ensures { result ≡ has_no_listener rules self.now }
    {
        usize::from(self.tally.listens) >= rules.pool
            || self.attached.len() >= MOST_ATTACHED
            || usize::from(self.tally.listens) >= MOST_LISTENS
    }

    fn is_attached(&self, id: u64) -> bool
        ensures { result ≡ is_attached self.now id }
    {
        self.attached.iter().any(|other| u64::from(*other) == id)
    }

    /// What is wrong with a start of this server.
    fn start_fault(&self, server: u64) -> Option<FaultKind>
        requires { is_within 1 (servers_in self.now) server ≡ true }
        ensures { (rules : Rules) → result ≡ need_fault rules self.now need.Stopped server }
    {
        let life = self.life(server);
        if life.running {
            Some(FaultKind::AlreadyRunning)
        } else if life.boot == u16::MAX {
            Some(FaultKind::TooManyStarts)
        } else {
            None
        }
    }

    /// What a line with this first number doesn't find of what it needs.
    fn need_fault(&self, rules: Rules, need: Need, number: u64) -> Option<FaultKind>
        requires { NamesServer self.now need number }
        ensures { result ≡ need_fault rules self.now need number }
    {
        match need {
            Need::Nothing => None,
            Need::Running if self.life(number).running => None,
            Need::Running => Some(FaultKind::NotRunning),
            Need::Stopped => self.start_fault(number),
            Need::Listener if self.has_no_listener(rules) => Some(FaultKind::NoListener),
            Need::Listener => None,
            Need::Attached if self.is_attached(number) => None,
            Need::Attached => Some(FaultKind::NoSuchListener),
        }
    }

    /// The line of a name with as many numbers as it has.
    fn plain_line(&self, rules: Rules, name: Name, numbers: Numbers) -> Result<Line, FaultKind>
        requires { counts (row_of name).arguments numbers ≡ true }
        ensures { result ≡ content_verdict rules self.now (form.Plain name numbers) }
    {
        let Row {
            arguments,
            need,
            ..
        } = name.row();
        if !are_in_bounds(arguments, numbers) {
            return Err(FaultKind::OutOfRange);
        }
        if !self.has_server(arguments, numbers) {
            return Err(FaultKind::NoSuchServer);
        }
        if !self.has_item(arguments, numbers) {
            return Err(FaultKind::NoSuchItem);
        }
        match self.need_fault(rules, need, numbers.first()) {
            Some(kind) => Err(kind),
            None => Ok(name.line(numbers.first(), numbers.second())),
        }
    }

    /// The line of a form that may stand at its place.
    fn content_line(&self, rules: Rules, form: Form) -> Result<Line, FaultKind>
        requires { is_in_place rules self.now form ≡ true }
        ensures { result ≡ content_verdict rules self.now form }
    {
        match form {
            Form::Set { mode, servers } => set_line(mode, servers),
            Form::Items {
                items,
                queue,
                oldest,
            } => items_line(items, queue, oldest),
            Form::Change {
                item,
                time,
                pico,
                value,
            } => self.change_line(rules, item, time, pico, value),
            Form::Plain { name, numbers } => self.plain_line(rules, name, numbers),
        }
    }

    /// After the first two lines, and not after `end`.
    fn is_between(&self) -> bool
        ensures { result ≡ is_between self.now }
    {
        self.lines.len() >= 2 && !self.tally.ended
    }

    fn fits_mode(&self, modes: Modes) -> bool
        ensures { result ≡ fits_mode modes (is_direct_in self.now) }
    {
        match modes {
            Modes::All => true,
            Modes::Direct => self.tally.direct,
            Modes::OverBytes => !self.tally.direct,
        }
    }

    /// Whether a line of this name and as many numbers may stand in the set.
    fn is_plain(&self, rules: Rules, name: Name, numbers: Numbers) -> bool
        ensures { result ≡ is_plain rules self.now (row_of name) numbers }
    {
        let row = name.row();
        rules.allows(row.group) && self.fits_mode(row.modes) && counts(row.arguments, numbers)
    }

    /// Whether a line of this form may stand here.
    fn is_in_place(&self, rules: Rules, form: Form) -> bool
        ensures { result ≡ is_in_place rules self.now form }
    {
        match form {
            Form::Set { mode, servers } => {
                self.lines.len() == 0 && rules.allows_set(mode, servers)
            }
            Form::Items { oldest, .. } => self.lines.len() == 1 && rules.allows_rule(oldest),
            Form::Change { .. } => self.is_between(),
            Form::Plain { name, numbers } => {
                self.is_between() && self.is_plain(rules, name, numbers)
            }
        }
    }

    fn any_line(&self, rules: Rules, form: Option<Form>) -> Result<Line, FaultKind>
        ensures { result ≡ verdict (any_form_fault rules self.now form) form }
    {
        match form {
            Some(form) if self.is_in_place(rules, form) => self.content_line(rules, form),
            _ => Err(FaultKind::BadLine),
        }
    }

    fn misses_set(&self, text: &[u8]) -> bool
        ensures { result ≡ misses_set (length self.now) (words_of text.now) }
    {
        match self.lines.len() {
            0 => split_word(text).0 != b"set".as_slice(),
            1 => split_word(text).0 != b"items".as_slice(),
            _ => false,
        }
    }

    /// The line that a text says here, or what is wrong with it.
    fn line_or_fault(&self, rules: Rules, text: &[u8]) -> Result<Line, FaultKind>
        ensures { result ≡ line_or_fault rules self.now text.now }
    {
        if self.misses_set(text) {
            return Err(FaultKind::MissingSet);
        }
        if self.lines.len() >= rules.lines {
            return Err(FaultKind::TooLong);
        }
        self.any_line(rules, form_of(text))
    }

    /// Takes a line that may follow.
    pub(crate) fn take(&mut self, line: Line) -> Result<(), OutOfMemory>
        requires { MayFollow self.old line }
        ensures ok { OnOk result (self.new ≡ self.old ++ line ∷ []) }
        ensures err { OnErr result (self.new ≡ self.old) }
    {
        self.lines.reserve(1)?;
        self.attached.reserve(1)?;
        feed_source(&mut self.source_end, line);
        attach(&mut self.attached, self.tally, line);
        self.tally.add(line);
        push_reserved(&mut self.lines, line);
        Ok(())
    }

    /// This kind of fault in the next line.
    fn fault_here(&self, kind: FaultKind) -> ReadError
        ensures { result ≡ errors.Fault (record { line = length self.now + 1; kind = kind }) }
    {
        let line = self.lines.len() as u64 + 1;
        ReadError::Fault(ScenarioFault { line, kind })
    }

    /// Reads one line more.
    pub(crate) fn step(&mut self, rules: Rules, text: &[u8]) -> Result<Line, ReadError>
        ensures { Steps (line_or_fault rules self.old text.now) self.old result self.new }
    {
        match self.line_or_fault(rules, text) {
            Ok(line) => {
                self.take(line)?;
                Ok(line)
            }
            Err(kind) => Err(self.fault_here(kind)),
        }
    }

    /// The lines, and `end`.
    pub(crate) fn end(self) -> Result<Vec<Line>, OutOfMemory>
        ensures { IfOk result (λ lines. lines.items ≡ self ++ line.End ∷ []) }
    {
        let mut lines = self.lines;
        lines.push(Line::End)?;
        Ok(lines)
    }

    /// All lines, where the last one was `end`.
    pub(crate) fn finish(self) -> Result<Vec<Line>, ReadError>
        ensures { Reads (λ lines. lines.items) result (ended self) }
    {
        if self.tally.ended {
            return Ok(self.lines);
        }
        let kind = if self.lines.is_empty() {
            FaultKind::MissingSet
        } else {
            FaultKind::NoEnd
        };
        Err(self.fault_here(kind))
    }
}
