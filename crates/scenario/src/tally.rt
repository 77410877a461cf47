ghost use Rattle.std.specs.Prelude.{◌≡◌, ◌≤◌};
ghost use Rattle.scenario.specs.Reading.{blank_tally, fresh, HasRoom, life_in, tally_after, with_life};

use crate::line::Line;
use ua_base::SetMode;

/// The most servers of a set.
pub const MOST_SERVERS: usize = 8;

/// How a server lives.
#[derive(Clone, Copy, Debug, PartialEq, Eq)]
pub struct Life {
    /// It was not stopped, or was started again.
    pub running: bool,
    /// Its boot number, from 1.
    pub boot: u16,
}

/// What is recalled of the lines before.
#[derive(Clone, Copy, Debug, PartialEq, Eq)]
pub struct Tally {
    /// The set is in direct mode.
    pub direct: bool,
    pub servers: u8,
    pub items: u8,
    pub changes: u32,
    pub lives: [Life; MOST_SERVERS],
    pub listens: u8,
    pub ended: bool,
}

impl Tally {
    /// Before any line.
    pub fn new() -> Tally
        ensures { result ≡ blank_tally }
    {
        Tally {
            direct: false,
            servers: 0,
            items: 0,
            changes: 0,
            lives: [Life {
                running: true,
                boot: 1,
            }; MOST_SERVERS],
            listens: 0,
            ended: false,
        }
    }

    /// How this server lives.
    pub fn life(&self, server: u8) -> Life
        requires low { 1 ≤ server }
        requires high { server ≤ 8 }
        ensures { result ≡ life_in self.now server }
    {
        self.lives[usize::from(server - 1)]
    }

    fn set_life(&mut self, server: u8, life: Life)
        requires low { 1 ≤ server }
        requires high { server ≤ 8 }
        ensures { self.new ≡ with_life self.old server life }
    {
        self.lives[usize::from(server - 1)] = life;
    }

    /// One line more.
    pub fn add(&mut self, line: Line)
        requires { HasRoom self.old line }
        ensures { self.new ≡ tally_after self.old line }
    {
        match line {
            Line::Set { mode, servers } => {
                self.direct = mode == SetMode::Direct;
                self.servers = servers;
            }
            Line::Items { items, .. } => self.items = items,
            Line::Change { .. } => self.changes += 1,
            Line::Stop { server } => {
                let boot = self.life(server).boot;
                self.set_life(
                    server,
                    Life {
                        running: false,
                        boot,
                    },
                );
            }
            Line::Start { server } => {
                let boot = self.life(server).boot;
                self.set_life(
                    server,
                    Life {
                        running: true,
                        boot: boot + 1,
                    },
                );
            }
            Line::Listen { .. } => self.listens += 1,
            Line::End => self.ended = true,
            _ => {}
        }
    }
}
