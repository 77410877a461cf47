ghost use Rattle.std.specs.Prelude.{◌≡◌};
ghost use Rattle.server_rules.specs.State.{new_server};

use crate::notices::Notices;
use crate::subs::Subs;
use redundancy_nodes::CurrentChanges;
use server_rules::{Conn, ServerConfig};
use sessions::Sessions;
use std::alloc::Global;
use std::marker::Model;

/// What a server knows between two events: plain data, over whole messages.
#[derive(Debug, Drop)]
pub struct ServerData {
    pub(crate) config: ServerConfig,
    pub(crate) age: u64,
    pub(crate) level: u8,
    pub(crate) current: CurrentChanges,
    pub(crate) sessions: Sessions,
    pub(crate) notices: Notices,
    pub(crate) subs: Subs,
    pub(crate) made: u32,
    pub(crate) channels_given: u32,
    pub(crate) highest: Option<u32>,
    pub(crate) conns: Vec<Conn>,
}

impl Model for ServerData {
    ghost use Rattle.server_rules.specs.State.{ServerState};

    ghost Value = { ServerState };

    ghost view = { λ d. record {
      config = d.config;
      age = d.age;
      level = d.level;
      current = d.current;
      sessions = d.sessions;
      notices = d.notices;
      subs = d.subs;
      made = d.made;
      channels_given = d.channels_given;
      highest = d.highest;
      conns = d.conns.items;
    } };
}

impl ServerData {
    /// A life that begins, with the items' current values. It takes no memory.
    pub fn new(alloc: Global, config: ServerConfig, current: CurrentChanges) -> ServerData
        ensures { result ≡ new_server config current }
    {
        let sessions = Sessions::new(alloc, config.boot);
        ServerData {
            config,
            age: 0,
            level: 255,
            current,
            sessions,
            notices: Notices::new(alloc),
            subs: Subs::new(alloc),
            made: 0,
            channels_given: 0,
            highest: None,
            conns: Vec::new(alloc),
        }
    }
}
