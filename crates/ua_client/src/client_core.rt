ghost use Rattle.std.specs.Prelude.{◌≡◌, ◌≢◌, ◌≤◌, ◌++◌, ◌-◌, IfOk, OnOk, Some, length, replicate, slice_set};
ghost use Rattle.ua_base.specs.declared.modes.SetMode.TheVariants.{Direct};
ghost use Rattle.set_model.specs.declared.line.LogLine.TheVariants as line;
ghost use Rattle.delivery_log.specs.Log.{noted};
ghost use Rattle.failover_core.specs.Choice.{switch_of, wanted};
ghost use Rattle.link_rules.specs.Opening.{dials};
ghost use Rattle.link_rules.specs.Said.{orders_of};
ghost use Rattle.link_rules.specs.State.{new_link};
ghost use Rattle.link_rules.specs.Step.{wish_of, wish_taken};
ghost use Rattle.client_rules.specs.Links.{fell, moved, server_after, told};
ghost use Rattle.client_rules.specs.Settling.{with_choice};
ghost use Rattle.client_rules.specs.State.{idle_client, is_server, level_of, link_config, link_of, with_link, with_log};
ghost use Rattle.client_rules.specs.Step.{counted, dial_text, endpoint, url_text};
ghost use Rattle.ua_client.specs.Standing.{HasServer, Names};

use crate::moves::{Move, made};
use crate::telling::see;
use client_rules::ClientConfig;
use delivery_log::Log;
use failover_core::{Candidate, Core, resting};
use link_rules::{LinkConfig, Notice, Wish};
use set_model::LogLine;
use std::alloc::Global;
use std::marker::Model;
use ua_base::{Mode, OutOfMemory, SetMode};
use ua_channel::Order;
use ua_link::LinkCore;
use ua_values::UaText;

/// A client over whole messages, as the hub behind the ends of its servers: a connection's number is the server's.
#[derive(Drop)]
pub struct ClientCore {
    config: ClientConfig,
    servers: u8,
    links: Vec<LinkCore>,
    levels: Vec<u8>,
    choice: Core,
    cursor: u8,
    dials: u64,
    log: Log,
}

impl Model for ClientCore {
    ghost use Rattle.std.specs.Prelude.{length};
    ghost use Rattle.client_rules.specs.State.{ClientState};
    ghost use Rattle.ua_client.specs.Standing.{Stands};

    ghost Value = { ClientState };

    ghost view = { λ c. record {
      config = c.config;
      links = c.links.items;
      levels = c.levels.items;
      core = c.choice;
      cursor = c.cursor;
      dials = c.dials;
      log = c.log;
    } };

    ghost invariant = { λ c. Stands c.servers (length c.links.items) (length c.log.joints) (length c.log.lasts) c.config.items c.cursor };
}

/// What a link to a server is made with.
fn link_config(config: &ClientConfig) -> LinkConfig
    ensures { result ≡ link_config config.now }
{
    LinkConfig {
        items: config.items,
        queue: config.queue,
        oldest: config.oldest,
        rest: resting(config.mode),
        start: config.start,
    }
}

/// So many links that have no connection.
fn new_links(alloc: Global, count: u8, config: LinkConfig) -> Result<Vec<LinkCore>, OutOfMemory>
    ensures { IfOk result (λ links. links.items ≡ replicate count (new_link config)) }
{
    let mut links = Vec::new(alloc);
    for _server in 0..count {
        links.push(LinkCore::new(alloc, config))?;
    }
    Ok(links)
}

/// Another level of the server at a place, if there is one.
fn set_level(levels: &mut Vec<u8>, server: u8, level: u8)
    requires { 1 ≤ server }
    ensures { levels.new.items ≡ slice_set levels.old.items (server - 1) level }
{
    let place = usize::from(server - 1);
    if place < levels.len() {
        levels[place] = level;
    }
}

impl ClientCore {
    /// A client that dialled nobody.
    ///
    /// # Errors
    ///
    /// Want of memory.
    pub(crate) fn new(alloc: Global, config: ClientConfig) -> Result<ClientCore, OutOfMemory>
        requires mode { config.mode ≢ Direct }
        requires servers { (1 ≤ length config.urls) × (length config.urls ≤ 255) }
        ensures { IfOk result (λ client. client ≡ idle_client config) }
    {
        let servers = config.urls.len() as u8;
        let links = new_links(alloc, servers, link_config(&config))?;
        let levels = vec![in alloc; 0; usize::from(servers)]?;
        let log = Log::new(alloc, servers, config.items)?;
        let choice = Core::new(config.mode);
        Ok(ClientCore {
            config,
            servers,
            links,
            levels,
            choice,
            cursor: 1,
            dials: 0,
            log,
        })
    }

    /// How the client uses the set.
    pub(crate) fn mode(&self) -> SetMode
        ensures { result ≡ self.now.config.mode }
    {
        self.config.mode
    }

    /// How many servers it has.
    pub(crate) fn count(&self) -> u8
        ensures { result ≡ length self.now.links }
    {
        self.servers
    }

    /// The server that a connection's number names.
    pub(crate) fn server(&self, conn: u32) -> Option<u8>
        ensures { Names result conn self.now }
    {
        if conn >= 1 && conn <= u32::from(self.servers) {
            Some(conn as u8)
        } else {
            None
        }
    }

    /// Whether it has a server of this number.
    pub(crate) fn has(&self, server: u8) -> bool
        ensures { result ≡ is_server server self.now }
    {
        server >= 1 && server <= self.servers
    }

    /// The server that a cold client dials next.
    pub(crate) fn cursor(&self) -> u8
        ensures server { result ≡ self.now.cursor }
        ensures has { HasServer result self.now }
    {
        self.cursor
    }

    /// The link to a server.
    pub(crate) fn link(&self, server: u8) -> &LinkCore
        requires { HasServer server self.now }
        ensures { result.now ≡ link_of server self.now }
    {
        &self.links[usize::from(server - 1)]
    }

    /// The level that was read of a server last.
    pub(crate) fn level(&self, server: u8) -> u8
        requires { HasServer server self.now }
        ensures { result ≡ level_of server self.now }
    {
        match self.levels.get(usize::from(server - 1)) {
            Some(level) => *level,
            None => 0,
        }
    }

    /// How a server's items are to be monitored.
    pub(crate) fn wanted(&self, server: u8) -> Mode
        ensures { result ≡ wanted server self.now.core }
    {
        self.choice.wanted(server)
    }

    /// The lines of the report so far.
    pub(crate) fn lines(&self) -> &[LogLine]
        ensures { result.now ≡ self.now.log.lines }
    {
        self.log.lines()
    }

    /// The server after one, around the ring.
    pub(crate) fn after(&self, server: u8) -> u8
        requires { HasServer server self.now }
        ensures server { result ≡ server_after server self.now }
        ensures has { HasServer result self.now }
    {
        if server == self.servers {
            1
        } else {
            server + 1
        }
    }

    /// The endpoint of a connection to a server that is opened now.
    pub(crate) fn endpoint(&self, alloc: Global, server: u8) -> Result<UaText, OutOfMemory>
        requires { HasServer server self.now }
        ensures { IfOk result (λ text. text ≡ Some (endpoint server self.now)) }
    {
        let mut text = Vec::new(alloc);
        if let Some(url) = self.config.urls.as_slice().get(usize::from(server - 1)) {
            put_url(url, &mut text)?;
        }
        put_dial(self.dials, &mut text)?;
        Ok(UaText::new(text))
    }

    /// How many connections were opened.
    pub(crate) fn dials(&self) -> u64
        ensures { result ≡ self.now.dials }
    {
        self.dials
    }

    /// One more connection was opened.
    pub(crate) fn count_dial(&mut self)
        ensures { self.new ≡ counted self.old }
    {
        self.dials = self.dials.saturating_add(1);
    }

    /// The link to a server fell, or didn't.
    fn fall(&mut self, server: u8, falls: bool)
        requires { HasServer server self.old }
        ensures state { self.new ≡ fell server falls self.old }
        ensures links { self.new.links ≡ self.old.links }
    {
        if falls {
            self.cursor = self.after(server);
        }
    }

    /// Lets the link to a server do something, and appends what it orders and tells.
    pub(crate) fn make<M: Move>(
        &mut self,
        alloc: Global,
        server: u8,
        by: &M,
        to: &mut Vec<Order>,
        notices: &mut Vec<Notice>,
    ) -> Result<(), OutOfMemory>
        requires { HasServer server self.old }
        ensures state { OnOk result (self.new ≡ moved server (M.rule by.now (link_of server self.old)).link self.old) }
        ensures links { OnOk result (length self.new.links ≡ length self.old.links) }
        ensures orders { OnOk result (to.new.items
            ≡ to.old.items ++ orders_of (M.rule by.now (link_of server self.old)).said) }
        ensures told { OnOk result (notices.new.items
            ≡ notices.old.items ++ (M.rule by.now (link_of server self.old)).notices) }
    {
        let link = &mut self.links[usize::from(server - 1)];
        let falls = made(alloc, link, by, to, notices)?;
        self.fall(server, falls);
        Ok(())
    }

    /// Notes what the link to a server told.
    #[tactic(auto, unfolding(client_rules::specs::Links::told))]
    pub(crate) fn tell(
        &mut self,
        alloc: Global,
        server: u8,
        notice: &Notice,
    ) -> Result<(), OutOfMemory>
        requires { HasServer server self.old }
        ensures state { OnOk result (self.new ≡ told server notice.now self.old) }
        ensures links { OnOk result (self.new.links ≡ self.old.links) }
    {
        let items = self.config.items;
        see(
            alloc,
            &mut self.log,
            self.config.mode,
            items,
            server,
            notice,
        )?;
        if let Notice::Level { level } = notice {
            set_level(&mut self.levels, server, *level);
        }
        Ok(())
    }

    /// Chooses among the servers that are ready.
    pub(crate) fn decide(&mut self, ready: &[Candidate]) -> Option<(u8, u8)>
        ensures state { self.new ≡ with_choice ready.now self.old }
        ensures told { result ≡ switch_of ready.now self.old.core }
    {
        self.choice.decide(ready)
    }

    /// Notes that the active server changed, 0 standing for none.
    pub(crate) fn switch(&mut self, from: u8, to: u8) -> Result<(), OutOfMemory>
        ensures { OnOk result (self.new ≡ with_log (noted (line.Switch from to) self.old.log) self.old) }
    {
        self.log.note(LogLine::Switch { from, to })
    }

    /// Lets the link to a server dial, if it may.
    pub(crate) fn dial(&mut self, server: u8)
        requires { HasServer server self.old }
        ensures state { self.new ≡ with_link server (dials (link_of server self.old)) self.old }
        ensures links { length self.new.links ≡ length self.old.links }
    {
        self.links[usize::from(server - 1)].dial();
    }

    /// Takes the wish for the connection to a server.
    pub(crate) fn take_wish(&mut self, server: u8) -> Wish
        requires { HasServer server self.old }
        ensures wish { result ≡ wish_of (link_of server self.old) }
        ensures state { self.new ≡ with_link server (wish_taken (link_of server self.old)) self.old }
    {
        self.links[usize::from(server - 1)].take_wish()
    }
}

/// Appends the bytes of a url.
fn put_url(url: &UaText, to: &mut Vec<u8>) -> Result<(), OutOfMemory>
    ensures { OnOk result (to.new.items ≡ to.old.items ++ url_text url.now) }
{
    if let Some(bytes) = url.bytes() {
        to.extend_from_slice(bytes)?;
    }
    Ok(())
}

/// Appends a slash and a connection's number.
fn put_dial(dial: u64, to: &mut Vec<u8>) -> Result<(), OutOfMemory>
    ensures { OnOk result (to.new.items ≡ to.old.items ++ dial_text dial) }
{
    let text = format!(in *to.allocator(); "/{dial}")?;
    to.extend_from_slice(text.as_bytes())?;
    Ok(())
}
