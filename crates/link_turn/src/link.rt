ghost use Rattle.std.specs.Prelude.{◌≡◌, ◌++◌, ◌∷◌, [], Some, None, true, OnOk};
ghost use Rattle.link_rules.specs.State.{forgotten, is_idle, is_ready, new_conversation, new_link, null_node, ready_in};
ghost use Rattle.link_rules.specs.State.{with_conversation, with_phase, with_ready, with_remembered};
ghost use Rattle.link_rules.specs.Messages.{acknowledged, awaits};
ghost use Rattle.link_rules.specs.Subscribing.{made};
ghost use Rattle.link_rules.specs.Opening.{connected};

use link_rules::{Conversation, LinkConfig, Monitored, Phase, ReadyState, Remembered};
use std::alloc::Global;
use std::marker::Model;
use ua_base::OutOfMemory;
use ua_values::{NodeId, UaText};

/// One server as its client sees it, over lost connections.
#[derive(Debug, Drop)]
pub struct Link {
    pub(crate) config: LinkConfig,
    pub(crate) age: u64,
    pub(crate) phase: Phase,
    pub(crate) since: u64,
    pub(crate) wait: u32,
    pub(crate) closes: bool,
    pub(crate) unsupported: bool,
    pub(crate) url: UaText,
    pub(crate) session: NodeId,
    pub(crate) conversation: Conversation,
    pub(crate) remembered: Option<Remembered>,
    pub(crate) monitored: Vec<Monitored>,
    pub(crate) acks: Vec<u32>,
}

impl Model for Link {
    ghost use Rattle.link_rules.specs.State.{LinkState};

    ghost Value = { LinkState };

    ghost view = { λ l. record {
      config = l.config;
      age = l.age;
      phase = l.phase;
      since = l.since;
      wait = l.wait;
      closes = l.closes;
      unsupported = l.unsupported;
      url = l.url;
      session = l.session;
      conversation = l.conversation;
      remembered = l.remembered;
      monitored = l.monitored.items;
      acks = l.acks.items;
    } };
}

/// The NodeId that names nothing.
pub(crate) fn null_node() -> NodeId
    ensures { result ≡ null_node }
{
    NodeId::Numeric {
        namespace: 0,
        id: 0,
    }
}

/// A connection on which nothing was said.
fn new_conversation() -> Conversation
    ensures { result ≡ new_conversation }
{
    Conversation {
        channel: 0,
        token: 0,
        limit: 0,
        last: 0,
        opened: 0,
        lifetime: 0,
        renewal: None,
        reading: None,
        read_at: 0,
    }
}

impl Link {
    /// One that has no connection and of whose server nothing is known. It takes no memory.
    pub fn new(alloc: Global, config: LinkConfig) -> Link
        ensures { result ≡ new_link config }
    {
        Link {
            config,
            age: 0,
            phase: Phase::Idle,
            since: 0,
            wait: 0,
            closes: false,
            unsupported: false,
            url: UaText::null(),
            session: null_node(),
            conversation: new_conversation(),
            remembered: None,
            monitored: Vec::new(alloc),
            acks: Vec::new(alloc),
        }
    }

    /// What it was made with.
    pub fn config(&self) -> LinkConfig
        ensures { result ≡ self.now.config }
    {
        self.config
    }

    /// How long it lives, in milliseconds.
    pub fn age(&self) -> u64
        ensures { result ≡ self.now.age }
    {
        self.age
    }

    /// How far it has come.
    pub fn phase(&self) -> &Phase
        ensures { result.now ≡ self.now.phase }
    {
        &self.phase
    }

    /// When it came to its phase, or heard in it what keeps it there, in milliseconds of its age.
    pub fn since(&self) -> u64
        ensures { result ≡ self.now.since }
    {
        self.since
    }

    /// For how many milliseconds it doesn't dial.
    pub fn wait(&self) -> u32
        ensures { result ≡ self.now.wait }
    {
        self.wait
    }

    /// Whether it wishes that its connection be closed.
    pub fn closes(&self) -> bool
        ensures { result ≡ self.now.closes }
    {
        self.closes
    }

    /// Whether the server's redundancy is of a kind that isn't used.
    pub fn unsupported(&self) -> bool
        ensures { result ≡ self.now.unsupported }
    {
        self.unsupported
    }

    /// The endpoint of the last connection.
    pub fn url(&self) -> &UaText
        ensures { result.now ≡ self.now.url }
    {
        &self.url
    }

    /// The secret id of its session (OPC 10000-4, 5.6.2).
    pub fn session(&self) -> &NodeId
        ensures { result.now ≡ self.now.session }
    {
        &self.session
    }

    /// What counts on its connection.
    pub fn conversation(&self) -> Conversation
        ensures { result ≡ self.now.conversation }
    {
        self.conversation
    }

    /// Its subscription.
    pub fn remembered(&self) -> Option<Remembered>
        ensures { result ≡ self.now.remembered }
    {
        self.remembered
    }

    /// The subscription's items that were made.
    pub fn monitored(&self) -> &[Monitored]
        ensures { result.now ≡ self.now.monitored }
    {
        self.monitored.as_slice()
    }

    /// The numbers of the subscription's messages that are to be acknowledged, oldest first.
    pub fn acks(&self) -> &[u32]
        ensures { result.now ≡ self.now.acks }
    {
        self.acks.as_slice()
    }

    /// What is known where its subscription sends.
    pub fn ready(&self) -> Option<ReadyState>
        ensures { result ≡ ready_in self.now.phase }
    {
        match &self.phase {
            Phase::Ready(ready) => Some(*ready),
            _ => None,
        }
    }

    /// Whether its subscription sends.
    pub fn is_ready(&self) -> bool
        ensures { result ≡ is_ready self.now }
    {
        matches!(&self.phase, Phase::Ready(_))
    }

    /// Whether it has no connection.
    pub fn is_idle(&self) -> bool
        ensures { result ≡ is_idle self.now }
    {
        matches!(&self.phase, Phase::Idle)
    }

    /// Begins another phase.
    pub fn begin(&mut self, phase: Phase)
        ensures { self.new ≡ with_phase phase self.old }
    {
        self.phase = phase;
        self.since = self.age;
    }

    /// Changes what is known in the phase Ready.
    pub fn set_ready(&mut self, ready: ReadyState)
        ensures { self.new ≡ with_ready ready self.old }
    {
        self.phase = Phase::Ready(ready);
    }

    /// Changes what counts on its connection.
    pub fn set_conversation(&mut self, conversation: Conversation)
        ensures { self.new ≡ with_conversation conversation self.old }
    {
        self.conversation = conversation;
    }

    /// Changes its subscription.
    pub fn set_remembered(&mut self, remembered: Remembered)
        ensures { self.new ≡ with_remembered remembered self.old }
    {
        self.remembered = Some(remembered);
    }

    /// Forgets its subscription. It takes no memory.
    pub fn forget(&mut self, alloc: Global)
        ensures { self.new ≡ forgotten self.old }
    {
        self.remembered = None;
        self.monitored = Vec::new(alloc);
        self.acks = Vec::new(alloc);
    }

    /// A message of this number is to be acknowledged.
    pub fn acknowledge(&mut self, number: u32) -> Result<(), OutOfMemory>
        ensures { OnOk result (self.new ≡ acknowledged number self.old) }
    {
        self.acks.push(number)?;
        Ok(())
    }

    /// The subscription's next message has this number.
    pub fn await_next(&mut self, next: u32, remembered: Remembered)
        ensures { self.new ≡ awaits next remembered self.old }
    {
        self.remembered = Some(Remembered {
            id: remembered.id,
            next,
        });
    }

    /// It has a new subscription of this id. It takes no memory.
    pub fn make(&mut self, alloc: Global, id: u32)
        ensures { self.new ≡ made id self.old }
    {
        self.remembered = Some(Remembered { id, next: 1 });
        self.monitored = Vec::new(alloc);
        self.acks = Vec::new(alloc);
    }

    /// Sets the secret id of its session.
    pub fn set_session(&mut self, session: NodeId)
        ensures { self.new ≡ record self.old { session = session } }
    {
        self.session = session;
    }

    /// Sets the subscription's items that were made.
    pub fn set_monitored(&mut self, monitored: Vec<Monitored>)
        ensures { self.new ≡ record self.old { monitored = monitored.items } }
    {
        self.monitored = monitored;
    }

    /// The server's redundancy is of a kind that isn't used.
    pub fn set_unsupported(&mut self)
        ensures { self.new ≡ record self.old { unsupported = true } }
    {
        self.unsupported = true;
    }

    /// Sets whether it wishes that its connection be closed.
    pub fn set_closes(&mut self, closes: bool)
        ensures { self.new ≡ record self.old { closes = closes } }
    {
        self.closes = closes;
    }

    /// Sets when it heard last what keeps it in its phase.
    pub fn set_since(&mut self, since: u64)
        ensures { self.new ≡ record self.old { since = since } }
    {
        self.since = since;
    }

    /// It has a connection to this endpoint, on which nothing was said. It takes no memory.
    pub fn connect(&mut self, url: UaText)
        ensures { self.new ≡ connected url self.old }
    {
        self.url = url;
        self.session = null_node();
        self.conversation = new_conversation();
        self.begin(Phase::Hello);
    }
}
