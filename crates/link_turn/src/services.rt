//! What a link asks for.

ghost use Rattle.std.specs.Prelude.{◌≡◌, ◌≤◌, pos, OnOk};
ghost use Rattle.link_rules.specs.declared.phase.Phase.TheVariants as phase;
ghost use Rattle.link_rules.specs.State.{with_phase};
ghost use Rattle.link_rules.specs.Asking.{asked, asked_opening};
ghost use Rattle.link_rules.specs.Requests.{channel_request, level_request, mode_request, republish_request};
ghost use Rattle.link_rules.specs.Requests.{transfer_request};
ghost use Rattle.link_rules.specs.Opening.{creates_session, opens_channel};
ghost use Rattle.link_rules.specs.Publishing.{one_more, published, subscribes, with_publish, with_setting};
ghost use Rattle.link_rules.specs.Starting.{activates, has_read, probes};
ghost use Rattle.link_rules.specs.Subscribing.{adds_items};
ghost use Rattle.link_rules.specs.Time.{with_reading, with_renewal};
ghost use Rattle.link_turn.specs.Turns.{done};

use crate::link::Link;
use crate::turn::Turn;
use link_rules::{Phase, Publishes, ReadyState, Remembered, Setting};
use std::alloc::Global;
use ua_base::{Mode, OutOfMemory};
use ua_structures::UaArray;

/// One more Publish that isn't answered, where there is room.
fn one_more(handle: u32, publishes: Publishes) -> Publishes
    ensures { result ≡ one_more handle publishes }
{
    match publishes {
        Publishes::Zero => Publishes::One(handle),
        Publishes::One(first) => Publishes::Two(first, handle),
        Publishes::Two(first, second) => Publishes::Two(first, second),
    }
}

impl Link {
    /// The next request is a Read.
    fn will_read(&mut self)
        ensures { self.new ≡ has_read self.old }
    {
        self.conversation.read_at = self.age;
    }

    /// The next request is a Read of the ServiceLevel.
    fn will_read_level(&mut self)
        ensures { self.new ≡ with_reading self.old }
    {
        self.conversation.reading = Some(self.next_asked());
        self.conversation.read_at = self.age;
    }

    /// The next request renews the token.
    fn will_renew(&mut self)
        ensures { self.new ≡ with_renewal self.old }
    {
        self.conversation.renewal = Some(self.next_asked());
    }

    /// The next request is a Publish, with the acknowledgements that are due.
    fn will_publish(&mut self, alloc: Global, ready: ReadyState)
        ensures { self.new ≡ with_publish ready self.old }
    {
        let publishes = one_more(self.next_request(), ready.publishes);
        self.set_ready(ReadyState { publishes, ..ready });
        self.acks = Vec::new(alloc);
    }

    /// The next request asks for this mode.
    fn will_set(&mut self, mode: Mode, ready: ReadyState)
        ensures { self.new ≡ with_setting mode ready self.old }
    {
        let setting = Setting {
            asked: self.next_asked(),
            mode,
        };
        self.set_ready(ReadyState {
            setting: Some(setting),
            ..ready
        });
    }
}

impl Turn {
    /// OpenSecureChannel: a first token (OPC 10000-4, 5.5.2).
    #[tactic(auto, unfolding(link_rules::specs::Opening::opens_channel))]
    pub fn open_channel(&mut self, alloc: Global) -> Result<(), OutOfMemory>
        ensures { OnOk result (self.new ≡ done (opens_channel self.old.link) self.old) }
    {
        let request = self.link.channel_request(0);
        self.link.begin(Phase::Opening);
        self.ask_opening(alloc, request)
    }

    /// OpenSecureChannel: another token (OPC 10000-4, 5.5.2).
    pub fn renew_token(&mut self, alloc: Global) -> Result<(), OutOfMemory>
        ensures { OnOk result (self.new
            ≡ done (asked_opening (channel_request (pos 1) self.old.link) (with_renewal self.old.link)) self.old) }
    {
        let request = self.link.channel_request(1);
        self.link.will_renew();
        self.ask_opening(alloc, request)
    }

    /// CreateSession (OPC 10000-4, 5.6.2).
    #[tactic(auto, unfolding(link_rules::specs::Opening::creates_session))]
    pub fn create_session(&mut self, alloc: Global) -> Result<(), OutOfMemory>
        ensures { OnOk result (self.new ≡ done (creates_session self.old.link) self.old) }
    {
        let request = self.link.session_request(alloc)?;
        self.link.begin(Phase::Creating);
        self.ask(alloc, request)
    }

    /// ActivateSession (OPC 10000-4, 5.6.3).
    #[tactic(auto, unfolding(link_rules::specs::Starting::activates))]
    pub fn activate(&mut self, alloc: Global) -> Result<(), OutOfMemory>
        ensures { OnOk result (self.new ≡ done (activates self.old.link) self.old) }
    {
        let request = self.link.activation_request(alloc)?;
        self.link.begin(Phase::Activating);
        self.ask(alloc, request)
    }

    /// A Read of the ServiceLevel and the RedundancySupport (OPC 10000-5, 6.3.1 and 6.3.7).
    #[tactic(auto, unfolding(link_rules::specs::Starting::probes))]
    pub fn probe(&mut self, alloc: Global) -> Result<(), OutOfMemory>
        ensures { OnOk result (self.new ≡ done (probes self.old.link) self.old) }
    {
        let request = self.link.probe_request(alloc)?;
        self.link.will_read();
        self.link.begin(Phase::Probing);
        self.ask(alloc, request)
    }

    /// A Read of the ServiceLevel (OPC 10000-4, 6.6.2.4.2).
    pub fn read_level(&mut self, alloc: Global) -> Result<(), OutOfMemory>
        ensures { OnOk result (self.new
            ≡ done (asked (level_request self.old.link) (with_reading self.old.link)) self.old) }
    {
        let request = self.link.level_request(alloc)?;
        self.link.will_read_level();
        self.ask(alloc, request)
    }

    /// TransferSubscriptions of the subscription of this id (OPC 10000-4, 5.13.7).
    pub fn transfer(&mut self, alloc: Global, id: u32) -> Result<(), OutOfMemory>
        ensures { OnOk result (self.new
            ≡ done (asked (transfer_request id self.old.link) (with_phase phase.Transferring self.old.link)) self.old) }
    {
        let request = self.link.transfer_request(alloc, id)?;
        self.link.begin(Phase::Transferring);
        self.ask(alloc, request)
    }

    /// Republish of a message by its number; these are still to be asked for, after it (OPC 10000-4, 5.13.6).
    pub fn republish(
        &mut self,
        alloc: Global,
        id: u32,
        number: u32,
        wanted: UaArray<u32>,
    ) -> Result<(), OutOfMemory>
        ensures { OnOk result (self.new ≡ done
            (asked (republish_request id number self.old.link) (with_phase (phase.Republishing wanted) self.old.link)) self.old) }
    {
        let request = self.link.republish_request(alloc, id, number)?;
        self.link.begin(Phase::Republishing { wanted });
        self.ask(alloc, request)
    }

    /// CreateSubscription, in place of any former one (OPC 10000-4, 5.13.2).
    #[tactic(auto, unfolding(link_rules::specs::Publishing::subscribes))]
    pub fn subscribe(&mut self, alloc: Global) -> Result<(), OutOfMemory>
        ensures { OnOk result (self.new ≡ done (subscribes self.old.link) self.old) }
    {
        let request = self.link.subscription_request(alloc)?;
        self.link.forget(alloc);
        self.link.begin(Phase::Subscribing);
        self.ask(alloc, request)
    }

    /// CreateMonitoredItems for the subscription of this id (OPC 10000-4, 5.12.2).
    #[tactic(auto, unfolding(link_rules::specs::Subscribing::adds_items))]
    pub fn add_items(&mut self, alloc: Global, id: u32) -> Result<(), OutOfMemory>
        ensures { OnOk result (self.new ≡ done (adds_items id self.old.link) self.old) }
    {
        let request = self.link.items_request(alloc, id)?;
        self.link.begin(Phase::Adding);
        self.ask(alloc, request)
    }

    /// Publish, with the acknowledgements that are due (OPC 10000-4, 5.13.5).
    #[tactic(auto, unfolding(link_rules::specs::Publishing::published))]
    pub fn publish(
        &mut self,
        alloc: Global,
        ready: ReadyState,
        remembered: Remembered,
    ) -> Result<(), OutOfMemory>
        ensures { OnOk result (self.new ≡ done (published ready remembered self.old.link) self.old) }
    {
        let request = self.link.publish_request(alloc, remembered.id)?;
        self.link.will_publish(alloc, ready);
        self.ask(alloc, request)
    }

    /// SetMonitoringMode of all items of the subscription of this id (OPC 10000-4, 5.12.4).
    pub fn ask_mode(
        &mut self,
        alloc: Global,
        id: u32,
        mode: Mode,
        ready: ReadyState,
    ) -> Result<(), OutOfMemory>
        ensures { OnOk result (self.new
            ≡ done (asked (mode_request id mode self.old.link) (with_setting mode ready self.old.link)) self.old) }
    {
        let request = self.link.mode_request(alloc, id, mode)?;
        self.link.will_set(mode, ready);
        self.ask(alloc, request)
    }
}
