//! A link as the core of an end, with what it told.

ghost use Rattle.std.specs.Prelude.{◌≡◌, ◌++◌, [], OnOk};
ghost use Rattle.link_rules.specs.State.{new_link};

use crate::link_core::LinkCore;
use link_rules::{LinkConfig, Notice};
use std::alloc::Global;
use std::marker::Model;
use std::mem;
use ua_base::OutOfMemory;
use ua_channel::{Core, Ear, Heard, Order};

/// The link, and the notices that weren't taken.
#[derive(Drop)]
pub(crate) struct Telling {
    pub(crate) link: LinkCore,
    pub(crate) notices: Vec<Notice>,
}

impl Model for Telling {
    ghost use Rattle.std.specs.Coded.{codes};
    ghost use Rattle.ua_variants.specs.contracts.variant.Variant as variant;
    ghost use Rattle.ua_link.specs.Talk.{Telling};

    ghost Value = { Telling };

    ghost coded = { Prim.hlevel (codes, variant.the_row.coded) };

    ghost view = { λ t. record { link = t.link; notices = t.notices.items } };
}

impl Telling {
    /// A link that begins. It takes no memory.
    pub(crate) fn new(alloc: Global, config: LinkConfig) -> Telling
        ensures { result ≡ record { link = new_link config; notices = [] } }
    {
        Telling {
            link: LinkCore::new(alloc, config),
            notices: Vec::new(alloc),
        }
    }

    /// Gives the notices that weren't taken.
    pub(crate) fn take_notices(&mut self, alloc: Global) -> Vec<Notice>
        ensures notices { result.items ≡ self.old.notices }
        ensures state { self.new ≡ record self.old { notices = [] } }
    {
        mem::replace(&mut self.notices, Vec::new(alloc))
    }
}

impl Core for Telling {
    ghost use Rattle.ua_link.specs.Talk as talk;

    ghost ears = { λ conn t. talk.ears t };

    ghost answer = { λ conn h t. talk.answer h t };

    fn ear(&self, _conn: u32) -> Ear {
        self.link.ear()
    }

    fn hear(
        &mut self,
        alloc: Global,
        _conn: u32,
        heard: &Heard,
        to: &mut Vec<Order>,
    ) -> Result<(), OutOfMemory> {
        self.link.heard(alloc, heard, to, &mut self.notices)
    }
}
