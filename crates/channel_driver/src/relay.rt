//! A hub that gives each message to the connection of the next number.

use std::alloc::Global;
use ua_base::OutOfMemory;
use ua_channel::{Ear, Heard, Hub, Order, Wire};
use ua_chunks::Kind;

/// Whether a fault or a CLO came.
#[derive(Clone, Copy, Debug, Drop)]
pub struct Relay {
    pub is_deaf: bool,
}

impl Hub for Relay {
    ghost use Rattle.channel_driver.specs.Echoing.{relay_ear, relayed};

    ghost ears = { λ conn r. relay_ear r };

    ghost answers = { λ conn h r. relayed conn h r };

    fn ear(&self, _conn: u32) -> Ear {
        if self.is_deaf { Ear::Deaf } else { Ear::Open }
    }

    fn hear(
        &mut self,
        alloc: Global,
        conn: u32,
        heard: &Heard,
        to: &mut Vec<(u32, Order)>,
    ) -> Result<(), OutOfMemory> {
        match heard {
            Heard::Greeting { .. } | Heard::Opening { .. } => Ok(()),
            Heard::Message { request, body } => {
                let own = Vec::from_slice(alloc, body.bytes())?;
                let wire = Wire::new(Kind::Msg, 0, 0, *request, own);
                to.push((conn.saturating_add(1), Order::Put(wire)))?;
                Ok(())
            }
            Heard::Close | Heard::Fault { .. } => {
                self.is_deaf = true;
                Ok(())
            }
        }
    }
}
