//! One line and its answer.

use crate::calls::answer_call;
use crate::elements::{tell_copied, tell_part};
use crate::kinds::tell_kind;
use crate::messages::{tell_header, tell_message};
use crate::objects::tell_object;
use crate::services::tell_service;
use rows::{Driver, Stop, Types, Verb, answer_asked, number};
use std::alloc::Global;

/// What is known of the messages' bodies.
#[derive(Drop)]
pub(crate) struct Bodies;

impl Types for Bodies {
    fn tell(
        alloc: Global,
        verb: Verb,
        name: &str,
        bytes: &[u8],
        to: &mut String,
    ) -> Result<(), Stop> {
        match name {
            "session.request" | "session.reply" | "sub.request" | "sub.reply" | "sole" => {
                tell_message(alloc, verb, name, bytes, to)
            }
            "header" => tell_header(alloc, verb, bytes, to),
            "request" | "reply" => tell_service(alloc, verb, name, bytes, to),
            "identity" | "filter" | "notification" | "sole.object" => {
                tell_object(alloc, verb, name, bytes, to)
            }
            _ => tell_part(alloc, verb, name, bytes, to),
        }
    }

    fn ask(
        alloc: Global,
        verb: &str,
        name: &str,
        bytes: &[u8],
        to: &mut String,
    ) -> Result<(), Stop> {
        match (verb, name) {
            ("copy", "NotificationMessage") => tell_copied(alloc, bytes, to),
            _ => Err(Stop::BadLine),
        }
    }
}

impl Driver for Bodies {
    fn answer(&mut self, alloc: Global, words: &[&str], to: &mut String) -> Result<(), Stop> {
        match words {
            ["call", call @ ..] => answer_call(alloc, call, to),
            ["kind", id] => tell_kind(alloc, number(id)?, to),
            _ => answer_asked::<Bodies>(alloc, words, to),
        }
    }
}
