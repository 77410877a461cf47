//! One line and its answer.

use crate::calls::answer_call;
use crate::frames::{tell_count, tell_cuts, tell_frames};
use crate::greetings::tell_greeting;
use crate::messages::{answer_steps, answer_stream};
use crate::nested::tell_nested;
use crate::numbers::tell_number;
use crate::putting::{answer_passed, answer_puts};
use crate::shown::tell_shown;
use crate::texts::{tell_copied, tell_text};
use crate::types::tell_within;
use rows::{Driver, Stop, Types, Verb, answer_asked, bytes_of, number, positive};
use std::alloc::Global;

/// What is known of values, frames and messages.
#[derive(Drop)]
pub(crate) struct Wire;

impl Types for Wire {
    fn tell(
        alloc: Global,
        verb: Verb,
        name: &str,
        bytes: &[u8],
        to: &mut String,
    ) -> Result<(), Stop> {
        match name {
            "HEL" | "ACK" | "ERR" | "OPN" | "OPN.policy" => {
                tell_greeting(alloc, verb, name, bytes, to)
            }
            "show.value" | "show.stream" => tell_shown(alloc, verb, name, bytes, to),
            "Variant" | "DataValue" | "DiagnosticInfo" => tell_nested(alloc, verb, name, bytes, to),
            "String"
            | "ByteString"
            | "XmlElement"
            | "NodeId"
            | "ExpandedNodeId"
            | "QualifiedName"
            | "LocalizedText"
            | "ExtensionObject" => { tell_text(alloc, verb, name, bytes, to) }
            _ => tell_number(alloc, verb, name, bytes, to),
        }
    }

    fn ask(
        alloc: Global,
        verb: &str,
        name: &str,
        bytes: &[u8],
        to: &mut String,
    ) -> Result<(), Stop> {
        match verb {
            "copy" => tell_copied(alloc, name, bytes, to),
            "within" => tell_within(alloc, number(name)?, bytes, to),
            "frames" => tell_frames(alloc, positive(name)?, [bytes, &[]], to),
            "count" => tell_count(alloc, positive(name)?, bytes, to),
            _ => Err(Stop::BadLine),
        }
    }
}

impl Driver for Wire {
    fn answer(&mut self, alloc: Global, words: &[&str], to: &mut String) -> Result<(), Stop> {
        match words {
            ["call", call @ ..] => answer_call(alloc, call, to),
            ["stream", rest @ ..] => answer_stream(alloc, rest, to),
            ["take", rest @ ..] => answer_steps(alloc, rest, to),
            ["put", rest @ ..] => answer_puts(alloc, rest, to),
            ["cuts", digits @ ..] => tell_cuts(alloc, &bytes_of(alloc, digits)?, to),
            ["repeat", count, "pass", size, cut, digits @ ..] => {
                answer_passed(alloc, [count, size, cut], digits, to)
            }
            _ => answer_asked::<Wire>(alloc, words, to),
        }
    }
}
