//! The messages that a subscription keeps; each message is a number here.

use retransmit::Kept;
use rows::{Stop, number, put, put_number};
use std::alloc::Global;
use ua_base::OutOfMemory;

#[derive(Drop)]
pub struct KeptTable {
    kept: Kept<u64>,
}

fn kept(alloc: Global) -> Result<Kept<u64>, OutOfMemory> {
    Kept::new(alloc)
}

impl KeptTable {
    pub(crate) fn new(alloc: Global) -> Result<KeptTable, Stop> {
        let kept = kept(alloc)?;
        Ok(KeptTable { kept })
    }

    fn begin(&mut self, alloc: Global) -> Result<(), Stop> {
        self.kept = kept(alloc)?;
        Ok(())
    }

    fn send(&mut self, number: u32, message: u64) -> Result<(), Stop> {
        self.kept.send(number, message)?;
        Ok(())
    }

    /// Sends each of these numbers, with ten times itself as its message.
    fn send_each(&mut self, first: u32, last: u32) -> Result<(), Stop> {
        for number in first..=last {
            self.send(number, u64::from(number) * 10)?;
        }
        Ok(())
    }

    fn put_message(&self, alloc: Global, to: &mut String, number: u32) -> Result<(), Stop> {
        match self.kept.get(number) {
            Some(message) => put_number(alloc, to, *message),
            None => put(to, "none"),
        }
    }

    fn put_ack(&mut self, alloc: Global, to: &mut String, number: u32) -> Result<(), Stop> {
        match self.kept.ack(number) {
            Ok(()) => put(to, "done"),
            Err(unknown) => put(to, format!(in alloc; "{unknown}")?.as_str()),
        }
    }

    /// Puts the available numbers behind these.
    fn put_numbers(&self, alloc: Global, to: &mut String, before: &[&str]) -> Result<(), Stop> {
        let mut numbers = numbers_of(alloc, before)?;
        self.kept.numbers(&mut numbers)?;
        put_list(alloc, to, &numbers)
    }

    /// Makes a call that answers nothing.
    fn make(&mut self, alloc: Global, words: &[&str]) -> Result<(), Stop> {
        match words {
            ["new"] => self.begin(alloc),
            ["send", sent, message] => self.send(number(sent)?, number(message)?),
            ["sends", first, last] => self.send_each(number(first)?, number(last)?),
            _ => Err(Stop::BadLine),
        }
    }

    /// Answers a call of these words.
    pub(crate) fn answer(
        &mut self,
        alloc: Global,
        words: &[&str],
        to: &mut String,
    ) -> Result<(), Stop> {
        match words {
            ["ack", sent] => self.put_ack(alloc, to, number(sent)?),
            ["get", sent] => self.put_message(alloc, to, number(sent)?),
            ["numbers", before @ ..] => self.put_numbers(alloc, to, before),
            _ => {
                self.make(alloc, words)?;
                put(to, "done")
            }
        }
    }
}

fn numbers_of(alloc: Global, words: &[&str]) -> Result<Vec<u32>, Stop> {
    let mut numbers = Vec::new(alloc);
    for word in words {
        numbers.push(number::<u32>(word)?)?;
    }
    Ok(numbers)
}

/// Appends numbers, with a space between; none are `-`.
fn put_list(alloc: Global, to: &mut String, numbers: &[u32]) -> Result<(), Stop> {
    if numbers.is_empty() {
        return put(to, "-");
    }
    for (place, number) in numbers.iter().enumerate() {
        let space = if place == 0 { "" } else { " " };
        put(to, format!(in alloc; "{space}{number}")?.as_str())?;
    }
    Ok(())
}
