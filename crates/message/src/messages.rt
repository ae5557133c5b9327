// Messages one after another, and how their row ends.
ghost use Rattle.std.specs.Prelude.{◌≡◌, ◌-◌, ◌≤◌, min, map, length, take, drop};
ghost use Rattle.std.specs.Iterator.{item_count};
ghost use Rattle.message.specs.Messages.{next, next_is, messages, placed_is, end_of};
ghost use Rattle.message.specs.Reader.{Reader, to_come, ComesNext};

use crate::message::{Message, check_contents, read_message};
use encoding::fault::WireFault;
use std::marker::Model;

// What stands at the front of the bytes. No Result of a message: that the bytes end is no fault, and a cut is none yet.
#[derive(Clone, Copy, Debug)]
pub enum Next<'a> {
    // a whole message, and the bytes after it
    Whole(Message<'a>, &'a [u8]),
    // no bytes
    Ended,
    // a message that is cut short
    Cut,
    // a message that is refused
    Refused(WireFault),
}

// A message, and the place of its first byte.
#[derive(Clone, Copy, Debug)]
pub struct Placed<'a> {
    pub place: usize,
    pub message: Message<'a>,
}

// How a row of messages ends: with the bytes, or at the place of a message that is cut short or refused. A Result would make faults of the first two.
#[derive(Clone, Copy, Debug)]
pub enum End {
    Ended,
    Cut(usize),
    Refused(usize, WireFault),
}

// How many messages were read, and how their row ends; none where there are more.
#[derive(Clone, Copy, Debug)]
pub struct Row {
    pub count: usize,
    pub end: Option<End>,
}

// The first message, whole, or why there is none: a cut inside a step 1 or awareness buffer is refused, any other is a cut.
pub fn read_next(s: &[u8]) -> Next<'_>
    ensures { next_is result ≡ next s.now }
{
    if s.is_empty() {
        return Next::Ended;
    }
    match read_message(s) {
        Ok((message, rest)) => match check_contents(message) {
            Ok(()) => Next::Whole(message, rest),
            Err(fault) => Next::Refused(fault),
        },
        Err(WireFault::EndOfBuffer) => Next::Cut,
        Err(fault) => Next::Refused(fault),
    }
}

// Reads the messages of bytes, one after another, up to the first that is cut short or refused.
#[derive(Debug, Drop)]
pub struct MessageReader<'a> {
    bytes: &'a [u8],
    rest: &'a [u8],
}

impl<'a> Model for MessageReader<'a> {
    ghost Value = { Reader };

    ghost view = { λ r. record { place = length r.bytes.now - length r.rest.now; left = r.rest.now } };

    ghost invariant = { λ r. length r.rest.now ≤ length r.bytes.now };
}

impl<'a> MessageReader<'a> {
    // A reader at the first message.
    pub fn new(bytes: &'a [u8]) -> MessageReader<'a>
        ensures { result ≡ record { place = 0; left = bytes.now } }
    {
        MessageReader { bytes, rest: bytes }
    }

    // The place that reading has come to.
    pub fn place(&self) -> usize
        ensures { result ≡ self.now.place }
    {
        self.bytes.len() - self.rest.len()
    }

    // How the row ends, where no message is left in it.
    pub fn end(&self) -> Option<End>
        ensures { result ≡ end_of 0 (to_come self.now) }
    {
        match read_next(self.rest) {
            Next::Whole(_, _) => None,
            Next::Ended => Some(End::Ended),
            Next::Cut => Some(End::Cut(self.place())),
            Next::Refused(fault) => Some(End::Refused(self.place(), fault)),
        }
    }
}

impl<'a> Iterator for MessageReader<'a> {
    type Item = Placed<'a>;

    ghost next_gives = { ComesNext };

    ghost remaining = { item_count (λ r. (to_come r).said) };

    // The next message, where a whole one stands there; reading stays at one that is cut short or refused.
    fn next(&mut self) -> Option<Placed<'a>> {
        let place = self.place();
        match read_next(self.rest) {
            Next::Whole(message, rest) => {
                self.rest = rest;
                Some(Placed { place, message })
            }
            Next::Ended | Next::Cut | Next::Refused(_) => None,
        }
    }
}

// Reads the first messages of the bytes again, as many as there are places for.
// Into places of the caller, who may not allocate; with memory at hand, `MessageReader` collects.
pub fn read_messages<'a>(bytes: &'a [u8], into: &mut [Placed<'a>]) -> Row
    ensures count { result.count ≡ min (length into.old) (length (messages bytes.now).said) }
    ensures said { map placed_is (take result.count into.new) ≡ take (length into.old) (messages bytes.now).said }
    ensures rest { drop result.count into.new ≡ drop result.count into.old }
    ensures end { result.end ≡ end_of (length into.old) (messages bytes.now) }
{
    let mut reader = MessageReader::new(bytes);
    for (count, slot) in into.iter_mut().enumerate() {
        let Some(placed) = reader.next() else {
            return Row {
                count,
                end: reader.end(),
            };
        };
        *slot = placed;
    }
    Row {
        count: into.len(),
        end: reader.end(),
    }
}
