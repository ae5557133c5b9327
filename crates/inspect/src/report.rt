// Messages in words.
use crate::normal::write_normal;
use encoding::entries::Entries;
use hexadecimal::shown::{Counted, Shown};
use hexadecimal::{Hex, parse_line};
use message::message::Message;
use message::messages::{End, MessageReader, Placed};
use message::presence::PresenceEntry;
use state_vector::vector::VectorEntry;
use std::alloc::Global;
use std::fmt;
use std::fmt::Write;

// What is printed of a line, with normal forms if these are asked for.
#[derive(Drop)]
pub struct Report {
    text: String,
    normal: bool,
}

impl fmt::Display for Report {
    // The words so far.
    fn fmt<W: fmt::Write>(&self, f: &mut fmt::Formatter<W>) -> fmt::Result {
        f.write_str(self.text.as_str())
    }
}

impl Report {
    // A report with no words yet.
    pub fn new(heap: Global, normal: bool) -> Report {
        Report {
            text: String::new(heap),
            normal,
        }
    }

    // The memory that the words are kept in.
    fn heap(&self) -> Global {
        *self.text.allocator()
    }

    // A line in words: its messages and how it ended, or why it is not hexadecimal; nothing of a line with no bytes.
    pub fn add_line(&mut self, number: u64, line: &[u8]) -> anyhow::Result<()> {
        match parse_line(self.heap(), line) {
            Ok(bytes) if bytes.is_empty() => {}
            Ok(bytes) => {
                writeln!(self.text, "line {number}")?;
                self.add_bytes(bytes.as_slice())?;
            }
            Err(fault) => writeln!(self.text, "line {number}\n  not hexadecimal, {fault}")?,
        }
        Ok(())
    }

    // The messages that bytes hold, with their normal forms if these are asked for, and how they end.
    fn add_bytes(&mut self, bytes: &[u8]) -> anyhow::Result<()> {
        let mut reader = MessageReader::new(bytes);
        let mut count = 0;
        // a message has a byte at least, and ends where reading stopped
        for number in 0..bytes.len() {
            let Some(Placed { place, message }) = reader.next() else {
                break;
            };
            write!(self.text, "  message {number} at byte {place}: ")?;
            self.add_message(message)?;
            if self.normal
                && let Some(received) = bytes.get(place..reader.place())
            {
                self.add_normal_form(message, received)?;
            }
            count = number + 1;
        }
        self.add_end(count, reader.end(), bytes.len())
    }

    // A message, with what it holds.
    fn add_message(&mut self, m: Message) -> anyhow::Result<()> {
        match m {
            Message::SyncStep1(part) => self.add_vector(part),
            Message::SyncStep2(part) => self.add_part("sync step 2, an update", part),
            Message::Update(part) => self.add_part("sync update", part),
            Message::Awareness(part) => self.add_presence(part),
            Message::AuthDenied(reason) => {
                let size = Counted(reason.len(), "byte");
                let reason = Shown(reason);
                Ok(writeln!(self.text, "auth denied, a reason of {size}: {reason}")?)
            }
            Message::AuthGranted => Ok(writeln!(self.text, "auth granted")?),
            Message::AwarenessQuery => Ok(writeln!(self.text, "awareness query")?),
            Message::Custom(tag, part) => self.add_part(format_args!("custom tag {tag}"), part),
        }
    }

    // A part by its length, and its bytes where there are any.
    fn add_part(&mut self, name: impl fmt::Display + Drop, part: &[u8]) -> anyhow::Result<()> {
        let size = Counted(part.len(), "byte");
        writeln!(self.text, "{name}, {size}")?;
        if !part.is_empty() {
            let bytes = Hex(part);
            writeln!(self.text, "    {bytes}")?;
        }
        Ok(())
    }

    // This and the next are alike and stay two: heading, width, entry and line differ, and one function would have a parameter for each.
    // The entries of a vector, a line each. They were read once as a part of the message, so no reader refuses them here.
    fn add_vector(&mut self, part: &[u8]) -> anyhow::Result<()> {
        let size = Counted(part.len(), "byte");
        writeln!(self.text, "sync step 1, a vector of {size}")?;
        let mut entries = Entries::<VectorEntry>::read::<u32>(part)?;
        for entry in entries.by_ref() {
            let VectorEntry { client, clock } = entry?;
            writeln!(self.text, "    client {client}, clock {clock}")?;
        }
        self.add_left_over(entries.rest)
    }

    // The entries of a presence update, a line each. Those too were read once.
    fn add_presence(&mut self, part: &[u8]) -> anyhow::Result<()> {
        let size = Counted(part.len(), "byte");
        writeln!(self.text, "awareness, a presence update of {size}")?;
        let mut entries = Entries::<PresenceEntry>::read::<u64>(part)?;
        for entry in entries.by_ref() {
            self.add_presence_entry(entry?)?;
        }
        self.add_left_over(entries.rest)
    }

    // An entry of a presence update.
    fn add_presence_entry(&mut self, entry: PresenceEntry) -> anyhow::Result<()> {
        let PresenceEntry {
            client,
            clock,
            state,
        } = entry;
        write!(self.text, "    client {client}, clock {clock}, ")?;
        match state {
            None => writeln!(self.text, "null")?,
            Some(text) => writeln!(self.text, "text {}", Shown(text))?,
        }
        Ok(())
    }

    // Bytes after the last entry, which no reader looks at.
    fn add_left_over(&mut self, rest: &[u8]) -> anyhow::Result<()> {
        if !rest.is_empty() {
            let bytes = Hex(rest);
            writeln!(self.text, "    and bytes that are ignored: {bytes}")?;
        }
        Ok(())
    }

    // The normal form of a message where it differs from the bytes received, or why it has none.
    fn add_normal_form(&mut self, m: Message, received: &[u8]) -> anyhow::Result<()> {
        // the normal form is never longer
        let mut bytes = vec![in self.heap(); 0u8; received.len()]?;
        match write_normal(m, bytes.as_mut_slice()) {
            Ok(n) => {
                bytes.truncate(n);
                if bytes.as_slice() != received {
                    let bytes = Hex(bytes.as_slice());
                    writeln!(self.text, "    normal form: {bytes}")?;
                }
            }
            Err(reason) => writeln!(self.text, "    no normal form: {reason}")?,
        }
        Ok(())
    }

    // How the row of messages ended.
    fn add_end(&mut self, count: usize, end: Option<End>, len: usize) -> anyhow::Result<()> {
        let done = Counted(count, "message");
        match end {
            Some(End::Ended) => {
                let size = Counted(len, "byte");
                writeln!(self.text, "  done: {done}, {size}")?;
            }
            Some(End::Cut(place)) => writeln!(
                self.text,
                "  cut short at byte {place}, after {done}"
            )?,
            Some(End::Refused(place, fault)) => {
                let number = fault.number();
                writeln!(
                    self.text,
                    "  refused with {number} ({fault:?}: {fault}) at message {count}, byte {place}"
                )?;
            }
            // not met: the reader went on until no message was left
            None => writeln!(self.text, "  more messages follow")?,
        }
        Ok(())
    }
}
