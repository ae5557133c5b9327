// Calls that read and write, answered by the proved code in the words that the Rust's answers have.
use crate::words::{Digits, parse_bytes, parse_update, parse_vector};
use anyhow::bail;
use boards::count_board::CountBoard;
use boards::slot_board::SlotBoard;
use calls::answer::Refusal;
use calls::fault::Fault;
use document::fault::DocumentFault;
use document::host::DocumentHost;
use driven::layer::LayerName;
use driven::writing::{write_awareness, write_step1};
use encoding::entries::Entries;
use encoding::entries_out::Chosen;
use encoding::fault::WireFault;
use hub::writing::write;
use message::message::Message;
use message::messages::{End, MessageReader};
use message::presence::PresenceEntry;
use message::update::{Presence, PresenceUpdate};
use message::write::{Draft, Outgoing};
use state_vector::keyed::Keyed;
use state_vector::vector::{StateVector, VectorEntry};
use std::alloc::Global;
use std::fmt::Write;

// More bytes than any message that a case writes has.
const MOST_BYTES: usize = 32768;

// Bytes that a board's vector has at most: a count and 64 entries of 13.
const MOST_VECTOR: usize = 1024;

// The answer to a call, as far as it is written, and the number that it is refused with.
#[derive(Drop)]
pub struct Answer {
    pub text: String,
    pub refused: Option<u8>,
}

impl Answer {
    // No words yet.
    pub fn new(heap: Global) -> Answer {
        Answer {
            text: String::new(heap),
            refused: None,
        }
    }

    // The memory that words and bytes are kept in.
    pub fn heap(&self) -> Global {
        *self.text.allocator()
    }

    // The answer to the call of these words.
    pub fn add(&mut self, words: &[&str]) -> anyhow::Result<()> {
        match *words {
            ["read", bytes] => self.add_messages(bytes),
            ["vector", bytes] => self.add_vector(bytes),
            ["presence", bytes] => self.add_presence(bytes),
            ["updates", "count", updates, since] => self.add_updates::<CountBoard>(updates, since),
            ["updates", "slot", updates, since] => self.add_updates::<SlotBoard>(updates, since),
            ["write", "step1", entries] => {
                let entries = parse_vector(self.heap(), entries)?;
                let mut out = self.room()?;
                let written = write_step1(&entries, out.as_mut_slice());
                self.add_bytes(written, out.as_slice())
            }
            ["write", "awareness", entries] => {
                let shown = parse_update(self.heap(), entries)?;
                let entries: Vec<PresenceEntry> = shown
                    .iter()
                    .map(|e| e.entry())
                    .collect(self.heap())?;
                let mut out = self.room()?;
                let written = write_awareness(&entries, out.as_mut_slice());
                self.add_bytes(written, out.as_slice())
            }
            ["write", ref message @ ..] => self.add_draft(message),
            _ => bail!("no call that is known"),
        }
    }

    // A refusal: the fault, its message and that one's first byte, and the replies before it.
    pub fn add_refusal(&mut self, refusal: Refusal, replies: &[u8]) -> anyhow::Result<()> {
        let Refusal {
            fault,
            message,
            place,
            replies: len,
        } = refusal;
        self.add_fault(fault)?;
        if let Some(met) = fault.wire() {
            write!(self.text, " wire {met}")?;
        }
        write!(self.text, " message {message} byte {place} reply ")?;
        self.add_front(replies, len)
    }

    // A fault, by its number and layer.
    fn add_fault(&mut self, fault: Fault) -> anyhow::Result<()> {
        let (number, layer) = (fault.number(), LayerName(fault.layer()));
        self.refused = Some(number);
        Ok(write!(self.text, "refused {number} layer {layer}")?)
    }

    // Bytes at the front of a buffer, or why there are none.
    pub fn add_bytes(&mut self, written: Result<usize, Refusal>, out: &[u8]) -> anyhow::Result<()> {
        match written {
            Ok(len) => {
                write!(self.text, "bytes ")?;
                self.add_front(out, len)
            }
            Err(refusal) => self.add_refusal(refusal, &[]),
        }
    }

    // The messages that bytes hold, each at its place, and how they end.
    fn add_messages(&mut self, word: &str) -> anyhow::Result<()> {
        let bytes = parse_bytes(self.heap(), word)?;
        let mut reader = MessageReader::new(bytes.as_slice());
        for placed in reader.by_ref() {
            let place = placed.place;
            write!(self.text, "{place} ")?;
            self.add_message(placed.message)?;
            write!(self.text, "; ")?;
        }
        self.add_end(reader.end())
    }

    // How a row of messages ends.
    fn add_end(&mut self, end: Option<End>) -> anyhow::Result<()> {
        match end {
            Some(End::Ended) => write!(self.text, "ended")?,
            Some(End::Cut(place)) => write!(self.text, "cut at {place}")?,
            Some(End::Refused(place, fault)) => {
                self.add_fault(fault.into())?;
                write!(self.text, " at {place}")?;
            }
            // not met: reading went on until no message was left
            None => bail!("more messages follow"),
        }
        Ok(())
    }

    // A message by its fields.
    fn add_message(&mut self, message: Message) -> anyhow::Result<()> {
        match message {
            Message::SyncStep1(part) => {
                write!(self.text, "step1 ")?;
                self.add_clocks(&StateVector::read(part)?)?;
            }
            Message::SyncStep2(part) => write!(self.text, "step2 {}", Digits(part))?,
            Message::Update(part) => write!(self.text, "update {}", Digits(part))?,
            Message::Awareness(part) => {
                write!(self.text, "awareness ")?;
                self.add_entries(&read_update(part)?)?;
            }
            Message::AuthDenied(reason) => write!(self.text, "denied {}", Digits(reason))?,
            Message::AuthGranted => write!(self.text, "granted")?,
            Message::AwarenessQuery => write!(self.text, "query")?,
            Message::Custom(tag, part) => write!(self.text, "custom {tag} {}", Digits(part))?,
        }
        Ok(())
    }

    // A comma before every item but the first.
    pub fn add_comma(&mut self, i: usize) -> anyhow::Result<()> {
        if i > 0 {
            write!(self.text, ",")?;
        }
        Ok(())
    }

    // A list of none is `-`.
    pub fn add_none(&mut self, len: usize) -> anyhow::Result<()> {
        if len == 0 {
            write!(self.text, "-")?;
        }
        Ok(())
    }

    // The entries of a vector.
    fn add_clocks(&mut self, vector: &StateVector) -> anyhow::Result<()> {
        self.add_none(vector.len())?;
        for (i, entry) in vector.entries().iter().enumerate() {
            let VectorEntry { client, clock } = *entry;
            self.add_comma(i)?;
            write!(self.text, "{client}:{clock}")?;
        }
        Ok(())
    }

    // The entries of a presence update.
    fn add_entries(&mut self, update: &PresenceUpdate) -> anyhow::Result<()> {
        self.add_none(update.entries().len())?;
        for (i, entry) in update.entries().iter().enumerate() {
            self.add_comma(i)?;
            let client = entry.client();
            let clock = entry.clock();
            match entry.state() {
                None => write!(self.text, "{client}:{clock}:null")?,
                Some(text) => write!(self.text, "{client}:{clock}:{}", Digits(text.as_bytes()))?,
            }
        }
        Ok(())
    }

    // A vector, read and written again.
    fn add_vector(&mut self, word: &str) -> anyhow::Result<()> {
        let bytes = parse_bytes(self.heap(), word)?;
        match StateVector::read(bytes.as_slice()) {
            Ok(vector) => {
                write!(self.text, "vector ")?;
                self.add_clocks(&vector)?;
                write!(self.text, " bytes ")?;
                self.add_vector_bytes(&vector)
            }
            Err(fault) => self.add_refusal(fault.into(), &[]),
        }
    }

    // A vector as it is written.
    fn add_vector_bytes(&mut self, vector: &StateVector) -> anyhow::Result<()> {
        let mut out = [0u8; MOST_VECTOR];
        let len = Chosen::all(vector.entries()).fill(&mut out, 0)?;
        self.add_front(&out, len)
    }

    // The first bytes of a buffer.
    pub fn add_front(&mut self, out: &[u8], len: usize) -> anyhow::Result<()> {
        match out.get(..len) {
            Some(bytes) => Ok(write!(self.text, "{}", Digits(bytes))?),
            None => bail!("a length past its buffer"),
        }
    }

    // The entries of a presence update, read.
    fn add_presence(&mut self, word: &str) -> anyhow::Result<()> {
        let bytes = parse_bytes(self.heap(), word)?;
        match read_update(bytes.as_slice()) {
            Ok(update) => {
                write!(self.text, "presence ")?;
                self.add_entries(&update)
            }
            Err(fault) => self.add_refusal(fault.into(), &[]),
        }
    }

    // A message whose parts are bytes, written.
    fn add_draft(&mut self, words: &[&str]) -> anyhow::Result<()> {
        let heap = self.heap();
        match *words {
            ["step2", part] => self.add_written(&Draft::SyncStep2(&parse_bytes(heap, part)?)),
            ["update", part] => self.add_written(&Draft::Update(&parse_bytes(heap, part)?)),
            ["denied", part] => self.add_written(&Draft::AuthDenied(&parse_bytes(heap, part)?)),
            ["granted"] => self.add_written(&Draft::AuthGranted),
            ["query"] => self.add_written(&Draft::AwarenessQuery),
            ["custom", tag, part] => {
                let part = parse_bytes(heap, part)?;
                self.add_written(&Draft::Custom(tag.parse()?, &part))
            }
            _ => bail!("no message that is known"),
        }
    }

    // A message, written.
    fn add_written<M: Outgoing>(&mut self, message: &M) -> anyhow::Result<()> {
        let mut out = self.room()?;
        let written = write(message, out.as_mut_slice());
        self.add_bytes(written, out.as_slice())
    }

    // Room for the bytes of a message.
    fn room(&self) -> anyhow::Result<Vec<u8>> {
        Ok(vec![in self.heap(); 0u8; MOST_BYTES]?)
    }

    // Updates, one after another, on a board that was empty: the document, its vector, and what it would send for a vector.
    fn add_updates<H: DocumentHost + Drop>(
        &mut self,
        updates: &str,
        since: &str,
    ) -> anyhow::Result<()> {
        let heap = self.heap();
        let since = parse_bytes(heap, since)?;
        let since = match StateVector::read(since.as_slice()) {
            Ok(since) => since,
            Err(fault) => return self.add_refusal(fault.into(), &[]),
        };
        let mut host = H::new();
        write!(self.text, "updates ")?;
        // at least one: `-` is an update without bytes, and no empty list
        for (i, update) in updates.split(',').enumerate() {
            let answer = host.take(parse_bytes(heap, update)?.as_slice());
            self.add_comma(i)?;
            self.add_taken(answer)?;
        }
        write!(self.text, " document ")?;
        self.add_update(&host, &StateVector::new())?;
        write!(self.text, " vector ")?;
        self.add_vector_bytes(&host.vector())?;
        write!(self.text, " update ")?;
        self.add_update(&host, &since)
    }

    // How a host took an update.
    fn add_taken(&mut self, answer: Result<(), DocumentFault>) -> anyhow::Result<()> {
        match answer {
            Ok(()) => write!(self.text, "taken")?,
            Err(DocumentFault::Unreadable(fault)) => write!(self.text, "12:{}", fault.number())?,
            Err(DocumentFault::TooLarge) => write!(self.text, "13")?,
        }
        Ok(())
    }

    // What a host sends for a vector.
    fn add_update<H: DocumentHost>(&mut self, host: &H, since: &StateVector) -> anyhow::Result<()> {
        let mut out = self.room()?;
        let len = host.update(since, out.as_mut_slice())?;
        self.add_front(out.as_slice(), len)
    }
}

// A presence update in which no client stands twice, in the order of its clients.
fn read_update(part: &[u8]) -> Result<PresenceUpdate, WireFault> {
    let mut update = PresenceUpdate::new();
    for entry in Entries::<PresenceEntry>::read::<u64>(part)? {
        update.put(Presence::new(entry?)?)?;
    }
    Ok(update)
}
