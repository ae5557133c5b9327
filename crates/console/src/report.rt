// Answers in words.
use crate::asked::Asked;
use crate::places::Told;
use awareness::record::Record;
use calls::answer::Refusal;
use calls::fault::Fault;
use driven::driven::{Driven, Setup};
use driven::layer::LayerName;
use hexadecimal::Hex;
use hexadecimal::shown::{Counted, Shown};
use hub::run::Answer;
use state_vector::keyed::Keyed;
use state_vector::vector::VectorEntry;
use std::alloc::Global;
use std::fmt;
use std::fmt::Write;

// What help says.
const HELP: &str =
    "calls, one a line; HEX is bytes in hexadecimal, TEXT and HEX go on to the end of the line
  own ID               a fresh hub of this client
  document count|slot  a fresh hub with this board
  policy default|ranges
                       a fresh hub with this policy
  clock step N         a fresh hub with a clock that begins at N and steps by 1
  clock N              the next reading of a clock that is set; where the clock steps, a fresh hub with one that is set
  room N               so many bytes for replies, updates and messages
  places N             so many places for each list of clients
  handle HEX           messages, with their replies
  apply HEX            a presence update, with the clients by what it did to them
  set TEXT             the own state
  clean                the own client becomes null
  remove ID            a client becomes null
  step1                the document's vector as a step 1 message
  start                the same, and all live records after it
  show ID              what is held of a client
  list ID ..           the update of these clients
  write step1 ID:CLOCK ..
  write step2 HEX, write update HEX, write custom TAG HEX
  write awareness ID:CLOCK:TEXT ..  where no text has a blank in it
  write denied TEXT, write granted, write query
                       a message in bytes
  records              all records as a table
  document             the document's vector, and its update for whoever knows nothing
  help                 this
an empty line, or one that begins with #, is no call
in one run of a whole file, as console --run FILE makes it, own, document, policy, clock, room and places stand before the first call;
room and places are then for all calls together, without them as much as 1024 bytes and 64 places for each call;
write, records, the document that is shown and help are left out, as they are no calls of a hub that a run makes
";

// A refusal: the fault by its number, its layer and its words, and what the document's host met by its number.
#[derive(Clone, Copy)]
pub struct Refused(pub Fault);

impl fmt::Display for Refused {
    // The refusal in words.
    fn fmt<W: fmt::Write>(&self, f: &mut fmt::Formatter<W>) -> fmt::Result {
        let Refused(fault) = *self;
        let (number, layer) = (fault.number(), LayerName(fault.layer()));
        write!(f, "refused with {number} ({layer}: {fault})")?;
        if let Some(met) = fault.wire() {
            write!(f, ", met {met} (wire)")?;
        }
        Ok(())
    }
}

// What is answered.
#[derive(Drop)]
pub struct Report {
    text: String,
}

impl fmt::Display for Report {
    // The words so far.
    fn fmt<W: fmt::Write>(&self, f: &mut fmt::Formatter<W>) -> fmt::Result {
        f.write_str(self.text.as_str())
    }
}

impl Report {
    // A report with no words yet.
    pub fn new(heap: Global) -> Report {
        Report {
            text: String::new(heap),
        }
    }

    // Whether nothing is answered.
    pub fn is_empty(&self) -> bool {
        self.text.is_empty()
    }

    // The calls that there are.
    pub fn add_help(&mut self) -> anyhow::Result<()> {
        Ok(write!(self.text, "{HELP}")?)
    }

    // A fresh hub.
    pub fn add_setup(&mut self, setup: Setup) -> anyhow::Result<()> {
        Ok(writeln!(self.text, "a fresh hub: {setup}")?)
    }

    // The next reading of the clock.
    pub fn add_clock(&mut self, reading: u64) -> anyhow::Result<()> {
        Ok(writeln!(self.text, "the clock stands at {reading}")?)
    }

    // The room and the places that there are.
    pub fn add_sizes(&mut self, room: usize, places: usize) -> anyhow::Result<()> {
        let (room, places) = (Counted(room, "byte"), Counted(places, "place"));
        Ok(writeln!(self.text, "room for {room}, lists of {places}")?)
    }

    // A call that is refused.
    pub fn add_refusal(&mut self, fault: Fault) -> anyhow::Result<()> {
        let refused = Refused(fault);
        Ok(writeln!(self.text, "{refused}")?)
    }

    // Bytes by what they are and how many, then the bytes.
    fn add_hex<N: fmt::Display + Drop>(&mut self, name: N, bytes: &[u8]) -> anyhow::Result<()> {
        let size = Counted(bytes.len(), "byte");
        write!(self.text, "{name}, {size}")?;
        if !bytes.is_empty() {
            let bytes = Hex(bytes);
            write!(self.text, ": {bytes}")?;
        }
        Ok(writeln!(self.text)?)
    }

    // What was written to the front of the room, or why nothing was.
    pub fn add_message(
        &mut self,
        written: Result<usize, Refusal>,
        out: &[u8],
    ) -> anyhow::Result<()> {
        match written {
            Ok(len) => self.add_hex("message", out.get(..len).unwrap_or_default()),
            Err(refusal) => self.add_refusal(refusal.fault),
        }
    }

    // What a call is answered, with the bytes and the clients that belong to the answer.
    pub fn add_answer(
        &mut self,
        asked: &Asked<'_>,
        answer: &Answer,
        told: Told<'_>,
    ) -> anyhow::Result<()> {
        match answer {
            Answer::Handled(Ok(done)) => {
                let (messages, place) = (Counted(done.messages, "message"), done.place);
                write!(self.text, "handled {messages}, place {place}; ")?;
                self.add_hex(asked, told.bytes)
            }
            Answer::Handled(Err(refusal)) => {
                let (refused, place) = (Refused(refusal.fault), refusal.place);
                let message = refusal.message;
                write!(self.text, "{refused} at message {message}, byte {place}; ")?;
                self.add_hex(asked, told.bytes)
            }
            Answer::Applied(_) => self.add_applied(asked, told),
            Answer::Done => Ok(writeln!(self.text, "{asked}")?),
            Answer::Written(_) => self.add_hex(asked, told.bytes),
            Answer::Shown(held) => self.add_shown(asked, held.as_ref()),
            Answer::Refused(fault) => self.add_refusal(*fault),
        }
    }

    // A presence update that was taken, with the clients by what it did to them.
    fn add_applied(&mut self, asked: &Asked<'_>, told: Told<'_>) -> anyhow::Result<()> {
        writeln!(self.text, "{asked}")?;
        self.add_clients("added", told.added)?;
        self.add_clients("updated", told.updated)?;
        self.add_clients("changed", told.changed)?;
        self.add_clients("removed", told.removed)
    }

    // A list of clients.
    fn add_clients(&mut self, name: &str, clients: &[u64]) -> anyhow::Result<()> {
        write!(self.text, "  {name}:")?;
        for client in clients {
            write!(self.text, " {client}")?;
        }
        Ok(writeln!(self.text)?)
    }

    // What a record shows.
    fn state_of(&self, record: &Record) -> anyhow::Result<String> {
        let heap = *self.text.allocator();
        match record.state() {
            None => Ok(String::from_str(heap, "null")?),
            Some(text) => {
                let text = Shown(text.as_bytes());
                Ok(format!(in heap; "{text}")?)
            }
        }
    }

    // What is held of a client.
    fn add_shown(&mut self, asked: &Asked<'_>, held: Option<&Record>) -> anyhow::Result<()> {
        match held {
            None => Ok(writeln!(self.text, "{asked} is not held")?),
            Some(record) => {
                let state = self.state_of(record)?;
                let (clock, time) = (record.clock(), record.time());
                Ok(writeln!(
                    self.text,
                    "{asked}, clock {clock}, state {state}, time {time}"
                )?)
            }
        }
    }

    // All records, in columns.
    pub fn add_records(&mut self, records: &[Record]) -> anyhow::Result<()> {
        let held = Counted(records.len(), "record");
        writeln!(self.text, "{held}")?;
        let mut width = "state".len();
        for record in records {
            width = width.max(self.state_of(record)?.chars().count());
        }
        self.add_row("client", "clock", "state", width, "time")?;
        for record in records {
            let state = self.state_of(record)?;
            let (client, clock, time) = (record.client(), record.clock(), record.time());
            self.add_row(client, clock, state.as_str(), width, time)?;
        }
        Ok(())
    }

    // A row of the table: numbers to the right, the state to the left in so many places.
    fn add_row<A: fmt::Display + Drop, B: fmt::Display + Drop, C: fmt::Display + Drop>(
        &mut self,
        client: A,
        clock: B,
        state: &str,
        width: usize,
        time: C,
    ) -> anyhow::Result<()> {
        Ok(writeln!(
            self.text,
            "{client:>18}  {clock:>10}  {state:<width$}  {time:>20}"
        )?)
    }

    // The document's vector, and its update for whoever knows nothing.
    pub fn add_document<D: Driven>(&mut self, hub: &D) -> anyhow::Result<()> {
        let heap = *self.text.allocator();
        let mut update = vec![in heap; 0u8; hub.update_len()]?;
        hub.update(update.as_mut_slice())?;
        write!(self.text, "vector:")?;
        for e in hub.vector().entries() {
            let VectorEntry { client, clock } = *e;
            write!(self.text, " {client}:{clock}")?;
        }
        write!(self.text, "; ")?;
        self.add_hex("update", update.as_slice())
    }

    // The line whose answer follows.
    pub fn add_line(&mut self, number: u64) -> anyhow::Result<()> {
        Ok(write!(self.text, "line {number}: ")?)
    }

    // What a hub holds when a run is over.
    pub fn add_end<D: Driven>(&mut self, hub: &D) -> anyhow::Result<()> {
        write!(self.text, "in the end: ")?;
        self.add_records(hub.records())?;
        write!(self.text, "in the end: ")?;
        self.add_document(hub)
    }
}
