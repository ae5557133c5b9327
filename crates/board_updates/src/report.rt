// What became of updates, and boards as tables.
use boards::count_board::CountBoard;
use boards::slot_board::SlotBoard;
use document::fault::DocumentFault;
use document::host::DocumentHost;
use document::tally::Tally;
use hexadecimal::{Hex, parse_line};
use state_vector::keyed::Keyed;
use state_vector::vector::{StateVector, VectorEntry};
use std::alloc::{AllocError, Global};
use std::fmt;
use std::fmt::Write;

// A document that can be shown as a table, a row for each client.
pub trait Rows {
    // The headings and the rows.
    fn add_rows(&self, text: &mut String) -> Result<(), AllocError>;
}

impl Rows for CountBoard {
    // Each client at its count.
    fn add_rows(&self, text: &mut String) -> Result<(), AllocError> {
        writeln!(text, "{:>16}  {:>10}", "client", "count")?;
        for e in self.counts() {
            let (client, count) = (e.client, e.count);
            writeln!(text, "{client:>16}  {count:>10}")?;
        }
        Ok(())
    }
}

impl Rows for SlotBoard {
    // Each client at its clock, with its bytes.
    fn add_rows(&self, text: &mut String) -> Result<(), AllocError> {
        writeln!(text, "{:>16}  {:>10}  bytes", "client", "clock")?;
        for slot in self.slots() {
            let (client, clock, bytes) = (slot.client(), slot.clock(), slot.bytes());
            write!(text, "{client:>16}  {clock:>10}")?;
            if !bytes.is_empty() {
                let bytes = Hex(bytes);
                write!(text, "  {bytes}")?;
            }
            writeln!(text)?;
        }
        Ok(())
    }
}

// What is printed of a line, or of a board.
#[derive(Drop)]
pub struct Report {
    text: String,
}

impl fmt::Display for Report {
    // The words so far.
    fn fmt<W: fmt::Write>(&self, f: &mut fmt::Formatter<W>) -> fmt::Result {
        f.write_str(self.text.as_str())
    }
}

impl Report {
    // A report with no words yet.
    pub fn new(heap: Global) -> Report {
        Report {
            text: String::new(heap),
        }
    }

    // The memory that the words are kept in.
    fn heap(&self) -> Global {
        *self.text.allocator()
    }

    // What became of the update of a line, or why the line is not hexadecimal; nothing of a line with no bytes.
    pub fn add_line<H: DocumentHost>(
        &mut self,
        number: u64,
        line: &[u8],
        board: &mut H,
    ) -> anyhow::Result<()> {
        match parse_line(self.heap(), line) {
            Ok(bytes) if bytes.is_empty() => {}
            Ok(bytes) => {
                write!(self.text, "line {number}: ")?;
                self.add_answer(board.take(bytes.as_slice()))?;
            }
            Err(fault) => writeln!(self.text, "line {number}: not hexadecimal, {fault}")?,
        }
        Ok(())
    }

    // A host's answer to an update; a refusal by its number, its layer and its words, and the fault that reading met by its own.
    fn add_answer(&mut self, answer: Result<(), DocumentFault>) -> anyhow::Result<()> {
        let Err(fault) = answer else {
            return Ok(writeln!(self.text, "taken")?);
        };
        let number = fault.number();
        write!(self.text, "refused with {number} (document: {fault})")?;
        if let DocumentFault::Unreadable(wire) = fault {
            let number = wire.number();
            write!(self.text, ", met {number} (wire)")?;
        }
        Ok(writeln!(self.text)?)
    }

    // A board in the end: how many updates it took and refused, its table, its vector, and what it would send to an empty board.
    pub fn add_board<H: DocumentHost + Rows>(&mut self, board: &Tally<H>) -> anyhow::Result<()> {
        let (accepted, refused) = (board.accepted(), board.refused());
        writeln!(self.text, "accepted {accepted}, refused {refused}")?;
        board.host().add_rows(&mut self.text)?;
        write!(self.text, "vector:")?;
        for e in board.vector().entries() {
            let VectorEntry { client, clock } = *e;
            write!(self.text, " {client}:{clock}")?;
        }
        writeln!(self.text)?;
        self.add_update(board)
    }

    // The update for an empty board, in hexadecimal.
    fn add_update<H: DocumentHost>(&mut self, board: &H) -> anyhow::Result<()> {
        let nothing = StateVector::new();
        let mut bytes = vec![in self.heap(); 0u8; board.update_len(&nothing)]?;
        board.update(&nothing, bytes.as_mut_slice())?;
        let bytes = Hex(bytes.as_slice());
        Ok(writeln!(self.text, "update for an empty board: {bytes}")?)
    }
}
