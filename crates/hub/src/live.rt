// All live records as an awareness message.
ghost use Rattle.std.specs.Prelude.{◌≡◌, map, filter};
ghost use Rattle.message.specs.Writing.{awareness};
ghost use Rattle.awareness.specs.Record.{entry_of, live};

use awareness::awareness::Awareness;
use encoding::fault::WireFault;
use encoding::sink::{BufferTooShort, Sink};
use message::message::MSG_AWARENESS;
use message::write::Outgoing;

// The records of a table that are live.
#[derive(Clone, Copy, Drop)]
pub struct LiveRecords<'a> {
    pub table: &'a Awareness,
}

impl Outgoing for LiveRecords<'_> {
    ghost told = { λ l. awareness (map entry_of (filter live l.table.now.rows)) };

    // What is held has been judged.
    fn check(&self) -> Result<(), WireFault> {
        let _passed = self.table.records();
        Ok(())
    }

    // Awareness: tag, then the entries in a buffer.
    fn send<S: Sink>(&self, sink: &mut S) -> Result<(), BufferTooShort> {
        sink.put_all(&[MSG_AWARENESS])?;
        self.table.live().write_buf(sink)
    }
}
