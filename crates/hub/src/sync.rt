// What a hub sends by itself: its vector, and all that is live.
ghost use Rattle.std.specs.Prelude.{◌≡◌, map, filter, length};
ghost use Rattle.message.specs.Writing.{step1, awareness, message_out};
ghost use Rattle.awareness.specs.Record.{entry_of, live};
ghost use Rattle.calls.specs.Refusals.{sent, Put};
ghost use Rattle.law.specs.Words.{Call, both};
ghost use Rattle.hub.specs.Lawful.{Keeps, ToldAs, written_answer};
ghost use Rattle.hub.specs.Steps.{hub_of};

use crate::hub::Hub;
use crate::live::LiveRecords;
use crate::writing::write;
use awareness::clock::Clock;
use calls::answer::Refusal;
use calls::fault::Fault;
use calls::policy::Policy;
use document::host::DocumentHost;
use encoding::sink::Counter;
use message::write::{Outgoing, write_at};

impl<H: DocumentHost, C: Clock, P: Policy> Hub<H, C, P> {
    // The document's vector as a step 1 message at the front of a buffer, and its length.
    pub fn step1(&self, out: &mut [u8]) -> Result<usize, Refusal>
        ensures law { Keeps H.kind H.LIMIT (P.Policy.accepts self.now.policy) (P.Policy.accepts self.now.policy) (ToldAs C.Clock.next C.Clock.leads (Call.step1 (length out.old)) (written_answer result out.new) self.now.clock self.now.clock) (hub_of H.kind self.now.presence (H.document self.now.host)) (hub_of H.kind self.now.presence (H.document self.now.host)) }
        ensures written { Put out.old (sent (message_out (step1 (H.kind.vector (H.document self.now.host))))) result out.new }
    {
        write(&self.host.vector(), out)
    }

    // The same, and all live records after it as an awareness message.
    pub fn start(&self, out: &mut [u8]) -> Result<usize, Refusal>
        ensures law { Keeps H.kind H.LIMIT (P.Policy.accepts self.now.policy) (P.Policy.accepts self.now.policy) (ToldAs C.Clock.next C.Clock.leads (Call.start (length out.old)) (written_answer result out.new) self.now.clock self.now.clock) (hub_of H.kind self.now.presence (H.document self.now.host)) (hub_of H.kind self.now.presence (H.document self.now.host)) }
        ensures written { Put out.old (sent (both (message_out (step1 (H.kind.vector (H.document self.now.host)))) (message_out (awareness (map entry_of (filter live self.now.presence.rows)))))) result out.new }
    {
        self.write_start(out)
    }

    // Counted before any of it is written.
    fn write_start(&self, out: &mut [u8]) -> Result<usize, Refusal>
        ensures { Put out.old (sent (both (message_out (step1 (H.kind.vector (H.document self.now.host)))) (message_out (awareness (map entry_of (filter live self.now.presence.rows)))))) result out.new }
    {
        let vector = self.host.vector();
        let live = LiveRecords {
            table: &self.presence,
        };
        let mut counter = Counter {
            count: 0,
            limit: out.len(),
        };
        vector.send(&mut counter).map_err(Fault::from)?;
        live.send(&mut counter).map_err(Fault::from)?;
        let size = write_at(&vector, out, 0)?;
        Ok(size + write_at(&live, out, size)?)
    }
}
