// The hub: presence, a document behind a host, a clock and a policy.
ghost use Rattle.std.specs.Prelude.{◌≡◌, ℕ, ◌-◌, true, false, [], length, IfOk, is_ok, Ok, Err};
ghost use Rattle.std.specs.Result.{result_and, result_map_both};
ghost use Rattle.state_vector.specs.Vector.{vector};
ghost use Rattle.message.specs.Message.{Said, means};
ghost use Rattle.message.specs.Messages.{messages};
ghost use Rattle.message.specs.Presence.{presence};
ghost use Rattle.awareness.specs.Calls.{applied, ReadIf};
ghost use Rattle.awareness.specs.Newest.{Live};
ghost use Rattle.awareness.specs.Record.{held_of};
ghost use Rattle.calls.specs.Handling.{asked, queried, settled, handle, one};
ghost use Rattle.law.specs.Law.{Law};
ghost use Rattle.hub.specs.Lawful.{Keeps, HandleTold};
ghost use Rattle.hub.specs.Steps.{fresh, hub_of, none_of, updates, for_policy, Replied, Stepped, Handles};

use crate::live::LiveRecords;
use awareness::awareness::Awareness;
use awareness::clock::{Clock, SetClock};
use awareness::observer::Nobody;
use awareness::record::Record;
use calls::answer::{Handled, Refusal};
use calls::fault::Fault;
use calls::policy::Policy;
use document::host::DocumentHost;
use encoding::sink::fill;
use encoding::write::spelling;
use message::message::{MSG_SYNC, MSG_SYNC_STEP_2, Message, read_message};
use message::write::write_at;
use state_vector::vector::StateVector;

// A hub over any host of documents, any clock and any policy.
#[derive(Drop)]
pub struct Hub<H, C, P> {
    pub(crate) presence: Awareness,
    pub(crate) host: H,
    pub(crate) clock: C,
    pub(crate) policy: P,
}

impl<H: DocumentHost, C: Clock + Drop, P: Policy + Drop> Hub<H, C, P> {
    // A fresh hub: an empty table, and a host with the empty document.
    pub fn new(own: u64, clock: C, policy: P) -> Result<Hub<H, C, P>, Fault>
        ensures fresh { result_map_both (λ h. hub_of H.kind h.presence (H.document h.host)) (λ f. f) result ≡ fresh H.kind own }
        ensures law { IfOk result (λ h. Law H.kind H.LIMIT (P.Policy.accepts h.policy) own [] (hub_of H.kind h.presence (H.document h.host))) }
        ensures clock { IfOk result (λ h. h.clock ≡ clock) }
        ensures policy { IfOk result (λ h. h.policy ≡ policy) }
    {
        let presence = Awareness::new(own)?;
        Ok(Hub {
            presence,
            host: H::new(),
            clock,
            policy,
        })
    }
}

impl<H, C, P> Hub<H, C, P> {
    // The own client id.
    pub fn client_id(&self) -> u64
        ensures { result ≡ self.now.presence.own }
    {
        self.presence.client_id()
    }

    // The records, ascending by client.
    pub fn records(&self) -> &[Record]
        ensures { result.now ≡ self.now.presence.rows }
    {
        self.presence.records()
    }

    // The host of the document.
    pub fn host(&self) -> &H
        ensures { result.now ≡ self.now.host }
    {
        &self.host
    }

    // The policy.
    pub fn policy(&self) -> &P
        ensures { result.now ≡ self.now.policy }
    {
        &self.policy
    }
}

impl<H, P> Hub<H, SetClock, P> {
    // Puts in the next reading of the clock.
    pub fn set_clock(&mut self, reading: u64)
        ensures clock { self.new.clock.reading ≡ reading }
        ensures presence { self.new.presence ≡ self.old.presence }
        ensures host { self.new.host ≡ self.old.host }
        ensures policy { self.new.policy ≡ self.old.policy }
    {
        self.clock.reading = reading;
    }
}

impl<H: DocumentHost, C: Clock, P: Policy> Hub<H, C, P> {
    // Replies to a step 1 with step 2: the update for its vector.
    fn reply_to_step1(&self, part: &[u8], out: &mut [u8], at: usize) -> Result<usize, Fault>
        ensures { Replied at (asked H.kind (length out.old - at) (hub_of H.kind self.now.presence (H.document self.now.host)) (vector part.now)) out.old out.new result }
    {
        let since = StateVector::read(part)?;
        let len = self.host.update_len(&since);
        if len > u32::MAX as usize {
            return Err(Fault::Buffer);
        }
        let size = spelling(len as u64);
        let head = 2 + size.len();
        if out.len().saturating_sub(at) < head + len {
            return Err(Fault::Buffer);
        }
        fill(out, at, &[MSG_SYNC, MSG_SYNC_STEP_2])?;
        fill(out, at + 2, size.as_slice())?;
        self.host.update(&since, &mut out[at + head..])?;
        Ok(head + len)
    }

    // Replies to a query with all live records.
    fn reply_to_query(&self, out: &mut [u8], at: usize) -> Result<usize, Fault>
        ensures { Replied at (queried H.kind (length out.old - at) (hub_of H.kind self.now.presence (H.document self.now.host))) out.old out.new result }
    {
        let live = LiveRecords {
            table: &self.presence,
        };
        Ok(write_at(&live, out, at)?)
    }

    // Takes a presence update; the clock is read once where it is accepted.
    fn take_presence(&mut self, part: &[u8]) -> Result<(), Fault>
        ensures answer { (now : ℕ) → result ≡ (settled H.kind (hub_of H.kind self.old.presence (H.document self.old.host)) (applied self.old.presence.own now self.old.presence.rows (presence part.now))).verdict }
        ensures hub { hub_of H.kind self.new.presence (H.document self.new.host) ≡ (settled H.kind (hub_of H.kind self.old.presence (H.document self.old.host)) (applied self.old.presence.own (C.Clock.next self.old.clock) self.old.presence.rows (presence part.now))).hub }
        ensures clock { ReadIf C.Clock.leads (is_ok result) self.old.clock self.new.clock }
        ensures host { self.new.host ≡ self.old.host }
        ensures policy { self.new.policy ≡ self.old.policy }
        ensures refused { is_ok result ≡ false → self.new.presence ≡ self.old.presence }
    {
        self.presence
            .apply_bytes(part, &mut self.clock, &mut Nobody)?;
        Ok(())
    }

    // One message: its effect, and its reply from a place of the buffer on.
    fn step(&mut self, message: Message<'_>, out: &mut [u8], at: usize) -> Result<usize, Fault>
        ensures stepped { Stepped C.Clock.next C.Clock.leads H.kind H.LIMIT (P.Policy.accepts self.old.policy) at (means message.entry) (record { hub = hub_of H.kind self.old.presence (H.document self.old.host); clock = self.old.clock; buffer = out.old }) (record { hub = hub_of H.kind self.new.presence (H.document self.new.host); clock = self.new.clock; buffer = out.new }) result }
        ensures policy { (m : Said) → P.Policy.accepts self.new.policy m ≡ P.Policy.accepts self.old.policy m }
        ensures host_untouched { updates (means message.entry) ≡ false → self.new.host ≡ self.old.host }
        ensures policy_untouched { for_policy (means message.entry) ≡ false → self.new.policy ≡ self.old.policy }
    {
        match message {
            Message::SyncStep1(part) => return self.reply_to_step1(part, out, at),
            Message::SyncStep2(part) | Message::Update(part) => self.host.take(part)?,
            Message::Awareness(part) => self.take_presence(part)?,
            Message::AuthDenied(reason) => self.policy.auth(Some(reason))?,
            Message::AuthGranted => self.policy.auth(None)?,
            Message::AwarenessQuery => return self.reply_to_query(out, at),
            Message::Custom(tag, part) => self.policy.custom(tag, part)?,
        }
        Ok(0)
    }

    // Handles messages up to the end of reading or a refusal; those before a refusal keep their effects and replies.
    pub fn handle(&mut self, bytes: &[u8], replies: &mut [u8]) -> Result<Handled, Refusal>
        ensures law { Keeps H.kind H.LIMIT (P.Policy.accepts self.old.policy) (P.Policy.accepts self.new.policy) (HandleTold C.Clock.next C.Clock.leads bytes.now replies.old replies.new self.old.clock self.new.clock result) (hub_of H.kind self.old.presence (H.document self.old.host)) (hub_of H.kind self.new.presence (H.document self.new.host)) }
        ensures handles { Handles C.Clock.next C.Clock.leads H.kind H.LIMIT (P.Policy.accepts self.old.policy) bytes.now (record { hub = hub_of H.kind self.old.presence (H.document self.old.host); clock = self.old.clock; buffer = replies.old }) (record { hub = hub_of H.kind self.new.presence (H.document self.new.host); clock = self.new.clock; buffer = replies.new }) result }
        ensures own_text_stays { Live (held_of self.old.presence.own self.old.presence.rows) → Live (held_of self.old.presence.own self.new.presence.rows) }
        ensures policy { (m : Said) → P.Policy.accepts self.new.policy m ≡ P.Policy.accepts self.old.policy m }
        ensures host_untouched { none_of updates (messages bytes.now).said ≡ true → self.new.host ≡ self.old.host }
        ensures policy_untouched { none_of for_policy (messages bytes.now).said ≡ true → self.new.policy ≡ self.old.policy }
    {
        // each client stands once among the records
        let _records = self.presence.records();
        self.handle_each(bytes, replies)
    }

    // The messages one after another.
    fn handle_each(&mut self, bytes: &[u8], replies: &mut [u8]) -> Result<Handled, Refusal>
        ensures handles { Handles C.Clock.next C.Clock.leads H.kind H.LIMIT (P.Policy.accepts self.old.policy) bytes.now (record { hub = hub_of H.kind self.old.presence (H.document self.old.host); clock = self.old.clock; buffer = replies.old }) (record { hub = hub_of H.kind self.new.presence (H.document self.new.host); clock = self.new.clock; buffer = replies.new }) result }
        ensures policy { (m : Said) → P.Policy.accepts self.new.policy m ≡ P.Policy.accepts self.old.policy m }
        ensures host_untouched { none_of updates (messages bytes.now).said ≡ true → self.new.host ≡ self.old.host }
        ensures policy_untouched { none_of for_policy (messages bytes.now).said ≡ true → self.new.policy ≡ self.old.policy }
    {
        let mut done = Handled {
            messages: 0,
            place: 0,
            replies: 0,
        };
        let mut rest = bytes;
        while !rest.is_empty() {
            let (message, after) = match read_message(rest) {
                Ok(read) => read,
                Err(fault) => return done.stopped(fault),
            };
            match self.step(message, replies, done.replies) {
                Ok(reply) => done.replies += reply,
                Err(fault) => return Err(done.refused(fault)),
            }
            done.messages += 1;
            done.place = bytes.len() - after.len();
            rest = after;
        }
        Ok(done)
    }
}
