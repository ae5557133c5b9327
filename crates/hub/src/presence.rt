// The calls of a hub that come to its records, and those that look at them.
ghost use Rattle.std.specs.Prelude.{◌≡◌, ℕ, ◌&&◌, length, is_none, is_ok, Ok};
ghost use Rattle.std.specs.Option.{option_copied};
ghost use Rattle.std.specs.Result.{result_and, result_map_both};
ghost use Rattle.encoding.specs.Fields.{client_id};
ghost use Rattle.message.specs.Presence.{presence};
ghost use Rattle.awareness.specs.Calls.{apply, listing, remove, set, ReadIf};
ghost use Rattle.awareness.specs.Newest.{Live};
ghost use Rattle.awareness.specs.Record.{held_of};
ghost use Rattle.awareness.specs.Summaries.{enough, lengths_of, Listed};
ghost use Rattle.calls.specs.Refusals.{asked_of, lifted, row_of, Put};
ghost use Rattle.law.specs.Words.{Call};
ghost use Rattle.hub.specs.Lawful.{Keeps, ToldAs, apply_answer, done_answer, shown_answer, written_answer};
ghost use Rattle.hub.specs.Steps.{hub_of};

use crate::hub::Hub;
use awareness::clock::Clock;
use awareness::record::Record;
use awareness::summary::{AwarenessUpdateSummary, ChangeLists};
use calls::answer::Refusal;
use calls::policy::Policy;
use document::host::DocumentHost;

impl<H: DocumentHost, C: Clock, P: Policy> Hub<H, C, P> {
    // Takes a presence update, and lists the clients by what it did to them; each list needs 64 places.
    pub fn apply(
        &mut self,
        update: &[u8],
        lists: &mut ChangeLists<'_>,
    ) -> Result<AwarenessUpdateSummary, Refusal>
        ensures law { Keeps H.kind H.LIMIT (P.Policy.accepts self.old.policy) (P.Policy.accepts self.old.policy) (ToldAs C.Clock.next C.Clock.leads (Call.apply update.now (enough lists.old)) (apply_answer result lists.new) self.old.clock self.new.clock) (hub_of H.kind self.old.presence (H.document self.old.host)) (hub_of H.kind self.new.presence (H.document self.new.host)) }
        ensures answer { result ≡ lifted (result_and (apply (enough lists.old) self.old.presence.own (C.Clock.next self.old.clock) self.old.presence.rows (presence update.now)).answer (Ok (lengths_of (apply (enough lists.old) self.old.presence.own (C.Clock.next self.old.clock) self.old.presence.rows (presence update.now)).changes))) }
        ensures rows { self.new.presence.rows ≡ (apply (enough lists.old) self.old.presence.own (C.Clock.next self.old.clock) self.old.presence.rows (presence update.now)).rows }
        ensures own { self.new.presence.own ≡ self.old.presence.own }
        ensures lists { Listed (apply (enough lists.old) self.old.presence.own (C.Clock.next self.old.clock) self.old.presence.rows (presence update.now)).changes lists.old lists.new }
        ensures clock { ReadIf C.Clock.leads (is_ok result) self.old.clock self.new.clock }
        ensures own_text_stays { Live (held_of self.old.presence.own self.old.presence.rows) → Live (held_of self.old.presence.own self.new.presence.rows) }
        ensures host { self.new.host ≡ self.old.host }
        ensures policy { self.new.policy ≡ self.old.policy }
    {
        Ok(
            self.presence
                .apply_update_summary(update, &mut self.clock, lists)?,
        )
    }

    // Sets the own state: a text, which is null where it spells null.
    pub fn set(&mut self, text: &[u8]) -> Result<(), Refusal>
        ensures law { Keeps H.kind H.LIMIT (P.Policy.accepts self.old.policy) (P.Policy.accepts self.old.policy) (ToldAs C.Clock.next C.Clock.leads (Call.set text.now) (done_answer result) self.old.clock self.new.clock) (hub_of H.kind self.old.presence (H.document self.old.host)) (hub_of H.kind self.new.presence (H.document self.new.host)) }
        ensures answer { result ≡ lifted (set self.old.presence.own (C.Clock.next self.old.clock) self.old.presence.rows text.now).answer }
        ensures rows { self.new.presence.rows ≡ (set self.old.presence.own (C.Clock.next self.old.clock) self.old.presence.rows text.now).rows }
        ensures own { self.new.presence.own ≡ self.old.presence.own }
        ensures clock { ReadIf C.Clock.leads (is_ok result) self.old.clock self.new.clock }
        ensures host { self.new.host ≡ self.old.host }
        ensures policy { self.new.policy ≡ self.old.policy }
    {
        self.presence.set_local_state_raw(text, &mut self.clock)?;
        Ok(())
    }

    // Makes a client null, held or not.
    pub fn remove(&mut self, client: u64) -> Result<(), Refusal>
        ensures law { Keeps H.kind H.LIMIT (P.Policy.accepts self.old.policy) (P.Policy.accepts self.old.policy) (ToldAs C.Clock.next C.Clock.leads (Call.remove client) (done_answer result) self.old.clock self.new.clock) (hub_of H.kind self.old.presence (H.document self.old.host)) (hub_of H.kind self.new.presence (H.document self.new.host)) }
        ensures answer { result ≡ lifted (remove client (C.Clock.next self.old.clock) self.old.presence.rows).answer }
        ensures rows { self.new.presence.rows ≡ (remove client (C.Clock.next self.old.clock) self.old.presence.rows).rows }
        ensures own { self.new.presence.own ≡ self.old.presence.own }
        ensures clock { ReadIf C.Clock.leads (is_ok result && is_none (held_of client self.old.presence.rows)) self.old.clock self.new.clock }
        ensures host { self.new.host ≡ self.old.host }
        ensures policy { self.new.policy ≡ self.old.policy }
    {
        self.presence.remove_state(client, &mut self.clock)?;
        Ok(())
    }

    // Makes the own client null.
    pub fn clean(&mut self) -> Result<(), Refusal>
        ensures law { Keeps H.kind H.LIMIT (P.Policy.accepts self.old.policy) (P.Policy.accepts self.old.policy) (ToldAs C.Clock.next C.Clock.leads (Call.clean) (done_answer result) self.old.clock self.new.clock) (hub_of H.kind self.old.presence (H.document self.old.host)) (hub_of H.kind self.new.presence (H.document self.new.host)) }
        ensures answer { result ≡ lifted (remove self.old.presence.own (C.Clock.next self.old.clock) self.old.presence.rows).answer }
        ensures rows { self.new.presence.rows ≡ (remove self.old.presence.own (C.Clock.next self.old.clock) self.old.presence.rows).rows }
        ensures own { self.new.presence.own ≡ self.old.presence.own }
        ensures clock { ReadIf C.Clock.leads (is_ok result && is_none (held_of self.old.presence.own self.old.presence.rows)) self.old.clock self.new.clock }
        ensures host { self.new.host ≡ self.old.host }
        ensures policy { self.new.policy ≡ self.old.policy }
    {
        self.presence.clean_local_state(&mut self.clock)?;
        Ok(())
    }

    // What is held of a client.
    pub fn show(&self, client: u64) -> Result<Option<&Record>, Refusal>
        ensures law { Keeps H.kind H.LIMIT (P.Policy.accepts self.now.policy) (P.Policy.accepts self.now.policy) (ToldAs C.Clock.next C.Clock.leads (Call.show client) (shown_answer (result_map_both option_copied (λ x. x) result)) self.now.clock self.now.clock) (hub_of H.kind self.now.presence (H.document self.now.host)) (hub_of H.kind self.now.presence (H.document self.now.host)) }
        ensures shown { result_map_both option_copied (λ x. x) result ≡ asked_of (result_and (client_id client) (Ok (held_of client self.now.presence.rows))) }
    {
        Ok(self.presence.meta(client)?)
    }

    // The update of the clients given, ascending, each once, at the front of a buffer, and its length.
    pub fn list(&self, clients: &[u64], out: &mut [u8]) -> Result<usize, Refusal>
        ensures law { Keeps H.kind H.LIMIT (P.Policy.accepts self.now.policy) (P.Policy.accepts self.now.policy) (ToldAs C.Clock.next C.Clock.leads (Call.list clients.now (length out.old)) (written_answer result out.new) self.now.clock self.now.clock) (hub_of H.kind self.now.presence (H.document self.now.host)) (hub_of H.kind self.now.presence (H.document self.now.host)) }
        ensures written { Put out.old (row_of (listing self.now.presence.rows clients.now)) result out.new }
    {
        Ok(self.presence.update_with_clients(clients, out)?)
    }
}
