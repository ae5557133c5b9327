// Updates taken by the table of records: judged whole before anything changes.
ghost use Rattle.std.specs.Prelude.{◌≡◌, ℕ, [], ◌∷◌, is_ok, Ok};
ghost use Rattle.std.specs.Result.{result_and};
ghost use Rattle.message.specs.Presence.{presence};
ghost use Rattle.awareness.specs.Calls.{apply, applied, brought, judged, ReadIf};
ghost use Rattle.awareness.specs.Changes.{noted};
ghost use Rattle.awareness.specs.Newest.{Live};
ghost use Rattle.awareness.specs.Record.{held_of};
ghost use Rattle.awareness.specs.Summaries.{enough, lengths_of, Listed};
ghost use Rattle.awareness.specs.Taking.{taken};

use crate::awareness::Awareness;
use crate::clock::Clock;
use crate::fault::{AwarenessFault, PresenceFault};
use crate::observer::Observer;
use crate::record::Arrival;
use crate::summary::{AwarenessUpdateSummary, ChangeLists, Seen};
use message::arrived::{ArrivedEntry, ArrivedUpdate};

impl Awareness {
    #[tactic(auto, using(crate::proofs::Own::own_texts_stay))]
    // Takes an update that was read, or refuses it whole; the clock is read once, and only for one that is taken.
    pub fn apply_update<C: Clock, O: Observer>(
        &mut self,
        update: &ArrivedUpdate<'_>,
        clock: &mut C,
        seen: &mut O,
    ) -> Result<(), PresenceFault>
        ensures answer { (now : ℕ) → result ≡ judged self.old.own (taken self.old.own now self.old.rows update.now) }
        ensures rows { self.new.rows ≡ (brought self.old.own (C.Clock.next clock.old) self.old.rows update.now).rows }
        ensures own { self.new.own ≡ self.old.own }
        ensures seen { seen.new ≡ noted O.Observer.after seen.old (brought self.old.own (C.Clock.next clock.old) self.old.rows update.now).changes }
        ensures clock { ReadIf C.Clock.leads (is_ok result) clock.old clock.new }
        ensures own_text_stays { Live (held_of self.old.own self.old.rows) → Live (held_of self.old.own self.new.rows) }
    {
        self.judge_room(update)?;
        self.judge_own(update)?;
        let now = clock.now();
        self.take(update, now, seen);
        Ok(())
    }

    #[tactic(auto, using(crate::proofs::Own::own_texts_stay))]
    // Takes an entry that came alone, as `apply_update` takes an update of no other; it is read once.
    fn apply_single<C: Clock, O: Observer>(
        &mut self,
        e: &ArrivedEntry<'_>,
        clock: &mut C,
        seen: &mut O,
    ) -> Result<(), PresenceFault>
        ensures answer { (now : ℕ) → result ≡ judged self.old.own (taken self.old.own now self.old.rows (e.now ∷ [])) }
        ensures rows { self.new.rows ≡ (brought self.old.own (C.Clock.next clock.old) self.old.rows (e.now ∷ [])).rows }
        ensures own { self.new.own ≡ self.old.own }
        ensures seen { seen.new ≡ noted O.Observer.after seen.old (brought self.old.own (C.Clock.next clock.old) self.old.rows (e.now ∷ [])).changes }
        ensures clock { ReadIf C.Clock.leads (is_ok result) clock.old clock.new }
        ensures own_text_stays { Live (held_of self.old.own self.old.rows) → Live (held_of self.old.own self.new.rows) }
    {
        let place = self.table.find(e.client());
        self.judge_place(place, e)?;
        self.judge_rise(e)?;
        let change = self.receive_at(
            place,
            &Arrival {
                entry: e,
                time: clock.now(),
            },
        );
        seen.note(e.client(), change);
        Ok(())
    }

    // Takes an update in its bytes, or refuses it whole.
    pub fn apply_bytes<C: Clock, O: Observer>(
        &mut self,
        update: &[u8],
        clock: &mut C,
        seen: &mut O,
    ) -> Result<(), AwarenessFault>
        ensures answer { (now : ℕ) → result ≡ (applied self.old.own now self.old.rows (presence update.now)).answer }
        ensures rows { self.new.rows ≡ (applied self.old.own (C.Clock.next clock.old) self.old.rows (presence update.now)).rows }
        ensures own { self.new.own ≡ self.old.own }
        ensures seen { seen.new ≡ noted O.Observer.after seen.old (applied self.old.own (C.Clock.next clock.old) self.old.rows (presence update.now)).changes }
        ensures clock { ReadIf C.Clock.leads (is_ok result) clock.old clock.new }
        ensures own_text_stays { Live (held_of self.old.own self.old.rows) → Live (held_of self.old.own self.new.rows) }
    {
        if let Some(e) = ArrivedEntry::single(update) {
            return Ok(self.apply_single(&e, clock, seen)?);
        }
        let update = ArrivedUpdate::read(update)?;
        Ok(self.apply_update(&update, clock, seen)?)
    }

    // Takes an update, and lists the clients by what it did to them; each list needs 64 places.
    pub fn apply_update_summary<C: Clock>(
        &mut self,
        update: &[u8],
        clock: &mut C,
        lists: &mut ChangeLists<'_>,
    ) -> Result<AwarenessUpdateSummary, AwarenessFault>
        ensures answer { result ≡ result_and (apply (enough lists.old) self.old.own (C.Clock.next clock.old) self.old.rows (presence update.now)).answer (Ok (lengths_of (apply (enough lists.old) self.old.own (C.Clock.next clock.old) self.old.rows (presence update.now)).changes)) }
        ensures rows { self.new.rows ≡ (apply (enough lists.old) self.old.own (C.Clock.next clock.old) self.old.rows (presence update.now)).rows }
        ensures own { self.new.own ≡ self.old.own }
        ensures lists { Listed (apply (enough lists.old) self.old.own (C.Clock.next clock.old) self.old.rows (presence update.now)).changes lists.old lists.new }
        ensures clock { ReadIf C.Clock.leads (is_ok result) clock.old clock.new }
        ensures own_text_stays { Live (held_of self.old.own self.old.rows) → Live (held_of self.old.own self.new.rows) }
    {
        lists.check()?;
        let mut seen = Seen::new();
        self.apply_bytes(update, clock, &mut seen)?;
        Ok(lists.fill(&seen))
    }
}
