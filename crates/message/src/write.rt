// Messages written from their parts: every message is counted before it is written.
ghost use Rattle.std.specs.Prelude.{◌≡◌, ℕ, List, take, IfOk, Ok};
ghost use Rattle.encoding.specs.Writing.{shortest, buffer_out, counted_out, Sent};
ghost use Rattle.message.specs.Writing.{Told, step1, awareness, Sound, presence_entry_out, led, asks, drafted, message_out, Written};
ghost use Rattle.message.specs.Drafts.{tells};
ghost use Rattle.message.specs.ReadBack.{ReadsBack};

use crate::message::*;
use crate::owned::state_text;
use crate::update::{Presence, PresenceUpdate};
use encoding::entries_out::{Chosen, Entry};
use encoding::fault::WireFault;
use encoding::read::check_text;
use encoding::sink::{BufferTooShort, Counter, Filler, Sink};
use encoding::write::{WriteFault, write_buf, write_var};
use state_vector::keyed::Keyed;
use state_vector::vector::StateVector;

// A message to be written, from its parts: a state vector is step 1, a presence update awareness, a draft any other.
pub trait Outgoing {
    // what it says
    ghost told: { Self → Told };

    // What reading would ask of the parts, and their types do not answer; what these answer holds.
    fn check(&self) -> Result<(), WireFault>
        ensures answer { result ≡ asks (told self.now) }
        ensures sound { Sound (told self.now) };

    // Its bytes go in, or there is no room for them.
    fn send<S: Sink>(&self, sink: &mut S) -> Result<(), BufferTooShort>
        ensures { Sent S.Sink.room S.Sink.step sink.old (drafted (told self.now)) result sink.new };
}

// A message whose parts are bytes. Not the enum that is read, in which a vector and a presence update are bytes too: these are written from what was judged.
#[derive(Clone, Copy, Debug)]
pub enum Draft<'a> {
    SyncStep2(&'a [u8]),
    Update(&'a [u8]),
    AuthDenied(&'a [u8]),
    AuthGranted,
    AwarenessQuery,
    Custom(u8, &'a [u8]),
}

impl Entry for Presence {
    ghost out = { presence_entry_out };

    // The client id, the clock, then the text.
    fn write<S: Sink>(&self, sink: &mut S) -> Result<(), BufferTooShort> {
        write_var(sink, self.client())?;
        write_var(sink, self.clock())?;
        write_buf(sink, state_text(self.state()))
    }
}

// Bytes that lead, then a buffer. This and the next stay two: one of bytes and one of entries, which `Chosen` counts first.
fn put_led<S: Sink>(sink: &mut S, lead: &[u8], part: &[u8]) -> Result<(), BufferTooShort>
    ensures { Sent S.Sink.room S.Sink.step sink.old (led lead.now (buffer_out part.now)) result sink.new }
{
    sink.put_all(lead)?;
    write_buf(sink, part)
}

// Bytes that lead, then a buffer of entries.
fn put_led_entries<E: Entry, S: Sink>(
    sink: &mut S,
    lead: &[u8],
    entries: &[E],
) -> Result<(), BufferTooShort>
    ensures { Sent S.Sink.room S.Sink.step sink.old (led lead.now (buffer_out (counted_out E.Entry.out entries.now))) result sink.new }
{
    sink.put_all(lead)?;
    Chosen::all(entries).write_buf(sink)
}

// A tag, then a buffer; most tags are one byte, which is put as it is.
fn put_custom<S: Sink>(sink: &mut S, tag: u8, part: &[u8]) -> Result<(), BufferTooShort>
    ensures { Sent S.Sink.room S.Sink.step sink.old (led (shortest tag) (buffer_out part.now)) result sink.new }
{
    write_var(sink, tag)?;
    write_buf(sink, part)
}

impl Outgoing for StateVector {
    ghost told = { step1 };

    // A vector's ids are judged when it is made: its entries have passed. Not a default of the trait, which does not know of each type's invariant.
    fn check(&self) -> Result<(), WireFault> {
        let _passed = self.entries();
        Ok(())
    }

    // Step 1: tag, kind, then the vector in a buffer.
    fn send<S: Sink>(&self, sink: &mut S) -> Result<(), BufferTooShort> {
        put_led_entries(sink, &[MSG_SYNC, MSG_SYNC_STEP_1], self.entries())
    }
}

impl Outgoing for PresenceUpdate {
    ghost told = { awareness };

    // An entry's id and text are judged when it is made: the entries have passed. Not a default of the trait either.
    fn check(&self) -> Result<(), WireFault> {
        let _passed = self.entries();
        Ok(())
    }

    // Awareness: tag, then the entries in a buffer.
    fn send<S: Sink>(&self, sink: &mut S) -> Result<(), BufferTooShort> {
        put_led_entries(sink, &[MSG_AWARENESS], self.entries())
    }
}

impl Outgoing for Draft<'_> {
    ghost told = { tells };

    // A reason has to be a text.
    fn check(&self) -> Result<(), WireFault> {
        match *self {
            Draft::AuthDenied(reason) => check_text(reason),
            _ => Ok(()),
        }
    }

    // Tag and kind or flag, then the part in a buffer.
    fn send<S: Sink>(&self, sink: &mut S) -> Result<(), BufferTooShort> {
        match *self {
            Draft::SyncStep2(part) => put_led(sink, &[MSG_SYNC, MSG_SYNC_STEP_2], part),
            Draft::Update(part) => put_led(sink, &[MSG_SYNC, MSG_SYNC_UPDATE], part),
            Draft::AuthDenied(reason) => put_led(sink, &[MSG_AUTH, PERMISSION_DENIED], reason),
            Draft::AuthGranted => sink.put_all(&[MSG_AUTH, PERMISSION_GRANTED]),
            Draft::AwarenessQuery => sink.put_all(&[MSG_QUERY_AWARENESS]),
            Draft::Custom(tag, part) => put_custom(sink, tag, part),
        }
    }
}

// A message into a buffer from a place on, and how many bytes it has: judged, then counted, and only then written.
// The buffer and the place come apart: they are a filler only once the message is counted. It counts and fills as `fill` and `Chosen::fill` do, and by
// itself: a message may be refused besides, so a trait over the three would have a refusal that two of them do not.
pub fn write_at<M: Outgoing>(m: &M, out: &mut [u8], at: usize) -> Result<usize, WriteFault>
    ensures written { Written out.old at (message_out (M.Outgoing.told m.now)) result out.new }
    ensures back { (bs : List ℕ) → message_out (M.Outgoing.told m.now) ≡ Ok bs → ReadsBack (M.Outgoing.told m.now) bs }
{
    m.check()?;
    let mut counter = Counter {
        count: 0,
        limit: out.len().saturating_sub(at),
    };
    m.send(&mut counter)?;
    let mut filler = Filler { out, at };
    m.send(&mut filler)?;
    Ok(counter.count)
}

// A message at the front of a buffer, and how many bytes it has.
pub fn write<M: Outgoing>(m: &M, out: &mut [u8]) -> Result<usize, WriteFault>
    ensures written { Written out.old 0 (message_out (M.Outgoing.told m.now)) result out.new }
    ensures back { IfOk result (λ n. ReadsBack (M.Outgoing.told m.now) (take n out.new)) }
{
    write_at(m, out, 0)
}
