// Entries written one after another, with their count in front: all of them, or those that a choice takes.
ghost use Rattle.std.specs.Prelude.{◌≡◌, ℕ, ◌^◌, ◌<◌, ◌≤◌, Bool, true, List, length, Ok, filter, MatchResult};
ghost use Rattle.encoding.specs.Sink.{Put};
ghost use Rattle.encoding.specs.TwoSinks.{Filled};
ghost use Rattle.encoding.specs.Writing.{row_out, counted_out, buffer_out, Sent, Writes, told};

use crate::sink::{BufferTooShort, Counter, Filler, Sink};
use crate::write::write_var;
use std::marker::Model;

// An entry that can be written: what its bytes are is its own matter.
pub trait Entry {
    // the bytes that it is written as
    ghost out: { Self → List ℕ };

    // Its bytes go in, or there is no room for them.
    fn write<S: Sink>(&self, sink: &mut S) -> Result<(), BufferTooShort>
        ensures { Sent S.Sink.room S.Sink.step sink.old (Ok (out self.now)) result sink.new };
}

// A choice among entries. No closure: what a model shows is a function of the value, and of a closure clauses know a relation.
pub trait Choice<E> {
    // the entries that it takes
    ghost takes: { Self → E → Bool };

    // Whether it takes the entry.
    fn takes_entry(&self, e: &E) -> bool
        ensures { result ≡ takes self.now e.now };
}

// Every entry is taken.
pub struct Everything;

impl<E> Choice<E> for Everything {
    ghost takes = { λ _ _. true };

    // There is nothing to ask.
    fn takes_entry(&self, _e: &E) -> bool {
        true
    }
}

// How many of the entries the choice takes.
fn count_taken<E, C: Choice<E>>(entries: &[E], choice: &C) -> usize
    ensures { result ≡ length (filter (C.Choice.takes choice.now) entries.now) }
{
    entries.iter().filter(|e| choice.takes_entry(e)).count()
}

// Entries and a choice among them: a clause sees the list of those that it takes.
#[derive(Drop)]
pub struct Chosen<'a, E, C: Choice<E>> {
    entries: &'a [E],
    choice: &'a C,
}

impl<'a, E, C: Choice<E>> Model for Chosen<'a, E, C> {
    ghost Value = { List E };

    ghost view = { λ c. filter (C.takes c.choice.now) c.entries.now };
}

impl<'a, E> Chosen<'a, E, Everything> {
    // All of the entries.
    pub fn all(entries: &'a [E]) -> Chosen<'a, E, Everything>
        ensures { result ≡ entries.now }
    {
        Chosen::by(entries, &Everything)
    }
}

impl<'a, E, C: Choice<E>> Chosen<'a, E, C> {
    // Those of the entries that the choice takes.
    pub fn by(entries: &'a [E], choice: &'a C) -> Chosen<'a, E, C>
        ensures { result ≡ filter (C.Choice.takes choice.now) entries.now }
    {
        Chosen { entries, choice }
    }

    // How many they are.
    pub fn count(&self) -> usize
        ensures { result ≡ length self.now }
    {
        count_taken(self.entries, self.choice)
    }
}

impl<'a, E: Entry, C: Choice<E>> Chosen<'a, E, C> {
    // One after another; where there is no room, those before it have gone in.
    fn put_each<S: Sink>(&self, sink: &mut S) -> Result<(), BufferTooShort>
        ensures { Sent S.Sink.room S.Sink.step sink.old (Ok (row_out E.Entry.out self.now)) result sink.new }
    {
        for e in self.entries {
            if self.choice.takes_entry(e) {
                e.write(sink)?;
            }
        }
        Ok(())
    }

    // Their count, then they.
    fn put_counted<S: Sink>(&self, sink: &mut S) -> Result<(), BufferTooShort>
        ensures { Sent S.Sink.room S.Sink.step sink.old (Ok (counted_out E.Entry.out self.now)) result sink.new }
    {
        write_var(sink, self.count() as u64)?;
        self.put_each(sink)
    }

    // How many bytes their count and they have, where a limit takes so many.
    fn measure_within(&self, limit: usize) -> Result<usize, BufferTooShort>
        ensures { MatchResult result (λ n. (n ≡ length (counted_out E.Entry.out self.now)) × (n ≤ limit)) (λ _. limit < length (counted_out E.Entry.out self.now)) }
    {
        let mut counter = Counter { count: 0, limit };
        self.put_counted(&mut counter)?;
        Ok(counter.count)
    }

    // How many bytes their count and they have, where that fits 32 bits.
    pub fn measure(&self) -> Result<usize, BufferTooShort>
        ensures { MatchResult result (λ n. (n ≡ length (counted_out E.Entry.out self.now)) × (n < 2 ^ 32)) (λ _. 2 ^ 32 ≤ length (counted_out E.Entry.out self.now)) }
    {
        self.measure_within(u32::MAX as usize)
    }

    // Their count and they go in whole, or are refused and the sink stays as it is.
    pub fn write<S: Sink>(&self, sink: &mut S) -> Result<(), BufferTooShort>
        ensures { Put S.Sink.room S.Sink.step sink.old (counted_out E.Entry.out self.now) result sink.new }
    {
        self.measure_within(sink.left())?;
        self.put_counted(sink)
    }

    // A buffer that holds their count and them, whole or not at all. Not by `write_buf`, which has its bytes: here they are counted first, and the counter goes on.
    pub fn write_buf<S: Sink>(&self, sink: &mut S) -> Result<(), BufferTooShort>
        ensures { Writes S.Sink.room S.Sink.step sink.old (buffer_out (counted_out E.Entry.out self.now)) (told result) sink.new }
    {
        let len = self.measure()?;
        let room = sink.left();
        let mut counter = Counter {
            count: len,
            limit: room,
        };
        write_var(&mut counter, len as u64)?;
        write_var(sink, len as u64)?;
        self.put_counted(sink)
    }

    // Their count and they into a buffer from a place on, counted before any is put: how many bytes they are.
    pub fn fill(&self, out: &mut [u8], at: usize) -> Result<usize, BufferTooShort>
        ensures { Filled out.old at (counted_out E.Entry.out self.now) result out.new }
    {
        let len = self.measure_within(out.len().saturating_sub(at))?;
        let mut filler = Filler { out, at };
        self.put_counted(&mut filler)?;
        Ok(len)
    }
}
