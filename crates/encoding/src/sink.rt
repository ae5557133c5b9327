// Sinks: what bytes are written to. One counts them, one fills the caller's buffer.
ghost use Rattle.std.specs.Prelude.{◌≡◌, ℕ, [], ◌∷◌};
ghost use Rattle.encoding.specs.Sink.{Put};
ghost use Rattle.encoding.specs.TwoSinks.{room_of_counter, Counts, room_of_filler, Fills, Filled};

use thiserror::Error;

// The bytes do not fit the buffer, or a length does not fit 32 bits.
#[derive(Clone, Copy, Debug, PartialEq, Eq, Error)]
#[error("the bytes do not fit the buffer")]
pub struct BufferTooShort;

// Bytes go in while there is room.
pub trait Sink {
    // how many bytes it may still take
    ghost room: { Self → ℕ };

    // a byte leads from one state to the next
    ghost step: { Self → ℕ → Self → Type 0 };

    // How many bytes it may still take.
    fn left(&self) -> usize
        ensures { result ≡ room self.now };

    // The bytes go in whole, or are refused and the sink stays as it is.
    fn put_all(&mut self, bytes: &[u8]) -> Result<(), BufferTooShort>
        ensures { Put room step self.old bytes.now result self.new };

    // The byte goes in, or is refused and the sink stays as it is.
    fn put(&mut self, b: u8) -> Result<(), BufferTooShort>
        ensures { Put room step self.old (b ∷ []) result self.new }
    {
        self.put_all(&[b])
    }
}

// Counts the bytes, up to a limit; it has no buffer that a length would lie beside.
#[derive(Clone, Copy, Debug, PartialEq, Eq)]
pub struct Counter {
    pub count: usize,
    pub limit: usize,
}

impl Sink for Counter {
    ghost room = { room_of_counter };

    ghost step = { Counts };

    // What is left up to the limit.
    fn left(&self) -> usize {
        self.limit.saturating_sub(self.count)
    }

    // All are counted at once.
    fn put_all(&mut self, bytes: &[u8]) -> Result<(), BufferTooShort> {
        if self.left() < bytes.len() {
            return Err(BufferTooShort);
        }
        self.count += bytes.len();
        Ok(())
    }
}

// Fills a buffer, from a place on. Not the slice that is left: what is promised of writing speaks of the whole buffer.
#[derive(Drop)]
pub struct Filler<'a> {
    pub out: &'a mut [u8],
    pub at: usize,
}

impl Sink for Filler<'_> {
    ghost room = { room_of_filler };

    ghost step = { Fills };

    // What is left up to the end of the buffer.
    fn left(&self) -> usize {
        self.out.len().saturating_sub(self.at)
    }

    // The bytes are copied in one go; no bytes need no place, even past the end.
    fn put_all(&mut self, bytes: &[u8]) -> Result<(), BufferTooShort> {
        if bytes.is_empty() {
            return Ok(());
        }
        if self.left() < bytes.len() {
            return Err(BufferTooShort);
        }
        let at = self.at;
        let end = at + bytes.len();
        self.out[at..end].copy_from_slice(bytes);
        self.at = end;
        Ok(())
    }
}

// Bytes into a buffer from a place on, counted before any is put: how many they are.
// The buffer and the place come apart: they are a filler only once the bytes are counted. `Chosen::fill` and `write_at` of messages count and fill
// likewise, and stay by themselves: one function for the three would take what is sent as a closure over every sink, which a closure cannot be.
pub fn fill(out: &mut [u8], at: usize, bytes: &[u8]) -> Result<usize, BufferTooShort>
    ensures { Filled out.old at bytes.now result out.new }
{
    let limit = out.len().saturating_sub(at);
    let mut counter = Counter { count: 0, limit };
    counter.put_all(bytes)?;
    let mut filler = Filler { out, at };
    filler.put_all(bytes)?;
    Ok(counter.count)
}
