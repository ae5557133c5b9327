// Numbers, buffers and fields, written to a sink: each goes in whole, or is refused and the sink stays as it is.
ghost use Rattle.std.specs.Prelude.{◌≡◌};
ghost use Rattle.encoding.specs.declared.write.WriteFault.TheVariants.{Wire, Short};
ghost use Rattle.encoding.specs.Sink.{Put};
ghost use Rattle.encoding.specs.Writing.{shortest, buffer_out, text_out, client_id_out, count_out, presence_text_out, Writes, told};

use crate::fault::WireFault;
use crate::read::{check_client_id, check_count, check_presence_text, check_text};
use crate::sink::{BufferTooShort, Sink};
use crate::var_uint::{MOST_BYTES, VarInt};
use arrayvec::ArrayVec;
use thiserror::Error;

// Why a value is not written.
#[derive(Clone, Copy, Debug, PartialEq, Eq, Error)]
pub enum WriteFault {
    // it could not be read again
    #[error(transparent)]
    Wire(WireFault),
    // its bytes do not fit the buffer, or its length does not fit 32 bits
    #[error("the bytes do not fit the buffer")]
    Short,
}

// By hand, as the next: clauses name the fault that `?` makes, and a derived `From` does not say it.
impl From<WireFault> for WriteFault {
    ghost from_gives = { λ f r. r ≡ Wire f };

    // A value that could not be read again is not written.
    fn from(fault: WireFault) -> WriteFault {
        WriteFault::Wire(fault)
    }
}

impl From<BufferTooShort> for WriteFault {
    ghost from_gives = { λ _ r. r ≡ Short };

    // What does not fit is not written.
    fn from(_short: BufferTooShort) -> WriteFault {
        WriteFault::Short
    }
}

// The shortest spelling of a number.
pub fn spelling(n: u64) -> ArrayVec<u8, MOST_BYTES>
    ensures { result.items ≡ shortest n }
{
    let mut bytes = ArrayVec::new();
    let mut high = n;
    while high >= 128 {
        bytes.push(128 + (high % 128) as u8);
        high /= 128;
    }
    bytes.push(high as u8);
    bytes
}

// A number, in its shortest spelling; most have one byte.
pub fn write_var<S: Sink, N: VarInt>(sink: &mut S, n: N) -> Result<(), BufferTooShort>
    ensures { Put S.Sink.room S.Sink.step sink.old (shortest (N.VarInt.value n)) result sink.new }
{
    let n = n.to_u64();
    if n < 128 {
        return sink.put(n as u8);
    }
    sink.put_all(spelling(n).as_slice())
}

// A buffer: its length, then its bytes.
pub fn write_buf<S: Sink>(sink: &mut S, bytes: &[u8]) -> Result<(), BufferTooShort>
    ensures { Writes S.Sink.room S.Sink.step sink.old (buffer_out bytes.now) (told result) sink.new }
{
    let len = bytes.len();
    if len > u32::MAX as usize {
        return Err(BufferTooShort);
    }
    if sink.left() < spelling(len as u64).len() + len {
        return Err(BufferTooShort);
    }
    write_var(sink, len as u64)?;
    sink.put_all(bytes)
}

// A text: a buffer in UTF-8.
// Judged, then written, as the next three are: one function for the four would be given judge and writer, and its contract would be longer than they are.
pub fn write_string<S: Sink>(sink: &mut S, text: &[u8]) -> Result<(), WriteFault>
    ensures { Writes S.Sink.room S.Sink.step sink.old (text_out text.now) result sink.new }
{
    check_text(text)?;
    write_buf(sink, text)?;
    Ok(())
}

// A client id.
pub fn write_client_id<S: Sink>(sink: &mut S, id: u64) -> Result<(), WriteFault>
    ensures { Writes S.Sink.room S.Sink.step sink.old (client_id_out id) result sink.new }
{
    check_client_id(id)?;
    write_var(sink, id)?;
    Ok(())
}

// How many entries follow.
pub fn write_count<S: Sink>(sink: &mut S, n: usize) -> Result<(), WriteFault>
    ensures { Writes S.Sink.room S.Sink.step sink.old (count_out n) result sink.new }
{
    check_count(n as u64)?;
    write_var(sink, n as u64)?;
    Ok(())
}

// A presence text: a text that is not too long.
pub fn write_presence_text<S: Sink>(sink: &mut S, text: &[u8]) -> Result<(), WriteFault>
    ensures { Writes S.Sink.room S.Sink.step sink.old (presence_text_out text.now) result sink.new }
{
    check_presence_text(text)?;
    write_buf(sink, text)?;
    Ok(())
}
