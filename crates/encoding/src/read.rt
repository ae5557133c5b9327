// Fields: buffers, texts, client ids, counts and presence texts, each from a slice to the value and the rest.
ghost use Rattle.std.specs.Prelude.{◌≡◌, ◌^◌, ◌<◌, ◌≤◌, IfOk};
ghost use Rattle.encoding.specs.Fields.{buffer, plain_text, text, client_id, client_id_in, count, count_in, presence_text, presence_text_in};
ghost use Rattle.encoding.specs.Reading.{read, read_as, bytes};

use crate::fault::WireFault;
use crate::utf8::is_text;
use crate::var_uint::{VarInt, read_var};

// The largest client id, 2^53 - 1: the largest whole number that every client can count with.
pub const MAX_CLIENT_ID: u64 = 9007199254740991;

// At most this many entries stand in one vector, update or list.
pub const MAX_ENTRIES: usize = 64;

// At most this many bytes make a presence text.
pub const MAX_PRESENCE_TEXT: usize = 256;

// The bytes of a buffer, a part of the input, and the bytes after it.
pub fn read_buf(s: &[u8]) -> Result<(&[u8], &[u8]), WireFault>
    ensures { read_as bytes result ≡ buffer s.now }
{
    let (n, rest) = read_var::<u32>(s)?;
    let n = n as usize;
    if n <= rest.len() {
        Ok(rest.split_at(n))
    } else {
        Err(WireFault::EndOfBuffer)
    }
}

// Whether bytes can be a text: UTF-8.
pub fn check_text(text: &[u8]) -> Result<(), WireFault>
    ensures { result ≡ plain_text text.now }
{
    if is_text(text) {
        Ok(())
    } else {
        Err(WireFault::UnexpectedValue)
    }
}

// The bytes of a text, a part of the input, and the bytes after it.
// Read, then judged, as a client id and a presence text are: one function for the three would be given reader and judge, and its contract would be longer than they are.
pub fn read_string(s: &[u8]) -> Result<(&[u8], &[u8]), WireFault>
    ensures { read_as bytes result ≡ text s.now }
{
    let (part, rest) = read_buf(s)?;
    check_text(part)?;
    Ok((part, rest))
}

// Whether a number can be a client id.
// This and `check_count` are one comparison each, and no plainer as one function that is given the bound and the fault.
pub fn check_client_id(id: u64) -> Result<(), WireFault>
    ensures { result ≡ client_id id }
{
    if id <= MAX_CLIENT_ID {
        Ok(())
    } else {
        Err(WireFault::InvalidClientId)
    }
}

// A client id, and the bytes after it.
pub fn read_client_id(s: &[u8]) -> Result<(u64, &[u8]), WireFault>
    ensures reads { read result ≡ client_id_in s.now }
    ensures fits { IfOk result (λ p. p.0 < 2 ^ 53) }
{
    let (id, rest) = read_var::<u64>(s)?;
    check_client_id(id)?;
    Ok((id, rest))
}

// Whether so many entries may be declared.
pub fn check_count(n: u64) -> Result<(), WireFault>
    ensures { result ≡ count n }
{
    if n <= MAX_ENTRIES as u64 {
        Ok(())
    } else {
        Err(WireFault::TooManyEntries)
    }
}

// A count of a width, and the bytes after it.
pub fn read_count<N: VarInt>(s: &[u8]) -> Result<(usize, &[u8]), WireFault>
    ensures reads { read result ≡ count_in N.VarInt.BITS s.now }
    ensures few { IfOk result (λ p. p.0 ≤ 64) }
{
    let (n, rest) = read_var::<N>(s)?;
    let n = n.to_u64();
    check_count(n)?;
    Ok((n as usize, rest))
}

// Whether bytes can be a presence text: UTF-8, and not too long.
pub fn check_presence_text(text: &[u8]) -> Result<(), WireFault>
    ensures { result ≡ presence_text text.now }
{
    check_text(text)?;
    if text.len() <= MAX_PRESENCE_TEXT {
        Ok(())
    } else {
        Err(WireFault::TextTooLong)
    }
}

// The bytes of a presence text, a part of the input, and the bytes after it.
pub fn read_presence_text(s: &[u8]) -> Result<(&[u8], &[u8]), WireFault>
    ensures { read_as bytes result ≡ presence_text_in s.now }
{
    let (part, rest) = read_buf(s)?;
    check_presence_text(part)?;
    Ok((part, rest))
}
