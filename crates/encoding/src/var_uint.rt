// varUints: seven bits to a byte, the lowest first, and the first byte below 128 ends the number.
ghost use Rattle.std.specs.Prelude.{◌≡◌, ℕ, ◌-◌, ◌^◌, ◌<◌, ◌≤◌};
ghost use Rattle.encoding.specs.Reading.{read, read_as};
ghost use Rattle.encoding.specs.VarUint.{number_in, var_uint};
ghost use Rattle.std.proofs.Common.{rules};

use crate::fault::WireFault;

// At most this many bytes make a number.
pub const MOST_BYTES: usize = 10;

// An unsigned number of a width that the format has.
pub trait VarInt: Sized {
    // how many bits it has
    const BITS: u32;

    ghost BITS: { ℕ };

    // the number that it is
    ghost value: { Self → ℕ };

    // The number in 64 bits.
    fn to_u64(self) -> u64
        ensures { result ≡ value self };

    // The number, of one in 64 bits that fits.
    fn from_u64(n: u64) -> Self
        requires { n < 2 ^ BITS }
        ensures { value result ≡ n };

    // it takes a byte's seven bits, and 64 bits take it
    ghost within: { (7 ≤ BITS) × (BITS ≤ 64) };
}

// The three impls are alike and stay three: each has a line for a body, and there is no derive for them; `Into` and `TryFrom` would be relations to clauses, which name the value by a function.
impl VarInt for u8 {
    const BITS: u32 = 8;

    ghost BITS = { 8 };

    ghost value = { λ n. n };

    ghost within = { Prim.search rules };

    fn to_u64(self) -> u64 {
        self.into()
    }

    fn from_u64(n: u64) -> u8 {
        n as u8
    }
}

impl VarInt for u32 {
    const BITS: u32 = 32;

    ghost BITS = { 32 };

    ghost value = { λ n. n };

    ghost within = { Prim.search rules };

    fn to_u64(self) -> u64 {
        u64::from(self)
    }

    fn from_u64(n: u64) -> u32 {
        n as u32
    }
}

impl VarInt for u64 {
    const BITS: u32 = 64;

    ghost BITS = { 64 };

    ghost value = { λ n. n };

    ghost within = { Prim.search rules };

    fn to_u64(self) -> u64 {
        self
    }

    fn from_u64(n: u64) -> u64 {
        n
    }
}

// A number of at most `room` bytes that is at most `top`, and the bytes after it.
// By a recursion, which a byte below 128 ends; a loop that carries a running sum says the same with twice the proof.
fn number_in(s: &[u8], room: usize, top: u64) -> Result<(u64, &[u8]), WireFault>
    requires room { 0 < room }
    requires top { 127 ≤ top }
    ensures { read result ≡ number_in room top s.now }
{
    match s {
        [] => Err(WireFault::EndOfBuffer),
        [b, rest @ ..] => {
            if *b < 128 {
                Ok((*b as u64, rest))
            } else if room == 1 {
                Err(WireFault::InvalidVarInt)
            } else {
                let low = (*b - 128) as u64;
                let (high, after) = number_in(rest, room - 1, top)?;
                if high <= (top - low) / 128 {
                    Ok((low + 128 * high, after))
                } else {
                    Err(WireFault::InvalidVarInt)
                }
            }
        }
    }
}

// A number that is at most `top`: what `number_in` answers, with the frequent lengths of one byte and two by themselves.
fn number(s: &[u8], top: u64) -> Result<(u64, &[u8]), WireFault>
    requires top { 127 ≤ top }
    ensures { read result ≡ number_in 10 top s.now }
{
    match s {
        [b, rest @ ..] if *b < 128 => Ok((*b as u64, rest)),
        [low, high, rest @ ..] if *low >= 128 && *high < 128 => {
            let low = (*low - 128) as u64;
            let high = *high as u64;
            if high <= (top - low) / 128 {
                Ok((low + 128 * high, rest))
            } else {
                Err(WireFault::InvalidVarInt)
            }
        }
        _ => number_in(s, MOST_BYTES, top),
    }
}

// The largest number of a width.
fn top<N: VarInt>() -> u64
    ensures largest { result ≡ 2 ^ N.VarInt.BITS - 1 }
    ensures wide { 127 ≤ result }
{
    u64::MAX >> (64 - N::BITS)
}

// A number of a width, and the bytes after it.
pub fn read_var<N: VarInt>(s: &[u8]) -> Result<(N, &[u8]), WireFault>
    ensures { read_as N.VarInt.value result ≡ var_uint (2 ^ N.VarInt.BITS - 1) s.now }
{
    let (n, rest) = number(s, top::<N>())?;
    Ok((N::from_u64(n), rest))
}
