// A client's slot: the bytes that it wrote last; which of two stands above the other, and how one is read.
ghost use Rattle.std.specs.Prelude.{◌≡◌, ◌<◌, true, length, IfOk};
ghost use Rattle.encoding.specs.Reading.{read};
ghost use Rattle.boards.specs.SlotBoard.{Plain, client_of, outranks, keepable, slot_clock, slot_bytes, slot_clock_in, slot_in, slot_of};
ghost use Rattle.boards.specs.Slots.{slots_order};

use encoding::entries::Decode;
use encoding::fault::WireFault;
use encoding::read::{check_client_id, read_buf, read_client_id};
use encoding::var_uint::read_var;
use state_vector::keyed::Keyed;
use state_vector::standing::Standing;
use std::marker::Model;

// At most this many bytes lie in a slot.
pub const MAX_SLOT_BYTES: usize = 32;

// A client, a clock from 1 on, and at most 32 bytes, which lie in the value itself with zeros after them: a slot can be copied, and nothing is allocated.
#[derive(Clone, Copy, Debug, PartialEq, Eq)]
pub struct Slot {
    client: u64,
    clock: u32,
    len: usize,
    places: [u8; MAX_SLOT_BYTES],
}

impl Model for Slot {
    ghost use Rattle.std.specs.Prelude.{◌≡◌, true, take, length};
    ghost use Rattle.boards.specs.SlotBoard.{Plain, keepable};
    ghost use Rattle.boards.specs.SlotLaid.{padded, Laid, length_laid};

    ghost Value = { Plain };

    ghost view = { λ s. record { client = s.client; clock = s.clock; bytes = take s.len s.places } };

    ghost invariant = { λ s. Laid s.len s.places × (keepable (record { client = s.client; clock = s.clock; bytes = take s.len s.places }) ≡ true) };

    ghost inverse = { λ p. record { client = p.client; clock = p.clock; len = length p.bytes; places = padded p.bytes } };

    ghost inverse_ok = { λ s h i. record { client = s.client; clock = s.clock; len = length_laid s.len s.places h.0 i; places = h.0.zeros i } };
}

// Whether a number can be a slot's clock.
fn check_clock(clock: u32) -> Result<(), WireFault>
    ensures { result ≡ slot_clock clock }
{
    if clock > 0 {
        Ok(())
    } else {
        Err(WireFault::UnexpectedValue)
    }
}

// Whether bytes can be a slot's.
fn check_bytes(bytes: &[u8]) -> Result<(), WireFault>
    ensures { result ≡ slot_bytes bytes.now }
{
    if bytes.len() <= MAX_SLOT_BYTES {
        Ok(())
    } else {
        Err(WireFault::TextTooLong)
    }
}

// A slot's clock, and the bytes after it.
fn read_clock(s: &[u8]) -> Result<(u32, &[u8]), WireFault>
    ensures reads { read result ≡ slot_clock_in s.now }
    ensures set { IfOk result (λ p. 0 < p.0) }
{
    let (clock, rest) = read_var::<u32>(s)?;
    check_clock(clock)?;
    Ok((clock, rest))
}

impl Slot {
    // A slot of these, where there can be one: the id is judged, then the clock, then the bytes.
    pub fn new(client: u64, clock: u32, bytes: &[u8]) -> Result<Slot, WireFault>
        ensures { result ≡ slot_of client clock bytes.now }
    {
        check_client_id(client)?;
        check_clock(clock)?;
        check_bytes(bytes)?;
        let len = bytes.len();
        let mut places = [0; MAX_SLOT_BYTES];
        places[..len].copy_from_slice(bytes);
        Ok(Slot {
            client,
            clock,
            len,
            places,
        })
    }

    // Its clock; any slot may be held.
    pub fn clock(&self) -> u32
        ensures value { result ≡ self.now.clock }
        ensures keepable { keepable self.now ≡ true }
    {
        self.clock
    }

    // Its bytes.
    pub fn bytes(&self) -> &[u8]
        ensures { result.now ≡ self.now.bytes }
    {
        &self.places[..self.len]
    }
}

// By hand: a slot's clock is never 0. It says nothing of a client, and only fills places that hold no slot.
impl Default for Slot {
    // An empty slot at the first clock.
    fn default() -> Slot {
        Slot {
            client: 0,
            clock: 1,
            len: 0,
            places: [0; MAX_SLOT_BYTES],
        }
    }
}

impl Keyed for Slot {
    ghost key = { client_of };

    fn client(&self) -> u64 {
        self.client
    }
}

impl Standing for Slot {
    ghost above = { outranks };

    ghost irreflexive = { slots_order.irreflexive };

    ghost asymmetric = { slots_order.asymmetric };

    ghost third = { slots_order.third };

    // The higher clock stands above, and at the same clock the bytes later in byte order.
    fn stands_above(&self, held: &Slot) -> bool {
        (self.clock, self.bytes())
            .cmp(&(held.clock, held.bytes()))
            .is_gt()
    }
}

impl<'a> Decode<'a> for Slot {
    ghost item = { Plain };

    ghost says = { λ e. e };

    ghost entry = { slot_in };

    // A client id, a clock, then a buffer. A clock of 0 is told before what follows it.
    fn read(s: &'a [u8]) -> Result<(Slot, &'a [u8]), WireFault> {
        let (client, rest) = read_client_id(s)?;
        let (clock, rest) = read_clock(rest)?;
        let (bytes, rest) = read_buf(rest)?;
        Ok((Slot::new(client, clock, bytes)?, rest))
    }
}
