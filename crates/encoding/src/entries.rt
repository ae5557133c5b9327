// Entries that stand one after another: an entry says how it is read, and the walk over them is the same for all.
ghost use Rattle.std.specs.Iterator.{at_most};
ghost use Rattle.std.specs.Prelude.{◌≡◌, ℕ, ◌≤◌, List, IfOk};
ghost use Rattle.encoding.specs.Entries.{entries, counted, begun, past, past_of, verdict, Steps};
ghost use Rattle.encoding.specs.Reading.{Reading, read_as};

use crate::fault::WireFault;
use crate::read::read_count;
use crate::var_uint::VarInt;
use std::marker::PhantomData;

// An entry that can be read; it may hold parts of the input.
pub trait Decode<'a>: Drop {
    // what an entry says
    ghost item: { Type 0 };

    // what this one says
    ghost says: { Self → item };

    // what holds of each that was read
    ghost holds: { Self → Type 0 } = { λ _. Unit {0} };

    // how one is read
    ghost entry: { List ℕ → Reading item };

    // The first entry, and the bytes after it.
    fn read(s: &'a [u8]) -> Result<(Self, &'a [u8]), WireFault>
        ensures reads { read_as says result ≡ entry s.now }
        ensures known { IfOk result (λ p. holds p.0) };
}

// So many entries, read one after another; the first that cannot be read is the last.
#[derive(Drop)]
pub struct Entries<'a, E> {
    // the bytes that are still to be read
    pub rest: &'a [u8],
    // how many entries are left in them
    pub left: usize,
    of: PhantomData<E>,
}

impl<'a, E: Decode<'a>> Entries<'a, E> {
    // The `left` entries that the bytes begin with.
    pub fn new(rest: &'a [u8], left: usize) -> Entries<'a, E>
        ensures bytes { result.rest.now ≡ rest.now }
        ensures count { result.left ≡ left }
    {
        Entries {
            rest,
            left,
            of: PhantomData,
        }
    }

    // The entries that a count of a width, at the front of the bytes, declares.
    pub fn read<N: VarInt>(s: &'a [u8]) -> Result<Entries<'a, E>, WireFault>
        ensures due { begun (λ w. entries E.Decode.entry w.left w.rest.now) result ≡ counted E.Decode.entry N.VarInt.BITS s.now }
        ensures few { IfOk result (λ w. w.left ≤ 64) }
    {
        let (left, rest) = read_count::<N>(s)?;
        Ok(Entries::new(rest, left))
    }
}

impl<'a, E: Decode<'a>> Iterator for Entries<'a, E> {
    type Item = Result<E, WireFault>;

    ghost next_gives = { λ s r t. Steps E.says E.holds (entries E.entry s.left s.rest.now) r (entries E.entry t.left t.rest.now) t.rest.now };

    ghost remaining = { λ s. at_most s.left };

    // The next entry, or why it cannot be read.
    fn next(&mut self) -> Option<Result<E, WireFault>> {
        if self.left == 0 {
            return None;
        }
        match E::read(self.rest) {
            Ok((e, rest)) => {
                self.rest = rest;
                self.left -= 1;
                Some(Ok(e))
            }
            Err(fault) => {
                self.left = 0;
                Some(Err(fault))
            }
        }
    }
}

// Whether the bytes begin with a count of a width and so many entries.
pub fn check_counted<'a, N: VarInt, E: Decode<'a>>(s: &'a [u8]) -> Result<(), WireFault>
    ensures { result ≡ verdict (counted E.Decode.entry N.VarInt.BITS s.now) }
{
    for entry in Entries::<E>::read::<N>(s)? {
        entry?;
    }
    Ok(())
}

// The bytes after `n` entries.
pub fn skip_entries<'a, E: Decode<'a>>(s: &'a [u8], n: usize) -> Result<&'a [u8], WireFault>
    ensures { past_of result ≡ past (entries E.Decode.entry n s.now) }
{
    let mut walk = Entries::<E>::new(s, n);
    // tried as a `for` over `walk.by_ref()`: a proof then does not know where the walk ended
    while let Some(e) = walk.next() {
        e?;
    }
    Ok(walk.rest)
}

// The layout of one entry: how it is passed over, with no value made of it.
pub trait Layout {
    // what an entry is
    ghost item: { Type 0 };

    // how one is read
    ghost entry: { List ℕ → Reading item };

    // The bytes after the first entry.
    fn skip(s: &[u8]) -> Result<&[u8], WireFault>
        ensures { past_of result ≡ past (entry s.now) };
}

// The bytes after `n` entries of a layout. `skip_entries` passes entries that are values, which a layout need not have.
pub fn pass_entries<L: Layout>(s: &[u8], n: usize) -> Result<&[u8], WireFault>
    ensures { past_of result ≡ past (entries L.Layout.entry n s.now) }
{
    let mut rest = s;
    for _ in 0..n {
        rest = L::skip(rest)?;
    }
    Ok(rest)
}
