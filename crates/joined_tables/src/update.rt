// Updates of tables: entries that are all of the bytes.
ghost use Rattle.std.specs.Prelude.{◌≡◌, ◌≤◌, true, is_ok, IfOk};
ghost use Rattle.encoding.specs.Entries.{entries, counted, begun, past, past_of};
ghost use Rattle.joined_tables.specs.Whole.{wholly, told};

use encoding::entries::{Decode, Entries, skip_entries};
use encoding::fault::WireFault;

// The entries of an update, which were all read once: as many as the count at its front declares, and nothing after them.
pub fn read_update<'a, E: Decode<'a>>(bytes: &'a [u8]) -> Result<Entries<'a, E>, WireFault>
    ensures reads { told (λ u. wholly (entries E.Decode.entry u.left u.rest.now)) result ≡ wholly (counted E.Decode.entry 32 bytes.now) }
    ensures whole { IfOk result (λ u. is_ok (wholly (entries E.Decode.entry u.left u.rest.now)) ≡ true) }
    ensures few { IfOk result (λ u. u.left ≤ 64) }
{
    let update = Entries::<E>::read::<u32>(bytes)?;
    match skip_entries::<E>(update.rest, update.left)? {
        [] => Ok(update),
        _ => Err(WireFault::UnexpectedValue),
    }
}
