// A host whose updates are longer than any slice, for a test.
ghost use Rattle.std.specs.Prelude.{◌≡◌};
ghost use Rattle.hub.specs.EndlessUpdates.{endless_updates, endless_lawful, endless_long};
ghost use Rattle.std.proofs.Common.{rules};

use document::fault::DocumentFault;
use document::host::DocumentHost;
use encoding::sink::BufferTooShort;
use state_vector::vector::StateVector;

// Keeps nothing, and takes everything.
#[derive(Drop)]
pub struct Endless;

impl DocumentHost for Endless {
    const LIMIT: u32 = 0;

    ghost LIMIT = { 0 };

    ghost kind = { endless_updates };

    ghost document = { λ _. tt };

    ghost lawful = { endless_lawful };

    ghost within = { Prim.search rules };

    fn new() -> Endless {
        Endless
    }

    fn vector(&self) -> StateVector {
        StateVector::new()
    }

    #[tactic(auto, using(crate::specs::EndlessUpdates::endless_long))]
    fn update_len(&self, _since: &StateVector) -> usize {
        1 << 63
    }

    // No slice has so many places.
    #[tactic(auto, using(crate::specs::EndlessUpdates::endless_long))]
    fn update(&self, _since: &StateVector, _out: &mut [u8]) -> Result<usize, BufferTooShort> {
        Err(BufferTooShort)
    }

    fn take(&mut self, _bytes: &[u8]) -> Result<(), DocumentFault> {
        Ok(())
    }
}
