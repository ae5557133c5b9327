// A layer over any host that counts the updates it accepted and refused.
ghost use Rattle.std.specs.Prelude.{◌≡◌, is_ok, is_err};
ghost use Rattle.document.specs.Counts.{raised_if};
ghost use Rattle.document.specs.Taking.{accepts, taken};
ghost use Rattle.std.proofs.Common.{rules};

use crate::fault::DocumentFault;
use crate::host::DocumentHost;
use encoding::sink::BufferTooShort;
use state_vector::vector::StateVector;

// The document of the host below, with two counts that stay at their end.
#[derive(Drop)]
pub struct Tally<H> {
    host: H,
    accepted: u32,
    refused: u32,
}

impl<H> Tally<H> {
    // The host below.
    pub fn host(&self) -> &H
        ensures { result.now ≡ self.now.host }
    {
        &self.host
    }

    // How many updates were accepted.
    pub fn accepted(&self) -> u32
        ensures { result ≡ self.now.accepted }
    {
        self.accepted
    }

    // How many updates were refused.
    pub fn refused(&self) -> u32
        ensures { result ≡ self.now.refused }
    {
        self.refused
    }
}

impl<H: DocumentHost> DocumentHost for Tally<H> {
    const LIMIT: u32 = H::LIMIT;

    ghost LIMIT = { H.LIMIT };

    ghost kind = { H.kind };

    ghost document = { λ t. H.document t.host };

    ghost lawful = { Prim.search rules };

    ghost within = { Prim.search rules };

    // The host below is fresh, and nothing is counted yet.
    fn new() -> Self
        ensures document { H.document result.host ≡ H.kind.empty }
        ensures accepted { result.accepted ≡ 0 }
        ensures refused { result.refused ≡ 0 }
    {
        Tally {
            host: H::new(),
            accepted: 0,
            refused: 0,
        }
    }

    fn vector(&self) -> StateVector {
        self.host.vector()
    }

    fn update_len(&self, since: &StateVector) -> usize {
        self.host.update_len(since)
    }

    fn update(&self, since: &StateVector, out: &mut [u8]) -> Result<usize, BufferTooShort> {
        self.host.update(since, out)
    }

    // The host below decides, and its answer is counted.
    fn take(&mut self, bytes: &[u8]) -> Result<(), DocumentFault>
        ensures answer { result ≡ accepts H.kind H.LIMIT (H.document self.old.host) bytes.now }
        ensures document { H.document self.new.host ≡ taken H.kind H.LIMIT (H.document self.old.host) bytes.now }
        ensures accepted { self.new.accepted ≡ raised_if (is_ok result) self.old.accepted }
        ensures refused { self.new.refused ≡ raised_if (is_err result) self.old.refused }
    {
        let answer = self.host.take(bytes);
        match answer {
            Ok(()) => self.accepted = self.accepted.saturating_add(1),
            Err(_) => self.refused = self.refused.saturating_add(1),
        }
        answer
    }
}
