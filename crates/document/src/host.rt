// A host keeps a document. The hub knows it by its meaning and its laws alone.
ghost use Rattle.std.specs.Prelude.{◌≡◌, ℕ, ◌≤◌, length};
ghost use Rattle.encoding.specs.TwoSinks.{Filled};
ghost use Rattle.document.specs.Kind.{Kind, Lawful};
ghost use Rattle.document.specs.Taking.{accepts, taken};

use crate::fault::DocumentFault;
use encoding::sink::BufferTooShort;
use state_vector::vector::StateVector;

// Keeps a document of one kind, within a limit of size.
pub trait DocumentHost {
    // the largest size of a document that it keeps
    const LIMIT: u32;

    // the same, for clauses
    ghost LIMIT: { ℕ };

    // the kind of its documents
    ghost kind: { Kind };

    // the document that it keeps
    ghost document: { Self → kind.Document };

    // A host with the empty document.
    fn new() -> Self
        ensures { document result ≡ kind.empty };

    // The document's vector.
    fn vector(&self) -> StateVector
        ensures { result ≡ kind.vector (document self.now) };

    // How many bytes the update has for whoever has the vector.
    fn update_len(&self, since: &StateVector) -> usize
        ensures { result ≡ length (kind.update (document self.now) since.now) };

    // That update at the front of a slice, and its length; in too short a slice nothing is written.
    fn update(&self, since: &StateVector, out: &mut [u8]) -> Result<usize, BufferTooShort>
        ensures { Filled out.old 0 (kind.update (document self.now) since.now) result out.new };

    // Joins an update to the document, or refuses it and leaves the document as it is.
    fn take(&mut self, bytes: &[u8]) -> Result<(), DocumentFault>
        ensures answer { result ≡ accepts kind LIMIT (document self.old) bytes.now }
        ensures document { document self.new ≡ taken kind LIMIT (document self.old) bytes.now };

    // the laws of the kind, within the limit
    ghost lawful: { Lawful kind LIMIT };

    // what it keeps is within the limit
    ghost within: { (h : Self) → kind.size (document h) ≤ LIMIT };
}
