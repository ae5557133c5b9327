// The vector of a table: each entry's client at its clock.
ghost use Rattle.std.specs.Prelude.{◌≡◌, ◌^◌, ◌≤◌, true, map, length};
ghost use Rattle.state_vector.specs.declared.vector.VectorEntry.{VectorEntry};
ghost use Rattle.state_vector.specs.Tables.{all_below, ascends};
ghost use Rattle.state_vector.specs.Vector.{client_of};

use state_vector::vector::{StateVector, VectorEntry};

// An entry that a vector tells of. No `From`: its clause would be a relation, and the vector of a table is a function of its entries.
pub trait InVector {
    // how the vector tells of it
    ghost tells: { Self → VectorEntry };

    // Its client and its clock.
    fn vector_entry(&self) -> VectorEntry
        ensures { result ≡ tells self.now };
}

// The vector of entries that ascend by client. That they do, and that a vector has room for them, is the owner's invariant, so that no entry is refused.
pub fn vector_of<E: InVector>(entries: &[E]) -> StateVector
    requires few { length entries.now ≤ 64 }
    requires ascends { ascends client_of (map E.InVector.tells entries.now) ≡ true }
    requires known { all_below client_of (2 ^ 53) (map E.InVector.tells entries.now) ≡ true }
    ensures { result ≡ map E.InVector.tells entries.now }
{
    let mut vector = StateVector::new();
    for e in entries {
        vector.put(e.vector_entry()).unwrap();
    }
    vector
}
