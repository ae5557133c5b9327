// What an entry that came to a hub did.

// What became of the entry.
#[derive(Clone, Copy, Debug, PartialEq, Eq)]
pub enum Change {
    // what is held stays as it is
    Kept,
    // a null came where no record was
    Hidden,
    // a text came where no record was
    Added,
    // a text was taken over a record that was live with the same bytes
    Repeated,
    // a text was taken over any other record
    Changed,
    // the own record, live, met a null and stands above it now
    Raised,
    // a null was taken over a record
    Removed,
}
