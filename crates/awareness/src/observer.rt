// Who is told of the changes that entries make.
ghost use Rattle.std.specs.Prelude.{◌≡◌, ℕ};
ghost use Rattle.awareness.specs.declared.change.Change.{Change};

use crate::change::Change;

// Is told of each change, in turn.
pub trait Observer {
    // what it is after it was told of a client's change
    ghost after: { Self → ℕ → Change → Self };

    // Is told of a client's change.
    fn note(&mut self, client: u64, change: Change)
        ensures { self.new ≡ after self.old client change };
}

// Nobody is told.
#[derive(Clone, Copy, Debug, Drop)]
pub struct Nobody;

impl Observer for Nobody {
    ghost after = { λ s _ _. s };

    // There is nothing to do.
    fn note(&mut self, _client: u64, _change: Change) {}
}
