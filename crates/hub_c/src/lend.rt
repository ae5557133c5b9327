// The two steps through a place's pointer, each proved by hand; all else is over references.
ghost use Rattle.std.specs.Prelude.{◌≡◌, true, false};
ghost use Rattle.std.specs.Borrow.{sem};
ghost use Rattle.hub_c.specs.Lending.{LendsHub};

use crate::place::Place;
use product::ProductHub;

impl Place {
    // Moves a hub to the room that is there.
    pub(crate) fn put(&mut self, hub: ProductHub)
        requires room { self.old.room ≡ true }
        requires empty { self.old.made ≡ false }
        ensures { self.new ≡ record self.old { made = true; hub = hub } }
    {
        unsafe { std::ptr::write(self.at as *mut ProductHub, hub) };
    }

    // The hub that was made there.
    pub(crate) fn hub(&mut self) -> &mut ProductHub
        requires made { self.old.made ≡ true }
        ensures* lends { sem 𝓛 (LendsHub self.entry result) }
        ensures now { result.now ≡ self.old.hub }
    {
        unsafe { &mut *(self.at as *mut ProductHub) }
    }
}
