// Where a hub lies: memory that the caller provides.
ghost use Rattle.std.specs.Prelude.{Bool};
ghost use Rattle.hub_c.specs.Places.{ProductHub};

use std::marker::Model;

// A pointer into the caller's memory. With it comes the hub that was made there, or room for one, or nothing.
#[repr(C)]
pub struct Place {
    pub(crate) at: *mut u8,
    ghost room: { Bool },
    ghost made: { Bool },
    ghost hub: { ProductHub },
}

impl Model for Place {
    ghost use Rattle.hub_c.specs.Places.{owned};

    ghost also_owns = { λ p. owned p.at p.room p.made p.hub };
}
