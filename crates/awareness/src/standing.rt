// The own clock, followed through an update before any of it is taken.
ghost use Rattle.std.specs.Prelude.{◌≡◌, ◌^◌, if◌then◌else◌, nat_le, Ok, Err};
ghost use Rattle.std.specs.Option.{option_map};
ghost use Rattle.awareness.specs.declared.fault.PresenceFault.TheVariants.{ClockAtEnd};
ghost use Rattle.awareness.specs.Following.{stands, followed};

use crate::fault::PresenceFault;
use crate::record::Record;
use message::arrived::ArrivedEntry;

// A clock, and whether what is shown at it is live.
#[derive(Clone, Copy, Debug)]
pub(crate) struct Standing {
    pub clock: u32,
    pub live: bool,
}

impl Standing {
    // That of a record.
    pub fn of(held: &Record) -> Standing
        ensures { Some result ≡ stands (Some held.now) }
    {
        Standing {
            clock: held.clock(),
            live: held.state().is_some(),
        }
    }

    // That after an own entry came, where the clock can rise if it has to.
    pub fn after(held: Option<Standing>, e: &ArrivedEntry<'_>) -> Result<Standing, PresenceFault>
        ensures { result ≡ (if nat_le (2 ^ 32) (followed held e.now).clock then Err ClockAtEnd else Ok (followed held e.now)) }
    {
        let come = Standing {
            clock: e.clock(),
            live: e.state().is_some(),
        };
        let Some(held) = held else {
            return Ok(come);
        };
        if held.live && !come.live && held.clock <= come.clock {
            let clock = come.clock.checked_add(1).ok_or(PresenceFault::ClockAtEnd)?;
            return Ok(Standing { clock, live: true });
        }
        if held.clock < come.clock {
            Ok(come)
        } else {
            Ok(held)
        }
    }
}
