// A hub, whatever its document, clock and policy.
use awareness::clock::{Clock, SetClock, StepClock};
use awareness::record::Record;
use awareness::summary::ChangeLists;
use call_line::call::{Board, Call as LineCall, Rules};
use calls::policy::Policy;
use document::host::DocumentHost;
use encoding::sink::BufferTooShort;
use hub::hub::Hub;
use hub::run::{Answer, Call};
use state_vector::vector::StateVector;
use std::fmt;

// A clock, by its kind and its first reading.
#[derive(Clone, Copy)]
pub enum Ticking {
    Set(u64),
    Step(u64),
}

// What a fresh hub is made of.
#[derive(Clone, Copy)]
pub struct Setup {
    pub own: u64,
    pub board: Board,
    pub rules: Rules,
    pub clock: Ticking,
}

impl Setup {
    // The hub that ships, of client 1 and with its clock at 0.
    pub const SHIPPED: Setup = Setup {
        own: 1,
        board: Board::Count,
        rules: Rules::Ranges,
        clock: Ticking::Set(0),
    };

    // With what a line sets up, if it is a line that sets up a part of a hub.
    pub fn changed(self, line: LineCall<'_>) -> Option<Setup> {
        match line {
            LineCall::Own(own) => Some(Setup { own, ..self }),
            LineCall::Host(board) => Some(Setup { board, ..self }),
            LineCall::Policy(rules) => Some(Setup { rules, ..self }),
            LineCall::Clock(reading) => Some(Setup {
                clock: Ticking::Set(reading),
                ..self
            }),
            LineCall::ClockStep(first) => Some(Setup {
                clock: Ticking::Step(first),
                ..self
            }),
            _ => None,
        }
    }
}

impl fmt::Display for Setup {
    // The hub in words.
    fn fmt<W: fmt::Write>(&self, f: &mut fmt::Formatter<W>) -> fmt::Result {
        let own = self.own;
        let board = match self.board {
            Board::Count => "count",
            Board::Slot => "slot",
        };
        let rules = match self.rules {
            Rules::Default => "default",
            Rules::Ranges => "ranges",
        };
        write!(f, "own {own}, document {board}, policy {rules}, ")?;
        match self.clock {
            Ticking::Set(reading) => write!(f, "clock {reading}"),
            Ticking::Step(reading) => write!(f, "clock step {reading}"),
        }
    }
}

// What is asked of a hub.
pub trait Driven: Drop {
    // Makes a call, whichever it is.
    fn call(&mut self, call: Call<'_>, out: &mut [u8], lists: &mut ChangeLists<'_>) -> Answer;

    fn records(&self) -> &[Record];

    // The document's vector.
    fn vector(&self) -> StateVector;

    // How many bytes the update has for whoever knows nothing.
    fn update_len(&self) -> usize;

    // That update.
    fn update(&self, out: &mut [u8]) -> Result<usize, BufferTooShort>;

    // Gives a clock that is set its next reading; no other clock takes one.
    fn set_clock(&mut self, reading: u64);
}

// A clock that may be given its next reading.
pub trait Turned: Clock {
    fn turn<H, P>(hub: &mut Hub<H, Self, P>, reading: u64);
}

impl Turned for SetClock {
    fn turn<H, P>(hub: &mut Hub<H, SetClock, P>, reading: u64) {
        hub.set_clock(reading);
    }
}

impl Turned for StepClock {
    fn turn<H, P>(_hub: &mut Hub<H, StepClock, P>, _reading: u64) {}
}

impl<H: DocumentHost + Drop, C: Turned + Drop, P: Policy + Drop> Driven for Hub<H, C, P> {
    fn call(&mut self, call: Call<'_>, out: &mut [u8], lists: &mut ChangeLists<'_>) -> Answer {
        Hub::call(self, call, out, lists)
    }

    fn records(&self) -> &[Record] {
        Hub::records(self)
    }

    fn vector(&self) -> StateVector {
        self.host().vector()
    }

    fn update_len(&self) -> usize {
        self.host().update_len(&StateVector::new())
    }

    fn update(&self, out: &mut [u8]) -> Result<usize, BufferTooShort> {
        self.host().update(&StateVector::new(), out)
    }

    fn set_clock(&mut self, reading: u64) {
        C::turn(self, reading);
    }
}
