// A hub and what is asked of it, line by line.
use crate::asked::Asked;
use crate::messages::write_words;
use crate::places::{Places, size_of};
use crate::report::Report;
use anyhow::Context;
use call_line::call::{Call, read_call};
use driven::driven::{Driven, Setup, Ticking};
use product::fresh_hub;
use std::alloc::Global;

// What a hub is made of, and the caller's room for bytes and places for lists.
#[derive(Clone, Copy)]
pub struct State {
    pub setup: Setup,
    pub room: usize,
    pub places: usize,
}

// A hub that is at work, and what the next one is made of where a fresh one was asked for.
#[derive(Drop)]
pub struct Session<D> {
    heap: Global,
    state: State,
    hub: D,
    next: Option<Setup>,
}

impl<D: Driven> Session<D> {
    // A hub at its first call.
    pub fn new(heap: Global, hub: D, state: State) -> Session<D> {
        Session {
            heap,
            state,
            hub,
            next: None,
        }
    }

    // What the next hub works with, where a fresh one was asked for.
    pub fn next(&self) -> Option<State> {
        let State { room, places, .. } = self.state;
        self.next.map(|setup| State {
            setup,
            room,
            places,
        })
    }

    // What a line is answered: nothing where it is no call, and an error where it cannot be read.
    pub fn answer(&mut self, line: &[u8]) -> anyhow::Result<Report> {
        let mut report = Report::new(self.heap);
        match read_call(line)? {
            Call::Nothing => {}
            Call::Help => report.add_help()?,
            Call::Clock(reading) => self.set_clock(reading, &mut report)?,
            Call::Room(room) => {
                self.state.room = size_of(room)?;
                report.add_sizes(self.state.room, self.state.places)?;
            }
            Call::Places(places) => {
                self.state.places = size_of(places)?;
                report.add_sizes(self.state.room, self.state.places)?;
            }
            Call::Write(words) => {
                let mut out = vec![in self.heap; 0u8; self.state.room]?;
                let written = write_words(self.heap, words, out.as_mut_slice())?;
                report.add_message(written, out.as_slice())?;
            }
            Call::Records => report.add_records(self.hub.records())?,
            Call::Document => report.add_document(&self.hub)?,
            call => match self.state.setup.changed(call) {
                Some(setup) => self.begin(setup, &mut report)?,
                None => self.ask(call, &mut report)?,
            },
        }
        Ok(report)
    }

    // A fresh hub comes in place of this one, unless no hub can be made of that client; then this one stays.
    fn begin(&mut self, setup: Setup, report: &mut Report) -> anyhow::Result<()> {
        match fresh_hub(setup.own, 0) {
            Ok(_) => {
                self.next = Some(setup);
                report.add_setup(setup)
            }
            Err(fault) => report.add_refusal(fault),
        }
    }

    // The next reading of a clock that is set; a hub with a clock that steps gives way to a fresh one.
    fn set_clock(&mut self, reading: u64, report: &mut Report) -> anyhow::Result<()> {
        let clock = Ticking::Set(reading);
        let setup = Setup {
            clock,
            ..self.state.setup
        };
        match self.state.setup.clock {
            Ticking::Set(_) => {
                self.hub.set_clock(reading);
                self.state.setup = setup;
                report.add_clock(reading)
            }
            Ticking::Step(_) => self.begin(setup, report),
        }
    }

    // A call of the hub.
    fn ask(&mut self, call: Call, report: &mut Report) -> anyhow::Result<()> {
        let asked = Asked::read(self.heap, call)?.context("no call of a hub")?;
        let mut places = Places::new(self.heap, self.state.room, self.state.places)?;
        let (out, mut lists) = places.parts();
        let answer = self.hub.call(asked.call(), out, &mut lists);
        report.add_answer(&asked, &answer, places.told().take(&answer))
    }
}
