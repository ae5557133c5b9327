// A whole script, made in one run.
use crate::asked::Asked;
use crate::places::{Places, size_of};
use crate::report::{Refused, Report};
use anyhow::{bail, ensure};
use call_line::call::{Call, read_call};
use calls::policy::Policy;
use document::host::DocumentHost;
use driven::choice::{Task, with_setup};
use driven::driven::{Setup, Turned};
use hexadecimal::lines::Lines;
use hub::hub::Hub;
use hub::run::{Answer, run};
use std::alloc::Global;

// How many bytes of room there are for each call, where a script does not say how many there are for all.
pub const ROOM: usize = 1024;

// How many places each list has for each call, likewise.
pub const PLACES: usize = 64;

// A call, and the line that it stands in.
#[derive(Drop)]
struct Scripted<'a> {
    line: u64,
    asked: Asked<'a>,
}

// What a run is made of: the hub, the room and the places that are asked for, and the calls.
#[derive(Drop)]
struct Script<'a> {
    setup: Setup,
    room: Option<usize>,
    places: Option<usize>,
    calls: Vec<Scripted<'a>>,
}

impl<'a> Script<'a> {
    // Reads a script to its end; the first line that can't stand in one is told with its number.
    fn read(heap: Global, text: &'a [u8]) -> anyhow::Result<Script<'a>> {
        let mut script = Script {
            setup: Setup::SHIPPED,
            room: None,
            places: None,
            calls: Vec::new(heap),
        };
        for (number, line) in (1..=u64::MAX).zip(Lines(text)) {
            if let Err(fault) = script.read_line(heap, number, line) {
                bail!("line {number}: {fault}; no call is made");
            }
        }
        Ok(script)
    }

    // One line more.
    fn read_line(&mut self, heap: Global, number: u64, line: &'a [u8]) -> anyhow::Result<()> {
        let call = read_call(line)?;
        match call {
            Call::Nothing => return Ok(()),
            Call::Write(_) | Call::Records | Call::Document | Call::Help => {
                bail!("write, records, document and help are no calls of a run")
            }
            _ => {}
        }
        match Asked::read(heap, call)? {
            Some(asked) => self.calls.push(Scripted {
                line: number,
                asked,
            })?,
            None => {
                ensure!(
                    self.calls.is_empty(),
                    "what sets up a run stands before its first call"
                );
                self.set_up(call)?;
            }
        }
        Ok(())
    }

    // A part of the hub, the room or the places.
    fn set_up(&mut self, call: Call<'_>) -> anyhow::Result<()> {
        match call {
            Call::Room(room) => self.room = Some(size_of(room)?),
            Call::Places(places) => self.places = Some(size_of(places)?),
            _ => self.setup = self.setup.changed(call).unwrap_or(self.setup),
        }
        Ok(())
    }

    // How many bytes there are for all calls.
    fn room(&self) -> usize {
        self.room.unwrap_or(self.calls.len().saturating_mul(ROOM))
    }

    // How many places each list has for all calls.
    fn places(&self) -> usize {
        self.places
            .unwrap_or(self.calls.len().saturating_mul(PLACES))
    }
}

// A script that is run, whichever hub it asks for.
struct Running<'s, 'a> {
    heap: Global,
    script: &'s Script<'a>,
}

impl Task for Running<'_, '_> {
    type Outcome = anyhow::Result<Report>;

    // Makes the run, and tells each answer with its line, then what the hub holds.
    fn with<H: DocumentHost + Drop, C: Turned + Drop, P: Policy + Drop>(
        self,
        clock: C,
        policy: P,
    ) -> anyhow::Result<Report> {
        let Running { heap, script } = self;
        let mut calls = Vec::new(heap);
        let mut answers = Vec::new(heap);
        for scripted in &script.calls {
            calls.push(scripted.asked.call())?;
            answers.push(Answer::Done)?;
        }
        let mut places = Places::new(heap, script.room(), script.places())?;
        let made: Result<Hub<H, C, P>, _> = run(
            script.setup.own,
            calls.as_slice(),
            clock,
            policy,
            answers.as_mut_slice(),
            places.lend(),
        );
        let hub = match made {
            Ok(hub) => hub,
            Err(fault) => bail!("the run is {}", Refused(fault)),
        };
        let mut report = Report::new(heap);
        report.add_setup(script.setup)?;
        report.add_sizes(script.room(), script.places())?;
        let mut told = places.told();
        for (scripted, answer) in script.calls.iter().zip(answers.iter()) {
            report.add_line(scripted.line)?;
            report.add_answer(&scripted.asked, answer, told.take(answer))?;
        }
        report.add_end(&hub)?;
        Ok(report)
    }
}

// What a script's run is answered. Every line is read first, so no call is made where one can't stand.
pub fn run_script(heap: Global, text: &[u8]) -> anyhow::Result<Report> {
    let script = Script::read(heap, text)?;
    let running = Running {
        heap,
        script: &script,
    };
    with_setup(running, script.setup)
}
