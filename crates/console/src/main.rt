// A hub driven by lines: one call a line, each answered at once in words, or all in one run.
#![tactic(auto)]

use crate::script::{PLACES, ROOM, run_script};
use crate::session::{Session, State};
use anyhow::bail;
use calls::policy::Policy;
use document::host::DocumentHost;
use driven::choice::{Task, with_setup};
use driven::driven::{Driven, Setup, Turned};
use hexadecimal::input::read_input;
use hub::hub::Hub;
use std::env;
use std::fs::File;
use std::io::{BufRead, BufReader};
use std::rt::{Env, Files};

mod asked;
mod messages;
mod places;
mod report;
mod script;
mod session;
#[cfg(test)]
mod tests;

// How the lines of a file are taken.
#[derive(Clone, Copy, PartialEq, Eq)]
enum Way {
    // one after another
    Lines,
    // all in one run
    Run,
}

// A file, or standard input, which has no name, and how its lines are taken.
#[derive(Drop)]
struct Source {
    file: Option<String>,
    way: Way,
}

// The files that are asked for, in turn, or standard input.
fn read_args(rt: &(impl Env + AllocGlobal)) -> anyhow::Result<Vec<Source>> {
    let mut sources = Vec::new(rt.alloc());
    let mut way = Way::Lines;
    for arg in env::args(rt)?.skip(1) {
        match arg.as_str() {
            "--run" if way == Way::Lines => way = Way::Run,
            text if text.starts_with('-') => bail!("usage: console [--run] [FILE] .."),
            _ => {
                sources.push(Source {
                    file: Some(arg),
                    way,
                })?;
                way = Way::Lines;
            }
        }
    }
    if sources.is_empty() || way == Way::Run {
        sources.push(Source { file: None, way })?;
    }
    Ok(sources)
}

// Lines that are read one after another, with how many there were.
#[derive(Drop)]
struct Numbered<R> {
    input: R,
    number: u64,
}

// Lets a hub answer each line in turn; a line that is no call is named, and the next is taken. Tells what a fresh hub works with where one is asked for.
fn work<D: Driven + Drop, R: BufRead>(
    rt: &(impl Print + AllocGlobal),
    lines: &mut Numbered<R>,
    hub: D,
    state: State,
) -> anyhow::Result<Option<State>> {
    let mut session = Session::new(rt.alloc(), hub, state);
    for number in lines.number.saturating_add(1)..=u64::MAX {
        let mut line = Vec::new(rt.alloc());
        if lines.input.read_until(b'\n', &mut line)? == 0 {
            break;
        }
        lines.number = number;
        match session.answer(line.as_slice()) {
            Ok(answer) if answer.is_empty() => {}
            Ok(answer) => print!(rt; "line {number}: {answer}")?,
            Err(fault) => println!(rt; "line {number}: not a call, {fault}")?,
        }
        if let Some(next) = session.next() {
            return Ok(Some(next));
        }
    }
    Ok(None)
}

// Lines that a hub is to answer, whichever hub it is.
struct Answering<'r, 'l, W, R> {
    rt: &'r W,
    lines: &'l mut Numbered<R>,
    state: State,
}

impl<W: Print + AllocGlobal, R: BufRead> Task for Answering<'_, '_, W, R> {
    type Outcome = anyhow::Result<Option<State>>;

    // Lets a fresh hub answer them.
    fn with<H: DocumentHost + Drop, C: Turned + Drop, P: Policy + Drop>(
        self,
        clock: C,
        policy: P,
    ) -> anyhow::Result<Option<State>> {
        let Answering { rt, lines, state } = self;
        let hub: Hub<H, C, P> = Hub::new(state.setup.own, clock, policy)?;
        work(rt, lines, hub, state)
    }
}

// Fresh hubs one after another, each until the next is asked for; the first is the one that ships.
fn drive<R: BufRead + Drop>(rt: &(impl Print + AllocGlobal), input: R) -> anyhow::Result<()> {
    let mut lines = Numbered { input, number: 0 };
    let mut next = Some(State {
        setup: Setup::SHIPPED,
        room: ROOM,
        places: PLACES,
    });
    for _ in 0..u64::MAX {
        let Some(state) = next else { break };
        let answering = Answering {
            rt,
            lines: &mut lines,
            state,
        };
        next = with_setup(answering, state.setup)?;
    }
    Ok(())
}

// Answers the lines of a source, one by one or all in one run.
fn take(
    rt: &(impl Files + Input + Print + AllocGlobal),
    file: Option<&str>,
    way: Way,
) -> anyhow::Result<()> {
    match (way, file) {
        (Way::Lines, None) => drive(rt, rt.reader()),
        (Way::Lines, Some(path)) => {
            let file = File::open(rt, path)?;
            drive(rt, BufReader::new(rt.alloc(), file)?)
        }
        (Way::Run, _) => {
            let text = read_input(rt, file)?;
            let report = run_script(rt.alloc(), text.as_slice())?;
            Ok(print!(rt; "{report}")?)
        }
    }
}

// Each source in turn, up to one that cannot be taken, which is named.
fn main(rt: HostRuntime) -> anyhow::Result<()> {
    for Source { file, way } in read_args(&rt)? {
        let file = file.as_deref();
        if let Err(fault) = take(&rt, file, way) {
            let name = file.unwrap_or("standard input");
            bail!("{name}: {fault}");
        }
    }
    Ok(())
}
