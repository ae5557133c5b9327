// Replays the answers of yrs through the proved code: pairs of lines, a call and `= ` with what the Rust answers to it.
#![tactic(auto)]

use crate::replay::Replay;
use anyhow::bail;
use calls::policy::Policy;
use document::host::DocumentHost;
use driven::choice::{Task, with_setup};
use driven::driven::{Setup, Turned};
use hub::hub::Hub;
use std::env;
use std::fs::File;
use std::io::{BufRead, BufReader};
use std::rt::Env;

mod answer;
mod counts;
mod hub_calls;
mod replay;
mod words;

// The file that the argument names, if there is one.
fn read_args(rt: &(impl Env + AllocGlobal)) -> anyhow::Result<Option<String>> {
    let mut args = env::args(rt)?.skip(1);
    match (args.next(), args.next()) {
        (file, None) => Ok(file),
        _ => bail!("usage: vectors [FILE]"),
    }
}

// Cases that a hub is to answer, whichever hub it is.
struct Answering<'l, 'r, T, R> {
    replay: &'l mut Replay<'r, T, R>,
    own: u64,
}

impl<T: Print + AllocGlobal, R: BufRead + Drop> Task for Answering<'_, '_, T, R> {
    type Outcome = anyhow::Result<Option<Setup>>;

    // Lets a fresh hub answer them.
    fn with<H: DocumentHost + Drop, C: Turned + Drop, P: Policy + Drop>(
        self,
        clock: C,
        policy: P,
    ) -> anyhow::Result<Option<Setup>> {
        let Answering { replay, own } = self;
        let mut hub: Hub<H, C, P> = Hub::new(own, clock, policy)?;
        replay.work(&mut hub)
    }
}

// Lets a hub after the other answer its calls, and tells how many there were; those before the first hub need none.
fn replay_all<R: BufRead + Drop>(rt: &(impl Print + AllocGlobal), input: R) -> anyhow::Result<()> {
    let mut replay = Replay::new(rt, input)?;
    let mut setup = Setup::SHIPPED;
    for _ in 0..u64::MAX {
        let answering = Answering {
            replay: &mut replay,
            own: setup.own,
        };
        match with_setup(answering, setup)? {
            Some(next) => setup = next,
            None => break,
        }
    }
    let counts = replay.finish()?;
    Ok(print!(rt; "{counts}")?)
}

// The cases of a file, or of standard input.
fn main(rt: HostRuntime) -> anyhow::Result<()> {
    let heap = rt.alloc();
    match read_args(&rt)? {
        Some(path) => {
            let file = File::open(&rt, path.as_str())?;
            replay_all(&rt, BufReader::new(heap, file)?)
        }
        None => replay_all(&rt, BufReader::new(heap, rt.reader())?),
    }
}
