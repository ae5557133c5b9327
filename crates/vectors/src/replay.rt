// Pairs of a call and the Rust's answer, held against the answers of the proved code.
use crate::answer::Answer;
use crate::counts::Counts;
use crate::words::parse_setup;
use anyhow::{bail, ensure};
use calls::answer::Refusal;
use driven::driven::{Driven, Setup};
use encoding::read::check_client_id;
use std::io::BufRead;
use std::str;

// Room for all that one call writes.
const ROOM: usize = 1 << 20;

// A call that waits for the Rust's answer, and the port's answer to it.
#[derive(Drop)]
struct Asked {
    call: String,
    answer: Answer,
}

// Lines of cases that are read one after another.
#[derive(Drop)]
pub struct Replay<'a, T, R> {
    rt: &'a T,
    input: R,
    // how many lines there were
    number: u64,
    counts: Counts,
    asked: Option<Asked>,
    room: Vec<u8>,
}

impl<'a, T: Print + AllocGlobal, R: BufRead + Drop> Replay<'a, T, R> {
    // At the first line.
    pub fn new(rt: &'a T, input: R) -> anyhow::Result<Replay<'a, T, R>> {
        Ok(Replay {
            rt,
            input,
            number: 0,
            counts: Counts::new(rt.alloc()),
            asked: None,
            room: vec![in rt.alloc(); 0u8; ROOM]?,
        })
    }

    // Answers a call. Where that asks for a fresh hub, tells what it is to be made of.
    fn ask<D: Driven>(&mut self, hub: &mut D, line: &str) -> anyhow::Result<Option<Setup>> {
        ensure!(self.asked.is_none(), "a call without an answer");
        let heap = self.rt.alloc();
        let words: Vec<&str> = line.split_ascii_whitespace().collect(heap)?;
        let mut answer = Answer::new(heap);
        let mut next = None;
        match *words {
            ["hub", ref made_of @ ..] => {
                let setup = parse_setup(made_of)?;
                let judged = check_client_id(setup.own);
                answer.add_done(judged.map_err(Refusal::from))?;
                next = judged.is_ok().then_some(setup);
            }
            _ => answer.add_call(hub, self.room.as_mut_slice(), &words)?,
        }
        self.counts
            .calls
            .add(words.first().copied().unwrap_or_default())?;
        self.asked = Some(Asked {
            call: String::from_str(heap, line)?,
            answer,
        });
        Ok(next)
    }

    // Holds the answer to the call before against the Rust's, which a `|` and the kind of a difference may follow.
    fn compare(&mut self, line: &str) -> anyhow::Result<()> {
        let Some(Asked { call, answer }) = self.asked.take() else {
            bail!("an answer without a call");
        };
        let (wanted, kind) = match line.split_once(" | ") {
            Some((wanted, kind)) => (wanted, Some(kind)),
            None => (line, None),
        };
        let agrees = match wanted.strip_prefix('?') {
            Some(number) => {
                self.counts.outside.add(kind.unwrap_or_default())?;
                match number.trim_ascii() {
                    "" => true,
                    number => answer.refused == Some(number.parse()?),
                }
            }
            None => {
                self.counts.add_compared(answer.refused)?;
                if let Some(kind) = kind {
                    self.counts.by_rule.add(kind)?;
                }
                says(answer.text.as_str(), wanted)
            }
        };
        if !agrees {
            let (number, text) = (self.number, answer.text);
            println!(self.rt; "line {number}: {call}\nthe port = {text}\nthe Rust = {line}")?;
            bail!("the port answers otherwise than the Rust");
        }
        Ok(())
    }

    // Lets a hub answer each call in turn, up to one that asks for a fresh hub, and stops at the first answer that is not the Rust's.
    pub fn work<D: Driven>(&mut self, hub: &mut D) -> anyhow::Result<Option<Setup>> {
        for number in self.number.saturating_add(1)..=u64::MAX {
            let mut line = Vec::new(self.rt.alloc());
            if self.input.read_until(b'\n', &mut line)? == 0 {
                break;
            }
            self.number = number;
            let line = str::from_utf8(line.as_slice())?.trim_ascii_end();
            match line.strip_prefix("= ") {
                Some(answer) => self.compare(answer)?,
                None if line.is_empty() || line.starts_with('#') => {}
                None => {
                    if let Some(setup) = self.ask(hub, line)? {
                        return Ok(Some(setup));
                    }
                }
            }
        }
        Ok(None)
    }

    // How many there were; a file without any call shows nothing.
    pub fn finish(self) -> anyhow::Result<Counts> {
        ensure!(self.asked.is_none(), "a call without an answer");
        ensure!(self.counts.calls.total() > 0, "no calls");
        Ok(self.counts)
    }
}

// Whether an answer is what is wanted, in which a `+` stands before a client that a list has by the rule.
fn says(answer: &str, wanted: &str) -> bool {
    answer == wanted
        || answer
            .bytes()
            .eq(wanted.bytes().filter(|byte| *byte != b'+'))
}
