// Calls of a hub, answered by the proved code in the words that the Rust's answers have.
use crate::answer::Answer;
use crate::words::{Digits, parse_bytes, parse_clients};
use awareness::record::Record;
use awareness::summary::ChangeLists;
use calls::answer::{Handled, Refusal};
use driven::driven::Driven;
use hub::run::{self, Call};
use state_vector::keyed::Keyed;
use std::fmt::Write;

// Places of a list of clients.
const PLACES: usize = 64;

impl Answer {
    // The answer of a hub to the call of these words, with room for the bytes that it writes; calls that need no hub are answered too.
    pub fn add_call<D: Driven>(
        &mut self,
        hub: &mut D,
        room: &mut [u8],
        words: &[&str],
    ) -> anyhow::Result<()> {
        let heap = self.heap();
        match *words {
            ["clock", reading] => {
                hub.set_clock(reading.parse()?);
                self.add_done(Ok(()))
            }
            ["handle", bytes] => self.ask(hub, Call::Handle(&parse_bytes(heap, bytes)?), room),
            ["apply", bytes] => self.ask(hub, Call::Apply(&parse_bytes(heap, bytes)?), room),
            ["set", text] => self.ask(hub, Call::Set(&parse_bytes(heap, text)?), room),
            ["clean"] => self.ask(hub, Call::Clean, room),
            ["remove", client] => self.ask(hub, Call::Remove(client.parse()?), room),
            ["step1"] => self.ask(hub, Call::Step1, room),
            ["start"] => self.ask(hub, Call::Start, room),
            ["show", client] => self.ask(hub, Call::Show(client.parse()?), room),
            ["list", clients] => self.ask(hub, Call::List(&parse_clients(heap, clients)?), room),
            ["records"] => self.add_records(hub.records()),
            ["document"] => self.add_document(hub, room),
            _ => self.add(words),
        }
    }

    // What a hub answers to a call.
    fn ask<D: Driven>(
        &mut self,
        hub: &mut D,
        call: Call<'_>,
        room: &mut [u8],
    ) -> anyhow::Result<()> {
        let mut added = [0u64; PLACES];
        let mut updated = [0u64; PLACES];
        let mut changed = [0u64; PLACES];
        let mut removed = [0u64; PLACES];
        let mut lists = ChangeLists {
            added: &mut added,
            updated: &mut updated,
            changed: &mut changed,
            removed: &mut removed,
        };
        match hub.call(call, room, &mut lists) {
            run::Answer::Handled(answer) => self.add_handled(answer, room),
            run::Answer::Applied(lengths) => {
                self.add_clients("added ", added.get(..lengths.added))?;
                self.add_clients(" updated ", updated.get(..lengths.updated))?;
                self.add_clients(" changed ", changed.get(..lengths.changed))?;
                self.add_clients(" removed ", removed.get(..lengths.removed))
            }
            run::Answer::Done => self.add_done(Ok(())),
            run::Answer::Written(len) => self.add_bytes(Ok(len), room),
            run::Answer::Shown(held) => self.add_shown(held.as_ref()),
            run::Answer::Refused(fault) => self.add_refusal(fault.into(), &[]),
        }
    }

    // The document, as the update for whoever knows nothing.
    fn add_document<D: Driven>(&mut self, hub: &D, room: &mut [u8]) -> anyhow::Result<()> {
        write!(self.text, "document ")?;
        let len = hub.update(room)?;
        self.add_front(room, len)
    }

    // What was done, or why it was not.
    pub fn add_done(&mut self, answer: Result<(), Refusal>) -> anyhow::Result<()> {
        match answer {
            Ok(()) => Ok(write!(self.text, "done")?),
            Err(refusal) => self.add_refusal(refusal, &[]),
        }
    }

    // How far messages were handled, and their replies.
    fn add_handled(&mut self, answer: Result<Handled, Refusal>, room: &[u8]) -> anyhow::Result<()> {
        match answer {
            Ok(
                Handled {
                    messages,
                    place,
                    replies,
                },
            ) => {
                write!(self.text, "done {messages} at {place} reply ")?;
                self.add_front(room, replies)
            }
            Err(refusal) => self.add_refusal(refusal, room),
        }
    }

    // A list of clients, by its name.
    fn add_clients(&mut self, name: &str, clients: Option<&[u64]>) -> anyhow::Result<()> {
        let clients = clients.unwrap_or_default();
        write!(self.text, "{name}")?;
        self.add_none(clients.len())?;
        for (i, client) in clients.iter().enumerate() {
            self.add_comma(i)?;
            write!(self.text, "{client}")?;
        }
        Ok(())
    }

    // What is held of a client.
    fn add_shown(&mut self, held: Option<&Record>) -> anyhow::Result<()> {
        match held {
            None => Ok(write!(self.text, "none")?),
            Some(record) => {
                write!(self.text, "record ")?;
                self.add_record(record)
            }
        }
    }

    // A record, as `7:3@100:6869`.
    fn add_record(&mut self, record: &Record) -> anyhow::Result<()> {
        let (client, clock, time) = (record.client(), record.clock(), record.time());
        write!(self.text, "{client}:{clock}@{time}:")?;
        match record.state() {
            None => write!(self.text, "null")?,
            Some(text) => write!(self.text, "{}", Digits(text.as_bytes()))?,
        }
        Ok(())
    }

    // All records.
    fn add_records(&mut self, records: &[Record]) -> anyhow::Result<()> {
        write!(self.text, "records ")?;
        self.add_none(records.len())?;
        for (i, record) in records.iter().enumerate() {
            self.add_comma(i)?;
            self.add_record(record)?;
        }
        Ok(())
    }
}
