// What a line asks of a hub.
use crate::messages::read_clients;
use call_line::call::Call as LineCall;
use hexadecimal::parse_line;
use hub::run::Call;
use std::alloc::Global;
use std::fmt;

// A call of a hub, with the bytes and the clients that it lends.
#[derive(Drop)]
pub enum Asked<'a> {
    Handle(Vec<u8>),
    Apply(Vec<u8>),
    Set(&'a [u8]),
    Clean,
    Remove(u64),
    Step1,
    Start,
    Show(u64),
    List(Vec<u64>),
}

impl Asked<'_> {
    // The call of a line, if it is one of a hub.
    pub fn read(heap: Global, line: LineCall<'_>) -> anyhow::Result<Option<Asked<'_>>> {
        Ok(Some(match line {
            LineCall::Handle(hex) => Asked::Handle(parse_line(heap, hex)?),
            LineCall::Apply(hex) => Asked::Apply(parse_line(heap, hex)?),
            LineCall::Set(text) => Asked::Set(text),
            LineCall::Clean => Asked::Clean,
            LineCall::Remove(client) => Asked::Remove(client),
            LineCall::Step1 => Asked::Step1,
            LineCall::Start => Asked::Start,
            LineCall::Show(client) => Asked::Show(client),
            LineCall::List(list) => Asked::List(read_clients(heap, list)?),
            _ => return Ok(None),
        }))
    }

    // The call, which borrows from this.
    pub fn call(&self) -> Call<'_> {
        match self {
            Asked::Handle(bytes) => Call::Handle(bytes.as_slice()),
            Asked::Apply(update) => Call::Apply(update.as_slice()),
            Asked::Set(text) => Call::Set(text),
            Asked::Clean => Call::Clean,
            Asked::Remove(client) => Call::Remove(*client),
            Asked::Step1 => Call::Step1,
            Asked::Start => Call::Start,
            Asked::Show(client) => Call::Show(*client),
            Asked::List(clients) => Call::List(clients.as_slice()),
        }
    }
}

impl fmt::Display for Asked<'_> {
    // What its answer tells of.
    fn fmt<W: fmt::Write>(&self, f: &mut fmt::Formatter<W>) -> fmt::Result {
        match self {
            Asked::Handle(_) => f.write_str("replies"),
            Asked::Apply(_) => f.write_str("applied"),
            Asked::Set(_) => f.write_str("set"),
            Asked::Clean => f.write_str("cleaned"),
            Asked::Remove(_) => f.write_str("removed"),
            Asked::Step1 => f.write_str("step 1"),
            Asked::Start => f.write_str("start"),
            Asked::Show(client) => write!(f, "client {client}"),
            Asked::List(_) => f.write_str("update"),
        }
    }
}
