// Words of calls and answers: bytes, lists, and what hubs are made of.
use anyhow::{Context, bail};
use call_line::call::{Board, Rules};
use driven::driven::{Setup, Ticking};
use hexadecimal::parse_line;
use message::presence::PresenceEntry;
use state_vector::vector::VectorEntry;
use std::alloc::Global;
use std::fmt;

// Bytes in small digits without blanks, `-` where there are none.
#[derive(Clone, Copy)]
pub struct Digits<'a>(pub &'a [u8]);

impl fmt::Display for Digits<'_> {
    // Two digits for each byte.
    fn fmt<W: fmt::Write>(&self, f: &mut fmt::Formatter<W>) -> fmt::Result {
        if self.0.is_empty() {
            return write!(f, "-");
        }
        for byte in self.0 {
            write!(f, "{byte:02x}")?;
        }
        Ok(())
    }
}

// Bytes as `Digits` writes them.
pub fn parse_bytes(heap: Global, word: &str) -> anyhow::Result<Vec<u8>> {
    match word {
        "-" => Ok(Vec::new(heap)),
        _ => Ok(parse_line(heap, word.as_bytes())?),
    }
}

// The items of a list, between commas; `-` is a list of none.
fn parse_list(heap: Global, word: &str) -> anyhow::Result<Vec<&str>> {
    match word {
        "-" => Ok(Vec::new(heap)),
        _ => Ok(word.split(',').collect(heap)?),
    }
}

// A client and its clock, as `5:300`.
fn parse_clock(word: &str) -> anyhow::Result<VectorEntry> {
    let (client, clock) = word.split_once(':').context("a client and its clock")?;
    Ok(VectorEntry {
        client: client.parse()?,
        clock: clock.parse()?,
    })
}

// The entries of a vector.
pub fn parse_vector(heap: Global, word: &str) -> anyhow::Result<Vec<VectorEntry>> {
    let mut entries = Vec::new(heap);
    for item in &parse_list(heap, word)? {
        entries.push(parse_clock(item)?)?;
    }
    Ok(entries)
}

// A client, its clock and what it shows.
#[derive(Drop)]
pub struct ShownEntry {
    at: VectorEntry,
    text: Option<Vec<u8>>,
}

impl ShownEntry {
    // The entry of an update.
    pub fn entry(&self) -> PresenceEntry<'_> {
        let VectorEntry { client, clock } = self.at;
        PresenceEntry {
            client,
            clock,
            state: self.text.as_deref(),
        }
    }
}

// A client, its clock and what it shows, as `7:3:6869` or `7:3:null`.
fn parse_shown(heap: Global, word: &str) -> anyhow::Result<ShownEntry> {
    let (at, shown) = word
        .rsplit_once(':')
        .context("a client, its clock and what it shows")?;
    let text = match shown {
        "null" => None,
        _ => Some(parse_bytes(heap, shown)?),
    };
    Ok(ShownEntry {
        at: parse_clock(at)?,
        text,
    })
}

// The entries of a presence update.
pub fn parse_update(heap: Global, word: &str) -> anyhow::Result<Vec<ShownEntry>> {
    let mut entries = Vec::new(heap);
    for item in &parse_list(heap, word)? {
        entries.push(parse_shown(heap, item)?)?;
    }
    Ok(entries)
}

// The ids of a list.
pub fn parse_clients(heap: Global, word: &str) -> anyhow::Result<Vec<u64>> {
    let mut clients = Vec::new(heap);
    for item in &parse_list(heap, word)? {
        clients.push(item.parse()?)?;
    }
    Ok(clients)
}

// What a hub is made of, as `1 count default step 100`.
pub fn parse_setup(words: &[&str]) -> anyhow::Result<Setup> {
    let [own, board, rules, pace, reading] = *words else {
        bail!("a client, a board, a policy, a clock and its reading");
    };
    let reading = reading.parse()?;
    Ok(Setup {
        own: own.parse()?,
        board: match board {
            "count" => Board::Count,
            "slot" => Board::Slot,
            _ => bail!("no board that is known"),
        },
        rules: match rules {
            "default" => Rules::Default,
            "ranges" => Rules::Ranges,
            _ => bail!("no policy that is known"),
        },
        clock: match pace {
            "set" => Ticking::Set(reading),
            "step" => Ticking::Step(reading),
            _ => bail!("no clock that is known"),
        },
    })
}
