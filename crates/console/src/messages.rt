// Messages in words, and lists of clients.
use anyhow::Context;
use call_line::message::MessageWords;
use call_line::words::read_number;
use calls::answer::Refusal;
use driven::writing::{write_awareness, write_step1};
use hexadecimal::parse_line;
use hub::writing::write;
use message::presence::{PresenceEntry, state_of};
use message::write::Draft;
use state_vector::vector::VectorEntry;
use std::alloc::Global;

// The ids of a list, between blanks.
pub fn read_clients(heap: Global, list: &[u8]) -> anyhow::Result<Vec<u64>> {
    let mut clients = Vec::new(heap);
    for word in std::str::from_utf8(list)?.split_ascii_whitespace() {
        clients.push(read_number(word.as_bytes())?)?;
    }
    Ok(clients)
}

// A client and its clock, as `5:300`.
fn read_entry(word: &str) -> anyhow::Result<VectorEntry> {
    let (client, clock) = word.split_once(':').context("an entry is CLIENT:CLOCK")?;
    Ok(VectorEntry {
        client: read_number(client.as_bytes())?,
        clock: u32::try_from(read_number(clock.as_bytes())?).context("a clock has 32 bits")?,
    })
}

// The entries of a vector.
fn read_entries(heap: Global, list: &str) -> anyhow::Result<Vec<VectorEntry>> {
    let mut entries = Vec::new(heap);
    for word in list.split_ascii_whitespace() {
        entries.push(read_entry(word)?)?;
    }
    Ok(entries)
}

// A client, its clock and what it shows, as `7:3:"in"` or `7:3:null`.
fn read_presence(word: &str) -> anyhow::Result<PresenceEntry<'_>> {
    let (client, rest) = word
        .split_once(':')
        .context("an entry is CLIENT:CLOCK:TEXT")?;
    let (clock, text) = rest
        .split_once(':')
        .context("an entry is CLIENT:CLOCK:TEXT")?;
    Ok(PresenceEntry {
        client: read_number(client.as_bytes())?,
        clock: u32::try_from(read_number(clock.as_bytes())?).context("a clock has 32 bits")?,
        state: state_of(text.as_bytes()),
    })
}

// The entries of a presence update; no text may have a blank in it.
fn read_presences(heap: Global, list: &str) -> anyhow::Result<Vec<PresenceEntry<'_>>> {
    let mut entries = Vec::new(heap);
    for word in list.split_ascii_whitespace() {
        entries.push(read_presence(word)?)?;
    }
    Ok(entries)
}

// Writes a message that is given in words, and tells its length, or why it is refused.
pub fn write_words(
    heap: Global,
    words: MessageWords,
    out: &mut [u8],
) -> anyhow::Result<Result<usize, Refusal>> {
    Ok(match words {
        MessageWords::Step1(list) => {
            let entries = read_entries(heap, std::str::from_utf8(list)?)?;
            write_step1(entries.as_slice(), out)
        }
        MessageWords::Awareness(list) => {
            let entries = read_presences(heap, std::str::from_utf8(list)?)?;
            write_awareness(entries.as_slice(), out)
        }
        MessageWords::Step2(hex) => {
            let bytes = parse_line(heap, hex)?;
            write(&Draft::SyncStep2(bytes.as_slice()), out)
        }
        MessageWords::Update(hex) => {
            let bytes = parse_line(heap, hex)?;
            write(&Draft::Update(bytes.as_slice()), out)
        }
        MessageWords::Custom(tag, hex) => {
            let bytes = parse_line(heap, hex)?;
            write(&Draft::Custom(tag, bytes.as_slice()), out)
        }
        MessageWords::Denied(reason) => write(&Draft::AuthDenied(reason), out),
        MessageWords::Granted => write(&Draft::AuthGranted, out),
        MessageWords::Query => write(&Draft::AwarenessQuery, out),
    })
}
