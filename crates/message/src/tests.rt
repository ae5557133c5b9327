// Examples of messages, whole, cut short and refused, and of messages written.
use crate::arrived::ArrivedEntry;
use crate::message::Message;
use crate::messages::*;
use crate::presence::PresenceEntry;
use crate::update::{Presence, PresenceUpdate};
use crate::write::*;
use encoding::entries::Decode;
use encoding::fault::WireFault;
use encoding::write::WriteFault;
use state_vector::vector::{StateVector, VectorEntry};
use std::process::Abort;
use std::test::Fail;

// The fault that the first message is refused with.
fn fault_of(bytes: &[u8]) -> Option<WireFault> {
    match read_next(bytes) {
        Next::Refused(fault) => Some(fault),
        _ => None,
    }
}

#[test]
fn each_refusal_through_a_message(rt: HostRuntime) {
    let table: [(&[u8], Option<WireFault>); 9] = [
        // a clock past 32 bits; an entry that its buffer does not have; a kind that there is not
        (
            b"\x01\x09\x01\x07\x80\x80\x80\x80\x10\x010",
            Some(WireFault::InvalidVarInt),
        ),
        (b"\x01\x01\x01\x03", Some(WireFault::EndOfBuffer)),
        (b"\x00\x03\x00", Some(WireFault::UnexpectedValue)),
        // a reason and a presence text that are not UTF-8
        (b"\x02\x00\x01\xff", Some(WireFault::UnexpectedValue)),
        (
            b"\x01\x05\x01\x07\x03\x01\xff",
            Some(WireFault::UnexpectedValue),
        ),
        // an id of 2^53, and 65 entries, in a vector and in a presence update
        (
            b"\x00\x00\x0a\x01\x80\x80\x80\x80\x80\x80\x80\x10\x01",
            Some(WireFault::InvalidClientId),
        ),
        (b"\x00\x00\x01\x41", Some(WireFault::TooManyEntries)),
        (b"\x01\x01\x41", Some(WireFault::TooManyEntries)),
        (b"\x00\x00\x03\x01\x05\x01", None),
    ];
    for (bytes, fault) in table {
        assert_eq!(rt; fault_of(bytes), fault);
    }
}

// A presence text of 257 bytes, as a message.
fn long_text() -> [u8; 265] {
    let mut m = [b'1'; 265];
    m[..8].copy_from_slice(b"\x01\x86\x02\x01\x07\x03\x81\x02");
    m
}

// The fault of that message with some bytes in the place of others.
fn fault_with(others: &[(usize, u8)]) -> Option<WireFault> {
    let mut m = long_text();
    for (at, other) in others {
        if let Some(b) = m.get_mut(*at) {
            *b = *other;
        }
    }
    fault_of(&m)
}

#[test]
fn a_presence_text_has_256_bytes_at_most(rt: HostRuntime) {
    let table: [(&[(usize, u8)], Option<WireFault>); 4] = [
        (&[], Some(WireFault::TextTooLong)),
        // too long and not UTF-8
        (&[(100, 0xff)], Some(WireFault::UnexpectedValue)),
        // too long and cut
        (&[(6, 0x82)], Some(WireFault::EndOfBuffer)),
        // 256 bytes
        (&[(1, 0x85), (6, 0x80)], None),
    ];
    for (others, fault) in table {
        assert_eq!(rt; fault_with(others), fault);
    }
}

// How many messages there are, and the place where they end otherwise than with the bytes.
fn row_of(bytes: &[u8]) -> (usize, Option<usize>) {
    let empty = Placed {
        place: 0,
        message: Message::AwarenessQuery,
    };
    let mut into = [empty; 4];
    let row = read_messages(bytes, &mut into);
    match row.end {
        Some(End::Ended) | None => (row.count, None),
        Some(End::Cut(place) | End::Refused(place, _)) => (row.count, Some(place)),
    }
}

#[test]
fn rows_of_messages_and_their_ends(rt: HostRuntime) {
    let table: [(&[u8], usize, Option<usize>); 6] = [
        (b"", 0, None),
        (b"\x03\x03\x03", 3, None),
        // more than there are places
        (b"\x03\x03\x03\x03\x03", 4, None),
        // cut short, and cut inside a buffer, which is refused
        (b"\x01\x02\x01", 0, Some(0)),
        (b"\x03\x01\x08\x01\x07\x03\x04\"in\"\x00", 2, Some(11)),
        (b"\x03\x01\x01\x01\x03", 1, Some(1)),
    ];
    for (bytes, count, place) in table {
        assert_eq!(rt; row_of(bytes), (count, place));
    }
}

#[test]
fn every_other_tag_is_custom(rt: HostRuntime) -> Result<(), Fail> {
    let Next::Whole(Message::Custom(tag, part), rest) = read_next(&[0xc8, 1, 2, 5, 6, 9]) else {
        return Err(Fail::new("a custom message"));
    };
    assert_eq!(rt; tag, 200);
    assert_eq!(rt; part, [5, 6].as_slice());
    assert_eq!(rt; rest, [9].as_slice());
    Ok(())
}

// The message is written as the bytes; with room for one byte less it is not, and no byte changes.
fn check_written<M: Outgoing>(rt: &impl Abort, m: &M, bytes: &[u8]) -> Result<(), Fail> {
    let mut out = [0xee; 16];
    let n = write(m, &mut out)?;
    assert_eq!(rt; out.get(0..n), Some(bytes));
    let mut short = [0xee; 16];
    let past = 17usize.saturating_sub(bytes.len());
    let refused = write_at(m, &mut short, past);
    assert_eq!(rt; (refused, short), (Err(WriteFault::Short), [0xee; 16]));
    Ok(())
}

#[test]
fn drafts_are_written_as_their_bytes(rt: HostRuntime) -> Result<(), Fail> {
    let table: [(Draft, &[u8]); 6] = [
        (Draft::SyncStep2(b"\x07"), b"\x00\x01\x01\x07"),
        (Draft::Update(b"\x07\x08"), b"\x00\x02\x02\x07\x08"),
        (Draft::AuthDenied(b"no"), b"\x02\x00\x02no"),
        (Draft::AuthGranted, b"\x02\x01"),
        (Draft::AwarenessQuery, b"\x03"),
        (Draft::Custom(200, b""), b"\xc8\x01\x00"),
    ];
    for (draft, bytes) in table {
        check_written(&rt, &draft, bytes)?;
    }
    Ok(())
}

#[test]
fn a_vector_is_written_as_step_1(rt: HostRuntime) -> Result<(), Fail> {
    let mut v = StateVector::new();
    check_written(&rt, &v, b"\x00\x00\x01\x00")?;
    v.put(VectorEntry {
        client: 5,
        clock: 300,
    })?;
    check_written(&rt, &v, b"\x00\x00\x04\x01\x05\xac\x02")
}

// A client that shows a text.
fn live(client: u64, clock: u32, text: &[u8]) -> PresenceEntry<'_> {
    PresenceEntry {
        client,
        clock,
        state: Some(text),
    }
}

// An update of the entries, put in one after another.
fn update_of(entries: &[PresenceEntry]) -> Result<PresenceUpdate, WireFault> {
    let mut update = PresenceUpdate::new();
    for e in entries {
        update.put(Presence::new(*e)?)?;
    }
    Ok(update)
}

#[test]
fn a_presence_update_is_written_as_awareness(rt: HostRuntime) -> Result<(), Fail> {
    let null = PresenceEntry {
        client: 7,
        clock: 3,
        state: None,
    };
    let table: [(&[PresenceEntry], &[u8]); 3] = [
        (&[live(7, 3, b"\"in\"")], b"\x01\x08\x01\x07\x03\x04\"in\""),
        (&[null], b"\x01\x08\x01\x07\x03\x04null"),
        // ascending, and a later entry in the place of an earlier one
        (
            &[live(9, 1, b"1"), live(7, 1, b"2"), live(9, 2, b"3")],
            b"\x01\x09\x02\x07\x01\x012\x09\x02\x013",
        ),
    ];
    for (entries, bytes) in table {
        check_written(&rt, &update_of(entries)?, bytes)?;
    }
    Ok(())
}

#[test]
fn a_65th_client_is_refused(rt: HostRuntime) -> Result<(), Fail> {
    let mut update = PresenceUpdate::new();
    for client in 0..64u64 {
        update.put(Presence::new(live(client, 1, b"1"))?)?;
    }
    let another = Presence::new(live(64, 1, b"1"))?;
    assert_eq!(rt; update.put(another), Err(WireFault::TooManyEntries));
    assert_eq!(rt; update.entries().len(), 64);
    let known = Presence::new(live(63, 2, b"1"))?;
    assert_eq!(rt; update.put(known), Ok(()));
    Ok(())
}

// The fault that an entry is refused with.
fn refusal(client: u64, text: &[u8]) -> Option<WireFault> {
    Presence::new(live(client, 1, text)).err()
}

#[test]
fn a_presence_is_judged_when_it_is_made(rt: HostRuntime) {
    let id = 9007199254740992;
    let long = [b'1'; 257];
    let table: [(u64, &[u8], Option<WireFault>); 4] = [
        (id, b"1", Some(WireFault::InvalidClientId)),
        (7, &long, Some(WireFault::TextTooLong)),
        (id, &long, Some(WireFault::InvalidClientId)),
        (id - 1, &long[..256], None),
    ];
    for (client, text, fault) in table {
        assert_eq!(rt; refusal(client, text), fault);
    }
}

#[test]
fn a_reason_is_judged_before_there_is_room(rt: HostRuntime) {
    let mut none = [0u8; 0];
    assert_eq!(rt;
        write(&Draft::AuthDenied(b"\xff"), &mut none),
        Err(WriteFault::Wire(WireFault::UnexpectedValue))
    );
    assert_eq!(rt;
        write(&Draft::AuthDenied(b"a"), &mut none),
        Err(WriteFault::Short)
    );
}

// The two that do not read back as they were: a custom tag with a meaning of its own, and a live text that spells null.
#[test]
fn two_read_back_as_others(rt: HostRuntime) -> Result<(), Fail> {
    check_written(&rt, &Draft::Custom(3, b""), b"\x03\x00")?;
    let Next::Whole(Message::AwarenessQuery, rest) = read_next(b"\x03\x00") else {
        return Err(Fail::new("a query"));
    };
    assert_eq!(rt; rest, [0].as_slice());
    let spelt = update_of(&[live(7, 3, b"null")])?;
    check_written(&rt, &spelt, b"\x01\x08\x01\x07\x03\x04null")?;
    let (e, _) = PresenceEntry::read(b"\x07\x03\x04null")?;
    assert!(rt; e.state.is_none());
    Ok(())
}

// Of an update with one entry that entry, and of any other bytes none.
#[test]
fn a_single_entry_is_read(rt: HostRuntime) {
    let table: [(&[u8], Option<(u64, u32)>); 6] = [
        (b"\x01\x07\x03\x011", Some((7, 3))),
        (b"\x01\x07\x03\x011\xff", Some((7, 3))),
        (b"\x00", None),
        (b"\x02\x07\x03\x011\x08\x01\x012", None),
        (b"\x01\x07\x03\x021", None),
        (b"", None),
    ];
    for (update, entry) in table {
        let single = ArrivedEntry::single(update).map(|e| (e.client(), e.clock()));
        assert_eq!(rt; single, entry);
    }
}
