// Examples of a slot board: what it sends, what it takes, and each refusal with what it left.
use crate::slot_board::SlotBoard;
use document::fault::DocumentFault;
use document::host::DocumentHost;
use encoding::fault::WireFault;
use encoding::sink::BufferTooShort;
use state_vector::keyed::Keyed;
use state_vector::vector::{StateVector, VectorEntry};
use std::test::Fail;

// A vector that knows one client, up to a clock.
fn knows(client: u64, clock: u32) -> Result<StateVector, Fail> {
    let mut v = StateVector::new();
    v.put(VectorEntry { client, clock })?;
    Ok(v)
}

// Slot 5 at clock 2 with the byte 61, for whoever knows client 5 up to 2 or to 3.
#[test]
fn sends_what_a_vector_may_lack(rt: HostRuntime) -> Result<(), Fail> {
    let mut board = SlotBoard::new();
    board.take(b"\x01\x05\x02\x01\x61")?;
    let mut out = [0xee; 6];
    assert_eq!(rt; board.update_len(&knows(5, 2)?), 5);
    let len = board.update(&knows(5, 2)?, &mut out)?;
    assert_eq!(rt; len, 5, "an equal clock is sent");
    assert_eq!(rt; out, *b"\x01\x05\x02\x01\x61\xee");
    assert_eq!(rt; board.update(&knows(5, 3)?, &mut out)?, 1);
    assert_eq!(rt; board.vector().entries(), knows(5, 2)?.entries());
    Ok(())
}

// A slice that is one byte too short stays as it is.
#[test]
fn writes_nothing_into_too_short_a_slice(rt: HostRuntime) -> Result<(), Fail> {
    let mut board = SlotBoard::new();
    board.take(b"\x01\x05\x02\x01\x61")?;
    let mut out = [0xee; 4];
    assert_eq!(rt;
        board.update(&StateVector::new(), &mut out),
        Err(BufferTooShort)
    );
    assert_eq!(rt; out, [0xee; 4]);
    Ok(())
}

// The bytes of client 5's slot on a board that took an update.
fn bytes_of_5(update: &[u8], rt: &HostRuntime) -> Result<Vec<u8>, Fail> {
    let mut board = SlotBoard::new();
    board.take(update)?;
    let mut bytes = Vec::new(rt.alloc());
    for slot in board.slots().iter().filter(|s| s.client() == 5) {
        bytes.extend_from_slice(slot.bytes())?;
    }
    Ok(bytes)
}

// Of a client's several slots the one that stands highest is kept: by the clock, then by byte order, where a prefix is earlier.
#[test]
fn keeps_what_stands_highest(rt: HostRuntime) -> Result<(), Fail> {
    let table: [(&[u8], &[u8]); 5] = [
        (b"\x02\x05\x02\x01b\x05\x03\x01a", b"a"),
        (b"\x02\x05\x03\x01a\x05\x02\x01b", b"a"),
        (b"\x02\x05\x02\x02ab\x05\x02\x01b", b"b"),
        (b"\x02\x05\x02\x01a\x05\x02\x02ab", b"ab"),
        (b"\x02\x05\x02\x02ab\x05\x02\x01a", b"ab"),
    ];
    for (update, kept) in table {
        assert_eq!(rt; bytes_of_5(update, &rt)?.as_slice(), kept);
    }
    Ok(())
}

// Each way to be unreadable, with its number; the board stays as it was. A clock of 0 is told before what is missing after it.
#[test]
fn refuses_what_is_no_update(rt: HostRuntime) -> Result<(), Fail> {
    let mut board = SlotBoard::new();
    board.take(b"\x01\x05\x02\x01\x61")?;
    let mut long = [0u8; 37];
    long[..4].copy_from_slice(b"\x01\x05\x03\x21");
    let table: [(&[u8], WireFault, u8); 7] = [
        (b"\x01\x05\xff\xff\xff\xff\x10", WireFault::InvalidVarInt, 1),
        (b"\x01\x05\x03\x01", WireFault::EndOfBuffer, 2),
        (b"\x01\x05\x03\x00\x00", WireFault::UnexpectedValue, 3),
        (b"\x01\x05\x00", WireFault::UnexpectedValue, 3),
        (
            b"\x01\x80\x80\x80\x80\x80\x80\x80\x10\x01\x00",
            WireFault::InvalidClientId,
            4,
        ),
        (b"\x41", WireFault::TooManyEntries, 5),
        (&long, WireFault::TextTooLong, 6),
    ];
    for (bytes, fault, number) in table {
        let refusal = DocumentFault::Unreadable(fault);
        assert_eq!(rt; board.take(bytes), Err(refusal));
        assert_eq!(rt; (refusal.number(), fault.number()), (12, number));
        assert_eq!(rt; board.vector().entries(), knows(5, 2)?.entries());
    }
    Ok(())
}

// A 17th client is too much, whatever else comes with it; one of the 16 is not.
#[test]
fn refuses_a_17th_client(rt: HostRuntime) -> Result<(), Fail> {
    let mut board = SlotBoard::new();
    for client in 0u8..16 {
        board.take(&[1, client, 1, 0])?;
    }
    assert_eq!(rt;
        board.take(&[2, 5, 9, 0, 16, 1, 0]),
        Err(DocumentFault::TooLarge)
    );
    assert_eq!(rt; DocumentFault::TooLarge.number(), 13);
    assert_eq!(rt; board.vector().get(5), Some(1));
    board.take(&[1, 5, 9, 0])?;
    assert_eq!(rt; board.vector().get(5), Some(9));
    Ok(())
}
