// Examples of a count board: what it sends, what it takes, and each refusal with what it left.
use crate::count_board::CountBoard;
use document::fault::DocumentFault;
use document::host::DocumentHost;
use encoding::fault::WireFault;
use encoding::sink::BufferTooShort;
use state_vector::vector::{StateVector, VectorEntry};
use std::test::Fail;

// A vector that knows one client, up to a clock.
fn knows(client: u64, clock: u32) -> Result<StateVector, Fail> {
    let mut v = StateVector::new();
    v.put(VectorEntry { client, clock })?;
    Ok(v)
}

// Counts 5:301 and 9:2, for whoever knows client 5 up to 300 or to 301.
#[test]
fn sends_what_a_vector_lacks(rt: HostRuntime) -> Result<(), Fail> {
    let mut board = CountBoard::new();
    board.take(b"\x02\x09\x02\x05\xad\x02")?;
    let mut out = [0xee; 8];
    assert_eq!(rt; board.update_len(&knows(5, 300)?), 6);
    assert_eq!(rt; board.update(&knows(5, 300)?, &mut out)?, 6);
    assert_eq!(rt; out, *b"\x02\x05\xad\x02\x09\x02\xee\xee");
    let len = board.update(&knows(5, 301)?, &mut out)?;
    assert_eq!(rt; len, 3, "an equal count is not sent");
    Ok(())
}

// A slice that is one byte too short stays as it is.
#[test]
fn writes_nothing_into_too_short_a_slice(rt: HostRuntime) -> Result<(), Fail> {
    let mut board = CountBoard::new();
    board.take(b"\x02\x09\x02\x05\xad\x02")?;
    let mut out = [0xee; 5];
    assert_eq!(rt;
        board.update(&StateVector::new(), &mut out),
        Err(BufferTooShort)
    );
    assert_eq!(rt; out, [0xee; 5]);
    Ok(())
}

// A count of 0 is as if absent, and of a client's several counts the greatest holds.
#[test]
fn reads_updates(rt: HostRuntime) -> Result<(), Fail> {
    let mut board = CountBoard::new();
    board.take(b"\x03\x05\x02\x07\x00\x05\x01")?;
    assert_eq!(rt; board.vector().entries(), knows(5, 2)?.entries());
    Ok(())
}

// Each way to be unreadable, with its number; the board stays as it was.
#[test]
fn refuses_what_is_no_update(rt: HostRuntime) -> Result<(), Fail> {
    let mut board = CountBoard::new();
    board.take(b"\x01\x05\x02")?;
    let table: [(&[u8], WireFault, u8); 5] = [
        (b"\x01\x05\xff\xff\xff\xff\x10", WireFault::InvalidVarInt, 1),
        (b"\x01\x05", WireFault::EndOfBuffer, 2),
        (b"\x01\x05\x03\x00", WireFault::UnexpectedValue, 3),
        (
            b"\x01\x80\x80\x80\x80\x80\x80\x80\x10\x01",
            WireFault::InvalidClientId,
            4,
        ),
        (b"\x41", WireFault::TooManyEntries, 5),
    ];
    for (bytes, fault, number) in table {
        let refusal = DocumentFault::Unreadable(fault);
        assert_eq!(rt; board.take(bytes), Err(refusal));
        assert_eq!(rt; (refusal.number(), fault.number()), (12, number));
        assert_eq!(rt; board.vector().entries(), knows(5, 2)?.entries());
    }
    Ok(())
}

// A 65th client is too much, whatever else comes with it; one of the 64 is not.
#[test]
fn refuses_a_65th_client(rt: HostRuntime) -> Result<(), Fail> {
    let mut board = CountBoard::new();
    for client in 0u8..64 {
        board.take(&[1, client, 1])?;
    }
    assert_eq!(rt; board.take(&[2, 5, 9, 64, 1]), Err(DocumentFault::TooLarge));
    assert_eq!(rt; DocumentFault::TooLarge.number(), 13);
    assert_eq!(rt; board.vector().get(5), Some(1));
    board.take(&[1, 5, 9])?;
    assert_eq!(rt; board.vector().get(5), Some(9));
    Ok(())
}

// A board is copied by value: what it takes afterwards, the copy does not.
#[test]
fn is_copied(rt: HostRuntime) -> Result<(), Fail> {
    let mut board = CountBoard::new();
    board.take(b"\x01\x05\x02")?;
    let held = board;
    board.take(b"\x01\x05\x09")?;
    assert_eq!(rt; held.vector().entries(), knows(5, 2)?.entries());
    assert_eq!(rt; board.vector().entries(), knows(5, 9)?.entries());
    Ok(())
}
