// Examples of the readers and writers, at the edges of each rule.
ghost use Rattle.std.specs.Prelude.{ℕ, ◌^◌, ◌-◌, nat_lt};
ghost use Rattle.encoding.specs.VarUint.{var_uint};
ghost use Rattle.encoding.specs.Writing.{shortest};

use crate::entries::{Decode, Entries, Layout, check_counted, pass_entries, skip_entries};
use crate::entries_out::{Choice, Chosen, Entry};
use crate::fault::WireFault;
use crate::read::*;
use crate::sink::{BufferTooShort, Filler, Sink};
use crate::utf8::is_text;
use crate::var_uint::*;
use crate::write::{write_buf, write_var};
use std::test::Fail;

// What was read, or the fault, and how many bytes are left.
fn told<T>(r: Result<(T, &[u8]), WireFault>) -> Result<(T, usize), WireFault> {
    r.map(|(x, rest)| (x, rest.len()))
}

#[test]
fn numbers_end_below_128(rt: HostRuntime) -> Result<(), Fail> {
    assert_eq!(rt;
        told(read_var::<u8>(&[0x80, 0x00]))?,
        (0, 0),
        "an overlong 0"
    );
    assert_eq!(rt;
        told(read_var::<u32>(&[0xff, 0xff, 0xff, 0xff, 0x0f]))?,
        (4294967295, 0)
    );
    assert_eq!(rt; told(read_var::<u8>(&[0xff, 0x01, 0x07]))?, (255, 1));
    assert_eq!(rt;
        told(read_var::<u64>(&[0xff, 0xff, 0xff, 0xff, 0xff, 0xff, 0xff, 0xff, 0xff, 0x01]))?,
        (u64::MAX, 0)
    );
    Ok(())
}

#[test]
fn numbers_past_their_width_are_refused(rt: HostRuntime) {
    assert_eq!(rt;
        told(read_var::<u32>(&[0x80, 0x80, 0x80, 0x80, 0x10])),
        Err(WireFault::InvalidVarInt)
    );
    assert_eq!(rt;
        told(read_var::<u8>(&[0x80, 0x02])),
        Err(WireFault::InvalidVarInt)
    );
    assert_eq!(rt;
        told(read_var::<u64>(&[0xff, 0xff, 0xff, 0xff, 0xff, 0xff, 0xff, 0xff, 0xff, 0x02])),
        Err(WireFault::InvalidVarInt)
    );
}

#[test]
fn numbers_that_go_on_are_cut_or_refused(rt: HostRuntime) {
    assert_eq!(rt;
        told(read_var::<u64>(&[0x80; 9])),
        Err(WireFault::EndOfBuffer)
    );
    assert_eq!(rt;
        told(read_var::<u64>(&[0x80; 10])),
        Err(WireFault::InvalidVarInt),
        "a tenth byte that goes on"
    );
    assert_eq!(rt; told(read_var::<u64>(&[])), Err(WireFault::EndOfBuffer));
}

#[test]
fn client_ids_are_below_2_to_the_53(rt: HostRuntime) -> Result<(), Fail> {
    let largest: [u8; 8] = [0xff, 0xff, 0xff, 0xff, 0xff, 0xff, 0xff, 0x0f];
    let next: [u8; 8] = [0x80, 0x80, 0x80, 0x80, 0x80, 0x80, 0x80, 0x10];
    assert_eq!(rt; told(read_client_id(&largest))?, (9007199254740991, 0));
    assert_eq!(rt;
        told(read_client_id(&next)),
        Err(WireFault::InvalidClientId)
    );
    Ok(())
}

#[test]
fn counts_go_to_64(rt: HostRuntime) -> Result<(), Fail> {
    assert_eq!(rt; told(read_count::<u32>(&[64]))?, (64, 0));
    assert_eq!(rt;
        told(read_count::<u64>(&[65])),
        Err(WireFault::TooManyEntries)
    );
    assert_eq!(rt;
        told(read_count::<u32>(&[0x80, 0x80, 0x80, 0x80, 0x10])),
        Err(WireFault::InvalidVarInt),
        "32 bits"
    );
    assert_eq!(rt;
        told(read_count::<u64>(&[0x80, 0x80, 0x80, 0x80, 0x10])),
        Err(WireFault::TooManyEntries),
        "64 bits"
    );
    Ok(())
}

// The first and the last character of each row of the table, and what lies just outside.
#[test]
fn texts_by_their_lead_bytes(rt: HostRuntime) {
    let good: [&[u8]; 16] = [
        b"\x00",
        b"\x7f",
        b"\xc2\x80",
        b"\xdf\xbf",
        b"\xe0\xa0\x80",
        b"\xe0\xbf\xbf",
        b"\xe1\x80\x80",
        b"\xec\xbf\xbf",
        b"\xed\x80\x80",
        b"\xed\x9f\xbf",
        b"\xee\x80\x80",
        b"\xef\xbf\xbf",
        b"\xf0\x90\x80\x80",
        b"\xf3\xbf\xbf\xbf",
        b"\xf4\x80\x80\x80",
        b"\xf4\x8f\xbf\xbf",
    ];
    for text in good {
        assert!(rt; is_text(text));
    }
    let bad: [&[u8]; 14] = [
        b"\x80",
        b"\xc0\x80",
        b"\xc1\xbf",
        b"\xc2",
        b"\xc2\x7f",
        b"\xe0\x9f\xbf",
        b"\xed\xa0\x80",
        b"\xed\xbf\xbf",
        b"\xe1\x80",
        b"\xf0\x8f\xbf\xbf",
        b"\xf4\x90\x80\x80",
        b"\xf5\x80\x80\x80",
        b"\xff",
        b"\xe2\x82\xac\xac",
    ];
    for text in bad {
        assert!(rt; !is_text(text));
    }
}

// What stands far behind in a text is looked at too.
#[test]
fn texts_longer_than_a_block(rt: HostRuntime) {
    let mut text = [b'a'; 100];
    assert!(rt; is_text(&text));
    text[98] = 0xc3;
    text[99] = 0xa9;
    assert!(rt; is_text(&text));
    text[40] = 0xff;
    assert!(rt; !is_text(&text));
}

#[test]
fn presence_texts_meet_utf8_before_length(rt: HostRuntime) -> Result<(), Fail> {
    let mut text = [b'1'; 257];
    assert_eq!(rt; check_presence_text(&text[0..256]), Ok(()));
    assert_eq!(rt; check_presence_text(&text), Err(WireFault::TextTooLong));
    text[200] = 0xff;
    assert_eq!(rt;
        check_presence_text(&text),
        Err(WireFault::UnexpectedValue),
        "too long and not UTF-8"
    );
    assert_eq!(rt;
        read_presence_text(&[0x81, 0x02, 0xff]).err(),
        Some(WireFault::EndOfBuffer),
        "too long and cut"
    );
    Ok(())
}

// A presence text may be no JSON.
const NO_JSON: [&[u8]; 4] = [b"", b"a", b"nul", b"\"in"];

#[test]
fn presence_texts_are_not_looked_into(rt: HostRuntime) {
    for text in NO_JSON {
        assert_eq!(rt; check_presence_text(text), Ok(()));
    }
}

#[test]
fn buffers_and_their_lengths(rt: HostRuntime) -> Result<(), Fail> {
    let (part, rest) = read_buf(&[2, 7, 8, 9])?;
    assert_eq!(rt; part, [7, 8].as_slice());
    assert_eq!(rt; rest, [9].as_slice());
    assert_eq!(rt;
        read_buf(&[3, 7, 8]).err(),
        Some(WireFault::EndOfBuffer),
        "a buffer that is cut"
    );
    Ok(())
}

#[test]
fn numbers_are_written_in_their_shortest_spelling(rt: HostRuntime) -> Result<(), Fail> {
    let table: [(u64, &[u8]); 5] = [
        (0, b"\x00"),
        (127, b"\x7f"),
        (128, b"\x80\x01"),
        (300, b"\xac\x02"),
        (u64::MAX, b"\xff\xff\xff\xff\xff\xff\xff\xff\xff\x01"),
    ];
    for (n, bytes) in table {
        let mut out = [0xee; 10];
        let mut filler = Filler {
            out: &mut out,
            at: 0,
        };
        write_var(&mut filler, n)?;
        let end = filler.at;
        assert_eq!(rt; out.get(0..end), Some(bytes));
    }
    Ok(())
}

// The answer to a buffer of two bytes, written from a place on, and what then stands in the four bytes.
fn two_from(at: usize) -> (Result<(), BufferTooShort>, [u8; 4]) {
    let mut out = [0xee; 4];
    let mut filler = Filler { out: &mut out, at };
    let answer = write_buf(&mut filler, &[7, 8]);
    (answer, out)
}

#[test]
fn buffers_go_in_whole_or_not_at_all(rt: HostRuntime) {
    assert_eq!(rt; two_from(1), (Ok(()), [0xee, 2, 7, 8]));
    assert_eq!(rt;
        two_from(2),
        (Err(BufferTooShort), [0xee; 4]),
        "one byte too short"
    );
}

// An entry of eight bits.
#[derive(Clone, Copy, Debug, PartialEq, Eq)]
struct Small(u8);

impl<'a> Decode<'a> for Small {
    ghost item = { ℕ };

    ghost says = { λ e. e.0 };

    ghost entry = { var_uint (2 ^ 8 - 1) };

    // A number.
    fn read(s: &'a [u8]) -> Result<(Small, &'a [u8]), WireFault> {
        let (n, rest) = read_var(s)?;
        Ok((Small(n), rest))
    }
}

// Entries of eight bits that are passed over.
struct Passed;

impl Layout for Passed {
    ghost item = { ℕ };

    ghost entry = { var_uint (2 ^ 8 - 1) };

    // The bytes after a number.
    fn skip(s: &[u8]) -> Result<&[u8], WireFault> {
        let (_n, rest) = read_var::<u8>(s)?;
        Ok(rest)
    }
}

impl Entry for Small {
    ghost out = { λ e. shortest e.0 };

    // Its number.
    fn write<S: Sink>(&self, sink: &mut S) -> Result<(), BufferTooShort> {
        write_var(sink, self.0)
    }
}

// Entries below a number.
struct Below(u8);

impl Choice<Small> for Below {
    ghost takes = { λ c e. nat_lt e.0 c.0 };

    // Whether it is below.
    fn takes_entry(&self, e: &Small) -> bool {
        e.0 < self.0
    }
}

#[test]
fn entries_are_read_one_after_another(rt: HostRuntime) -> Result<(), Fail> {
    let bytes = [7, 0xff, 0x01, 9];
    let mut walk = Entries::<Small>::new(&bytes, 4);
    assert_eq!(rt; walk.next(), Some(Ok(Small(7))));
    assert_eq!(rt; walk.next(), Some(Ok(Small(255))));
    assert_eq!(rt; walk.next(), Some(Ok(Small(9))));
    assert_eq!(rt; walk.next(), Some(Err(WireFault::EndOfBuffer)));
    assert_eq!(rt; walk.next(), None);
    assert_eq!(rt; check_counted::<u8, Small>(&[3, 7, 0xff, 0x01, 9]), Ok(()));
    assert_eq!(rt;
        check_counted::<u8, Small>(&[4, 7, 0xff, 0x01, 9]),
        Err(WireFault::EndOfBuffer)
    );
    let rest = skip_entries::<Small>(&bytes, 2)?;
    assert_eq!(rt; rest, [9].as_slice());
    Ok(())
}

#[test]
fn entries_are_passed_unread(rt: HostRuntime) -> Result<(), Fail> {
    let bytes = [7, 0xff, 0x01, 9];
    let whole = pass_entries::<Passed>(&bytes, 0)?;
    assert_eq!(rt; whole, bytes.as_slice());
    let rest = pass_entries::<Passed>(&bytes, 2)?;
    assert_eq!(rt; rest, [9].as_slice());
    assert_eq!(rt;
        pass_entries::<Passed>(&bytes, 4).err(),
        Some(WireFault::EndOfBuffer)
    );
    assert_eq!(rt;
        pass_entries::<Passed>(&[7, 0x80, 0x02, 9], 3).err(),
        Some(WireFault::InvalidVarInt)
    );
    Ok(())
}

#[test]
fn chosen_entries_are_written_with_their_count(rt: HostRuntime) -> Result<(), Fail> {
    let entries = [Small(200), Small(3), Small(4)];
    let mut out = [0xee; 6];
    assert_eq!(rt; Chosen::by(&entries, &Below(100)).count(), 2);
    assert_eq!(rt; Chosen::by(&entries, &Below(100)).fill(&mut out, 1)?, 3);
    assert_eq!(rt; out, [0xee, 2, 3, 4, 0xee, 0xee]);
    assert_eq!(rt; Chosen::all(&entries).measure()?, 5);
    assert_eq!(rt;
        Chosen::all(&entries).fill(&mut out, 2),
        Err(BufferTooShort)
    );
    assert_eq!(rt; Chosen::all(&entries).fill(&mut out, 1)?, 5);
    assert_eq!(rt; out, [0xee, 3, 0xc8, 0x01, 3, 4]);
    Ok(())
}
