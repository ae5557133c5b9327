// Lines of hexadecimal bytes: a reader that tells each fault's column, and a writer.
#![tactic(auto)]

ghost use Rattle.std.specs.Prelude.{◌≡◌, ℕ, ◌*◌, ◌<◌, ◌≤◌, true, length, List, IfOk, Some, Ok, vec_items, string_bytes};
ghost use Rattle.std.specs.Fmt.{digit_glyph};
ghost use Rattle.hexadecimal.specs.declared.HexFault.TheVariants.{Memory};
ghost use Rattle.hexadecimal.specs.Line.{sign_of, hex_line, Spells, Answered};
ghost use Rattle.hexadecimal.specs.Text.{fault_text, spaced, written};

use std::alloc::{AllocError, AllocFailed, Global};
use std::error::Error;
use std::{fmt, str};

pub mod input;
pub mod lines;
pub mod shown;

// Why a line is no row of bytes; a column is counted from 1.
#[derive(Clone, Copy, Debug, PartialEq, Eq)]
pub enum HexFault {
    // A character that is neither a digit nor a blank, at its column.
    NotADigit(usize),
    // A first digit that no second digit follows, at its column.
    HalfByte(usize),
    // There is not memory enough for the bytes.
    Memory,
}

// These impls are written by hand: a derive states neither the fault that a `?` makes nor the text, and the clauses need both.
impl Error for HexFault {}

impl From<AllocError> for HexFault {
    ghost from_gives = { λ _ r. r ≡ Memory };

    // An allocation that found no memory.
    fn from(_e: AllocError) -> HexFault {
        HexFault::Memory
    }
}

impl<T: Drop> From<AllocFailed<T>> for HexFault {
    ghost from_gives = { λ _ r. r ≡ Memory };

    // A value that found no memory.
    fn from(_e: AllocFailed<T>) -> HexFault {
        HexFault::Memory
    }
}

impl fmt::Display for HexFault {
    ghost output = { λ fault. Some (fault_text fault) };

    // The fault in words, with its column.
    fn fmt<W: fmt::Write>(&self, f: &mut fmt::Formatter<W>) -> fmt::Result {
        match *self {
            HexFault::NotADigit(column) => write!(f, "column {column}: not a hexadecimal digit"),
            HexFault::HalfByte(column) => write!(f, "column {column}: half a byte"),
            HexFault::Memory => write!(f, "not enough memory"),
        }
    }
}

// What a character of a line is.
#[derive(Clone, Copy)]
enum Sign {
    Blank,
    Comment,
    Digit(u8),
    Other,
}

impl From<u8> for Sign {
    ghost from_gives = { λ c sign. sign ≡ sign_of c };

    // Tells blanks, the start of a comment and digits of either case apart.
    #[tactic(auto, unfolding(crate::specs::Line::sign_of))]
    fn from(c: u8) -> Sign {
        match c {
            b' ' | b'\t' | b'\r' => Sign::Blank,
            b'#' => Sign::Comment,
            _ => match char::from(c).to_digit(16) {
                Some(digit) => Sign::Digit(digit as u8),
                None => Sign::Other,
            },
        }
    }
}

// The bytes of a line, or its first fault.
#[tactic(auto, using(crate::proofs::Steps::reading))]
pub fn parse_line(heap: Global, line: &[u8]) -> Result<Vec<u8>, HexFault>
    ensures reads { Answered vec_items result (hex_line line.now) }
    ensures spells { IfOk result (λ v. Spells line.now v.items) }
    ensures accepts { (bs : List ℕ) → Spells line.now bs → Answered vec_items result (Ok bs) }
{
    let mut bytes = Vec::new(heap);
    let mut half = None;
    for (i, c) in line.iter().enumerate() {
        half = match (Sign::from(*c), half) {
            (Sign::Blank, None) => None,
            (Sign::Comment, None) => return Ok(bytes),
            (Sign::Digit(first), None) => Some(first),
            (Sign::Digit(second), Some(first)) => {
                bytes.push(16 * first + second)?;
                None
            }
            // The digit before this character stands at column `i`.
            (Sign::Blank | Sign::Comment, Some(_)) => return Err(HexFault::HalfByte(i)),
            (Sign::Other, _) => return Err(HexFault::NotADigit(i + 1)),
        };
    }
    match half {
        None => Ok(bytes),
        Some(_) => Err(HexFault::HalfByte(line.len())),
    }
}

// The upper-case digit of a value below 16.
fn digit(d: u8) -> u8
    requires { d < 16 }
    ensures { result ≡ digit_glyph true d }
{
    if d < 10 { b'0' + d } else { b'A' + (d - 10) }
}

// How many bytes are spelt at a time.
const BLOCK: usize = 32;

// Bytes as text, a space and two digits for each, written at the front of a row that the caller lends and that has room.
fn spell<'t>(bytes: &[u8], text: &'t mut [u8]) -> &'t str
    requires { 3 * length bytes.now ≤ length text.old }
    ensures { result.now ≡ spaced bytes.now }
{
    for (i, &b) in bytes.iter().enumerate() {
        text[3 * i] = b' ';
        text[3 * i + 1] = digit(b / 16);
        text[3 * i + 2] = digit(b % 16);
    }
    str::from_utf8(&text[0..3 * bytes.len()]).unwrap()
}

// Bytes, printed in upper-case digits with one space between two bytes.
#[derive(Clone, Copy, Debug)]
pub struct Hex<'a>(pub &'a [u8]);

impl fmt::Display for Hex<'_> {
    ghost output = { λ hex. Some (written hex.0.now) };

    // Two digits for each byte, and a space before each byte but the first; a block of bytes at a time, which is quicker than each by itself.
    fn fmt<W: fmt::Write>(&self, f: &mut fmt::Formatter<W>) -> fmt::Result {
        if let &[first, ref rest @ ..] = self.0 {
            let text = [digit(first / 16), digit(first % 16)];
            f.write_str(str::from_utf8(&text).unwrap())?;
            let mut text = [0; 3 * BLOCK];
            for part in rest.chunks(BLOCK) {
                f.write_str(spell(part, &mut text))?;
            }
        }
        Ok(())
    }
}

// What is written of bytes, wherever it is printed, spells these bytes: a law, which does nothing.
#[tactic(auto, using(crate::proofs::Texts::written_spells))]
pub fn written_is_spelt(bytes: &[u8])
    ensures { Spells (written bytes.now) bytes.now }
{
    let _bytes = bytes;
}

// The bytes as text, which reads back as these bytes.
#[tactic(auto, using(crate::proofs::Texts::written_spells))]
pub fn write_hex(heap: Global, bytes: &[u8]) -> Result<String, AllocError>
    ensures text { IfOk result (λ t. string_bytes t ≡ written bytes.now) }
    ensures spells { IfOk result (λ t. Spells (string_bytes t) bytes.now) }
{
    Hex(bytes).to_string(heap)
}

#[cfg(test)]
mod tests {
    use super::*;
    use std::test::Fail;

    // Each line answers the bytes beside it.
    #[test]
    fn reads_lines(rt: HostRuntime) -> Result<(), Fail> {
        let heap = rt.alloc();
        let table: [(&[u8], &[u8]); 5] = [
            (b"", b""),
            (b"# only a comment", b""),
            (b" \t\r", b""),
            (b"0aFf\t7E # tail", b"\x0a\xff\x7e"),
            (b"00 01#02", b"\x00\x01"),
        ];
        for (line, bytes) in table {
            assert_eq!(rt; parse_line(heap, line)?.as_slice(), bytes);
        }
        Ok(())
    }

    // Each line answers the fault beside it.
    #[test]
    fn tells_faults(rt: HostRuntime) {
        let heap = rt.alloc();
        let table: [(&[u8], HexFault); 6] = [
            (b"00 a", HexFault::HalfByte(4)),
            (b"a b", HexFault::HalfByte(1)),
            (b" 12 3# half", HexFault::HalfByte(5)),
            (b"12 g0", HexFault::NotADigit(4)),
            (b"1g", HexFault::NotADigit(2)),
            (b"00\n", HexFault::NotADigit(3)),
        ];
        for (line, fault) in table {
            assert_eq!(rt; parse_line(heap, line).err(), Some(fault));
        }
    }

    // What is written is read back, and faults speak.
    #[test]
    fn writes_lines(rt: HostRuntime) -> Result<(), Fail> {
        let heap = rt.alloc();
        let text = write_hex(heap, b"\x00\xab\x9f")?;
        assert_eq!(rt; text.as_str(), "00 AB 9F");
        assert_eq!(rt;
            parse_line(heap, text.as_bytes())?.as_slice(),
            b"\x00\xab\x9f".as_slice()
        );
        assert_eq!(rt; write_hex(heap, b"")?.as_str(), "");
        let fault = HexFault::HalfByte(12);
        assert_eq!(rt;
            format!(in heap; "{fault}")?.as_str(),
            "column 12: half a byte"
        );
        Ok(())
    }

    // More bytes than are spelt at a time.
    #[test]
    fn writes_long_lines(rt: HostRuntime) -> Result<(), Fail> {
        let heap = rt.alloc();
        let text = write_hex(heap, &[0xf0; 35])?;
        assert_eq!(rt; text.as_str().len(), 104);
        assert_eq!(rt;
            parse_line(heap, text.as_bytes())?.as_slice(),
            [0xf0; 35].as_slice()
        );
        Ok(())
    }
}
