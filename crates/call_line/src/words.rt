// Words of a line, and the numbers that they spell.
ghost use Rattle.std.specs.Prelude.{◌≡◌};
ghost use Rattle.std.specs.Char.{is_ascii_whitespace};
ghost use Rattle.std.specs.Str.{bytes_eq};
ghost use Rattle.std.specs.List.{before_first, after_first};
ghost use Rattle.call_line.specs.declared.fault.LineFault.TheVariants.{NotANumber};
ghost use Rattle.call_line.specs.Words.{begun, trimmed, number, numbered};

use crate::fault::LineFault;

// A line without the blanks at its ends.
pub fn trim(line: &[u8]) -> &[u8]
    ensures { result.now ≡ trimmed line.now }
{
    line.trim_ascii()
}

// A line up to its first blank, and what follows that.
#[tactic(auto, using(crate::proofs::Cutting::cutting))]
fn cut_at_blank(line: &[u8]) -> (&[u8], &[u8])
    ensures word { result.0.now ≡ before_first is_ascii_whitespace line.now }
    ensures rest { result.1.now ≡ after_first is_ascii_whitespace line.now }
{
    match line.iter().position(|c| c.is_ascii_whitespace()) {
        Some(i) => (&line[..i], &line[i + 1..]),
        None => (line, &[]),
    }
}

// The first word of a line, up to a blank, and what follows it without the blanks between.
#[tactic(auto, using(crate::proofs::Cutting::cutting))]
pub fn cut_word(line: &[u8]) -> (&[u8], &[u8])
    ensures word { result.0.now ≡ before_first is_ascii_whitespace line.now }
    ensures rest { result.1.now ≡ begun (after_first is_ascii_whitespace line.now) }
{
    let (word, rest) = cut_at_blank(line);
    (word, rest.trim_ascii_start())
}

// Whether a word is this one. By hand, since a match on bytes compares them one by one, and a long list of names is then a proof of its own.
pub(crate) fn is(word: &[u8], name: &str) -> bool
    ensures { result ≡ bytes_eq word.now name.now }
{
    word == name.as_bytes()
}

// The number of 64 bits that digits spell.
#[tactic(auto, using(crate::proofs::Cutting::digits))]
fn parse_digits(word: &[u8]) -> Option<u64>
    ensures { result ≡ number word.now }
{
    if word.is_empty() {
        return None;
    }
    let mut value = 0u64;
    for c in word {
        let digit = match *c {
            c @ b'0'..=b'9' => c - b'0',
            _ => return None,
        };
        value = value.checked_mul(10)?.checked_add(u64::from(digit))?;
    }
    Some(value)
}

// A decimal number of 64 bits: digits alone, at least one.
pub fn read_number(word: &[u8]) -> Result<u64, LineFault>
    ensures { result ≡ numbered word.now }
{
    parse_digits(word).ok_or(LineFault::NotANumber)
}
