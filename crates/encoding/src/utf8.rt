// UTF-8 (RFC 3629): whether bytes are text.
ghost use Rattle.std.specs.Prelude.{◌≡◌, ◌+◌, ◌<◌, ◌≤◌, length, Decides};
ghost use Rattle.encoding.specs.Utf8.{Text, is_text};

// Fewer bytes than these are quicker one by one.
const FEW: usize = 8;

// So many bytes of a long text are judged together, and the first part with a fault ends the reading.
const PART: usize = 4096;

// Whether the library takes the bytes, at most 64 at once; not too many at a time, since it reads on past a fault.
fn is_utf8(s: &[u8]) -> bool
    ensures { Decides result (Text s.now) }
{
    if s.len() < FEW || PART < s.len() {
        std::str::from_utf8(s).is_ok()
    } else {
        simdutf8::is_utf8(s)
    }
}

// A place one byte before another, where no character begins at that.
fn back(s: &[u8], at: usize) -> usize
    requires { (0 < at) × (at < length s.now) }
    ensures { (result ≤ at) × (at ≤ result + 1) }
{
    if s[at] & 0xc0 == 0x80 { at - 1 } else { at }
}

// What is left of a text when its whole parts are passed: what is not passed has a fault, or is short.
fn past_parts(s: &[u8]) -> &[u8]
    ensures { is_text result.now ≡ is_text s.now }
{
    let mut rest = s;
    while PART < rest.len() {
        let end = back(rest, back(rest, back(rest, PART)));
        let (part, next) = rest.split_at(end);
        if !is_utf8(part) {
            return rest;
        }
        rest = next;
    }
    rest
}

// Whether the bytes are UTF-8.
pub fn is_text(s: &[u8]) -> bool
    ensures test { result ≡ is_text s.now }
    ensures spelt { Decides result (Text s.now) }
{
    is_utf8(past_parts(s))
}
