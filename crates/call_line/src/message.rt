// A message in words.
ghost use Rattle.std.specs.Prelude.{◌≡◌};
ghost use Rattle.call_line.specs.Calls.{told_as, worded, tagged};

use crate::call::read_alone;
use crate::fault::LineFault;
use crate::words::{cut_word, is, read_number};

// A message to be written; its bytes, texts and entries are parts of the line.
#[derive(Clone, Copy, Debug)]
pub enum MessageWords<'a> {
    Step1(&'a [u8]),
    Step2(&'a [u8]),
    Update(&'a [u8]),
    Awareness(&'a [u8]),
    Denied(&'a [u8]),
    Granted,
    Query,
    Custom(u8, &'a [u8]),
}

// A tag of 8 bits, then bytes.
fn read_custom(rest: &[u8]) -> Result<MessageWords<'_>, LineFault>
    ensures { told_as result ≡ tagged rest.now }
{
    let (tag, bytes) = cut_word(rest);
    match u8::try_from(read_number(tag)?) {
        Ok(tag) => Ok(MessageWords::Custom(tag, bytes)),
        Err(_) => Err(LineFault::NotANumber),
    }
}

// A message by the word for its kind, then its parts.
pub(crate) fn read_message_words(line: &[u8]) -> Result<MessageWords<'_>, LineFault>
    ensures { told_as result ≡ worded line.now }
{
    let (kind, rest) = cut_word(line);
    match kind {
        _ if is(kind, "step1") => Ok(MessageWords::Step1(rest)),
        _ if is(kind, "step2") => Ok(MessageWords::Step2(rest)),
        _ if is(kind, "update") => Ok(MessageWords::Update(rest)),
        _ if is(kind, "awareness") => Ok(MessageWords::Awareness(rest)),
        _ if is(kind, "denied") => Ok(MessageWords::Denied(rest)),
        _ if is(kind, "granted") => read_alone(MessageWords::Granted, rest),
        _ if is(kind, "query") => read_alone(MessageWords::Query, rest),
        _ if is(kind, "custom") => read_custom(rest),
        _ => Err(LineFault::UnknownWord),
    }
}
