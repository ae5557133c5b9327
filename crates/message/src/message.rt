// One message: its tag, then its body, whose parts are borrowed from the input.
ghost use Rattle.std.specs.Prelude.{◌≡◌, ◌-◌, ◌^◌};
ghost use Rattle.encoding.specs.Reading.{read_as};
ghost use Rattle.encoding.specs.Fields.{buffer};
ghost use Rattle.message.specs.Message.{means, sync, auth, body, message, contents, ReadAsMade};

use crate::presence::check_presence;
use encoding::fault::WireFault;
use encoding::read::{read_buf, read_string};
use encoding::var_uint::read_var;
use state_vector::vector::check_vector;

// The tags that have a meaning of their own. They are numbers and no enum: a tag that is none of them is custom, and keeps its number.
pub const MSG_SYNC: u8 = 0;

pub const MSG_AWARENESS: u8 = 1;

pub const MSG_AUTH: u8 = 2;

pub const MSG_QUERY_AWARENESS: u8 = 3;

// The kinds of sync messages, as the wire numbers them; the enum below has a name for each.
pub const MSG_SYNC_STEP_1: u8 = 0;

pub const MSG_SYNC_STEP_2: u8 = 1;

pub const MSG_SYNC_UPDATE: u8 = 2;

// The flag of an auth message that denies; every other flag grants.
pub const PERMISSION_DENIED: u8 = 0;

// The flag that is written where access is granted.
pub const PERMISSION_GRANTED: u8 = 1;

// A message, with its payload, reason or data as a part of the received bytes.
#[derive(Clone, Copy, Debug)]
pub enum Message<'a> {
    SyncStep1(&'a [u8]),
    SyncStep2(&'a [u8]),
    Update(&'a [u8]),
    Awareness(&'a [u8]),
    AuthDenied(&'a [u8]),
    AuthGranted,
    AwarenessQuery,
    Custom(u8, &'a [u8]),
}

// A buffer, and the message that is made of it.
fn read_part<'a, F: FnOnce(&'a [u8]) -> Message<'a>>(
    s: &'a [u8],
    make: F,
) -> Result<(Message<'a>, &'a [u8]), WireFault>
    requires { F.IsAlwaysCallable make }
    ensures { ReadAsMade (F.post make) result (buffer s.now) }
{
    let (part, rest) = read_buf(s)?;
    Ok((make(part), rest))
}

// A kind, then a buffer.
fn read_sync(s: &[u8]) -> Result<(Message<'_>, &[u8]), WireFault>
    ensures { read_as means result ≡ sync s.now }
{
    let (kind, rest) = read_var::<u8>(s)?;
    match kind {
        MSG_SYNC_STEP_1 => read_part(rest, Message::SyncStep1),
        MSG_SYNC_STEP_2 => read_part(rest, Message::SyncStep2),
        MSG_SYNC_UPDATE => read_part(rest, Message::Update),
        _ => Err(WireFault::UnexpectedValue),
    }
}

// A flag, and the reason where it denies.
fn read_auth(s: &[u8]) -> Result<(Message<'_>, &[u8]), WireFault>
    ensures { read_as means result ≡ auth s.now }
{
    let (flag, rest) = read_var::<u8>(s)?;
    if flag == PERMISSION_DENIED {
        let (reason, rest) = read_string(rest)?;
        Ok((Message::AuthDenied(reason), rest))
    } else {
        Ok((Message::AuthGranted, rest))
    }
}

// What follows a tag.
fn read_body(tag: u8, s: &[u8]) -> Result<(Message<'_>, &[u8]), WireFault>
    ensures { read_as means result ≡ body tag s.now }
{
    match tag {
        MSG_SYNC => read_sync(s),
        MSG_AWARENESS => read_part(s, Message::Awareness),
        MSG_AUTH => read_auth(s),
        MSG_QUERY_AWARENESS => Ok((Message::AwarenessQuery, s)),
        _ => read_part(s, |part| Message::Custom(tag, part)),
    }
}

// The message that the bytes begin with, and the bytes after it; what its buffer holds is not looked at.
#[tactic(auto, unfolding(crate::specs::Message::message))]
pub fn read_message(s: &[u8]) -> Result<(Message<'_>, &[u8]), WireFault>
    ensures { read_as means result ≡ message s.now }
{
    match s {
        [tag @ 0..=127, rest @ ..] => read_body(*tag, rest),
        _ => {
            let (tag, rest) = read_var::<u8>(s)?;
            read_body(tag, rest)
        }
    }
}

// Whether a step 1 buffer holds a vector, and an awareness buffer a presence update.
pub fn check_contents(m: Message) -> Result<(), WireFault>
    ensures { result ≡ contents (means m.entry) }
{
    match m {
        Message::SyncStep1(part) => check_vector(part),
        Message::Awareness(part) => check_presence(part),
        Message::SyncStep2(_) | Message::Update(_) | Message::AuthDenied(_) => Ok(()),
        Message::AuthGranted | Message::AwarenessQuery | Message::Custom(_, _) => Ok(()),
    }
}
