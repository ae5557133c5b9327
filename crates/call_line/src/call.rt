// Which call a line is.
ghost use Rattle.std.specs.Prelude.{◌≡◌, length, ◌==◌, if◌then◌else◌, Ok, Err};
ghost use Rattle.call_line.specs.declared.fault.LineFault.TheVariants.{WordsLeft};
ghost use Rattle.call_line.specs.Calls.{heard_as, shown, clocked, ruled, named, call_of};

use crate::fault::LineFault;
use crate::message::{MessageWords, read_message_words};
use crate::words::{cut_word, is, read_number, trim};

// A board that can be asked for.
#[derive(Clone, Copy, Debug, PartialEq, Eq)]
pub enum Board {
    Count,
    Slot,
}

// A policy that can be asked for.
#[derive(Clone, Copy, Debug, PartialEq, Eq)]
pub enum Rules {
    Default,
    Ranges,
}

// A call; its bytes, texts and lists are parts of the line.
#[derive(Clone, Copy, Debug)]
pub enum Call<'a> {
    // an empty line, or a comment
    Nothing,
    Own(u64),
    Host(Board),
    Policy(Rules),
    Clock(u64),
    ClockStep(u64),
    Room(u64),
    Places(u64),
    Handle(&'a [u8]),
    Apply(&'a [u8]),
    Set(&'a [u8]),
    Clean,
    Remove(u64),
    Step1,
    Start,
    Show(u64),
    List(&'a [u8]),
    Write(MessageWords<'a>),
    Records,
    Document,
    Help,
}

// What stands alone.
pub(crate) fn read_alone<T: Drop>(it: T, rest: &[u8]) -> Result<T, LineFault>
    ensures { result ≡ (if length rest.now == 0 then Ok it else Err WordsLeft) }
{
    if rest.is_empty() {
        Ok(it)
    } else {
        Err(LineFault::WordsLeft)
    }
}

// The document is shown, or one of a board is asked for.
fn read_document(rest: &[u8]) -> Result<Call<'_>, LineFault>
    ensures { heard_as result ≡ shown rest.now }
{
    match rest {
        [] => Ok(Call::Document),
        _ if is(rest, "count") => Ok(Call::Host(Board::Count)),
        _ if is(rest, "slot") => Ok(Call::Host(Board::Slot)),
        _ => Err(LineFault::UnknownWord),
    }
}

// A policy by its name.
fn read_policy(rest: &[u8]) -> Result<Call<'_>, LineFault>
    ensures { heard_as result ≡ ruled rest.now }
{
    match rest {
        _ if is(rest, "default") => Ok(Call::Policy(Rules::Default)),
        _ if is(rest, "ranges") => Ok(Call::Policy(Rules::Ranges)),
        _ => Err(LineFault::UnknownWord),
    }
}

// A reading of a clock that is set, or the first one of a clock that steps.
fn read_clock(rest: &[u8]) -> Result<Call<'_>, LineFault>
    ensures { heard_as result ≡ clocked rest.now }
{
    let (word, first) = cut_word(rest);
    match word {
        _ if is(word, "step") => Ok(Call::ClockStep(read_number(first)?)),
        _ => Ok(Call::Clock(read_number(rest)?)),
    }
}

// A call by its name, and what follows the name.
fn read_named<'a>(name: &[u8], rest: &'a [u8]) -> Result<Call<'a>, LineFault>
    ensures { heard_as result ≡ named name.now rest.now }
{
    match name {
        _ if is(name, "own") => Ok(Call::Own(read_number(rest)?)),
        _ if is(name, "document") => read_document(rest),
        _ if is(name, "policy") => read_policy(rest),
        _ if is(name, "clock") => read_clock(rest),
        _ if is(name, "room") => Ok(Call::Room(read_number(rest)?)),
        _ if is(name, "places") => Ok(Call::Places(read_number(rest)?)),
        _ if is(name, "handle") => Ok(Call::Handle(rest)),
        _ if is(name, "apply") => Ok(Call::Apply(rest)),
        _ if is(name, "set") => Ok(Call::Set(rest)),
        _ if is(name, "clean") => read_alone(Call::Clean, rest),
        _ if is(name, "remove") => Ok(Call::Remove(read_number(rest)?)),
        _ if is(name, "step1") => read_alone(Call::Step1, rest),
        _ if is(name, "start") => read_alone(Call::Start, rest),
        _ if is(name, "show") => Ok(Call::Show(read_number(rest)?)),
        _ if is(name, "list") => Ok(Call::List(rest)),
        _ if is(name, "write") => Ok(Call::Write(read_message_words(rest)?)),
        _ if is(name, "records") => read_alone(Call::Records, rest),
        _ if is(name, "help") => read_alone(Call::Help, rest),
        _ => Err(LineFault::UnknownCall),
    }
}

// The call that a line is: its name, up to a blank, and what follows; blanks at the ends of a line say nothing.
pub fn read_call(line: &[u8]) -> Result<Call<'_>, LineFault>
    ensures { heard_as result ≡ call_of line.now }
{
    let line = trim(line);
    if line.is_empty() || line[0] == b'#' {
        return Ok(Call::Nothing);
    }
    let (name, rest) = cut_word(line);
    read_named(name, rest)
}
