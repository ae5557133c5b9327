// Examples of lines, and of lines that are no call.
use crate::call::{Board, Call, read_call};
use crate::fault::LineFault;
use crate::message::MessageWords;

#[test]
fn lines_are_calls(rt: HostRuntime) {
    assert!(rt; matches!(read_call(b"own 7"), Ok(Call::Own(7))));
    assert!(rt; matches!(read_call(b" \tclock  step 5\r\n"), Ok(Call::ClockStep(5))));
    assert!(rt; matches!(read_call(b"document slot"), Ok(Call::Host(Board::Slot))));
    assert!(rt; matches!(read_call(b"document"), Ok(Call::Document)));
}

// By a guard, since a pattern of bytes compares them one by one.
#[test]
fn what_follows_a_name_is_kept(rt: HostRuntime) {
    assert!(rt;
        matches!(
            read_call(b"set  \"in and out\" "),
            Ok(Call::Set(text)) if text == b"\"in and out\"".as_slice()
        )
    );
    assert!(rt;
        matches!(
            read_call(b"write custom 200 01 02"),
            Ok(Call::Write(MessageWords::Custom(200, bytes))) if bytes == b"01 02".as_slice()
        )
    );
}

#[test]
fn comments_and_blanks_ask_nothing(rt: HostRuntime) {
    let table: [&[u8]; 3] = [b"# own 7", b"", b" \t\n"];
    for line in table {
        assert!(rt; matches!(read_call(line), Ok(Call::Nothing)));
    }
}

#[test]
fn step1_and_start_stand_alone(rt: HostRuntime) {
    assert!(rt; matches!(read_call(b"step1"), Ok(Call::Step1)));
    assert!(rt; matches!(read_call(b" start "), Ok(Call::Start)));
    assert!(rt; read_call(b"step1 5").is_err());
}

#[test]
fn other_lines_are_named(rt: HostRuntime) {
    let table: [(&[u8], LineFault); 8] = [
        (b"Own 7", LineFault::UnknownCall),
        (b"own 7 8", LineFault::NotANumber),
        (b"own 18446744073709551616", LineFault::NotANumber),
        (b"write custom 256 00", LineFault::NotANumber),
        (b"policy none", LineFault::UnknownWord),
        (b"clean it", LineFault::WordsLeft),
        (b"step1 5:300", LineFault::WordsLeft),
        (b"step 1", LineFault::UnknownCall),
    ];
    for (line, fault) in table {
        assert_eq!(rt; read_call(line).err(), Some(fault));
    }
}
