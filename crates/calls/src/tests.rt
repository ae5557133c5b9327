// Examples of faults in numbers, layers and words, of refusals, and of the two policies.
use crate::answer::{Handled, Refusal};
use crate::fault::{Fault, Layer, PolicyFault};
use crate::policy::{DefaultPolicy, Policy, TagRanges};
use awareness::fault::{AwarenessFault, PresenceFault};
use document::fault::DocumentFault;
use encoding::fault::WireFault;
use encoding::sink::BufferTooShort;
use encoding::write::WriteFault;
use std::test::Fail;

// Every fault, in the order of the numbers.
fn all_faults() -> [Fault; 14] {
    [
        Fault::Wire(WireFault::InvalidVarInt),
        Fault::Wire(WireFault::EndOfBuffer),
        Fault::Wire(WireFault::UnexpectedValue),
        Fault::Wire(WireFault::InvalidClientId),
        Fault::Wire(WireFault::TooManyEntries),
        Fault::Wire(WireFault::TextTooLong),
        Fault::Presence(PresenceFault::TooManyClients),
        Fault::Presence(PresenceFault::ClockAtEnd),
        Fault::Presence(PresenceFault::ClientNotFound),
        Fault::Policy(PolicyFault::PermissionDenied),
        Fault::Policy(PolicyFault::Unsupported),
        Fault::Document(DocumentFault::Unreadable(WireFault::TextTooLong)),
        Fault::Document(DocumentFault::TooLarge),
        Fault::Buffer,
    ]
}

// The layer of a number, as users know it.
fn layer_of(number: u8) -> Layer {
    match number {
        1..=6 => Layer::Wire,
        7..=9 => Layer::Presence,
        10 | 11 => Layer::Policy,
        12 | 13 => Layer::Document,
        _ => Layer::Buffer,
    }
}

#[test]
fn faults_go_by_numbers_and_layers(rt: HostRuntime) {
    for (fault, number) in all_faults().into_iter().zip(1u8..) {
        assert_eq!(rt; fault.number(), number);
        assert_eq!(rt; fault.layer(), layer_of(number));
        let inside = if number == 12 { Some(6) } else { None };
        assert_eq!(rt; fault.wire(), inside);
    }
}

#[test]
fn faults_have_words(rt: HostRuntime) -> Result<(), Fail> {
    let words = [
        "a number goes on past its tenth byte or is past its width",
        "the bytes end too soon",
        "a text is not UTF-8 or a value has no meaning",
        "a client id is not below 2^53",
        "more than 64 entries are declared",
        "a presence text has more than 256 bytes or a slot more than 32",
        "more than 64 clients would be held",
        "a clock that has to rise is at its end",
        "a client is not known",
        "the policy denies permission",
        "the policy does not support the custom message",
        "the update is unreadable: a presence text has more than 256 bytes or a slot more than 32",
        "the joined document is past its limit",
        "the bytes do not fit the buffer",
    ];
    for (fault, said) in all_faults().into_iter().zip(words) {
        assert_eq!(rt; format!(in rt.alloc(); "{fault}")?.as_str(), said);
    }
    Ok(())
}

#[test]
fn faults_of_a_layer_are_those_of_all(rt: HostRuntime) {
    let wire = WireFault::EndOfBuffer;
    assert_eq!(rt; Fault::from(wire).number(), 2);
    assert_eq!(rt; Fault::from(AwarenessFault::Wire(wire)).number(), 2);
    assert_eq!(rt; Fault::from(WriteFault::Wire(wire)).number(), 2);
    let presence = PresenceFault::ClientNotFound;
    assert_eq!(rt; Fault::from(presence).number(), 9);
    assert_eq!(rt; Fault::from(AwarenessFault::Presence(presence)).number(), 9);
    assert_eq!(rt; Fault::from(PolicyFault::Unsupported).number(), 11);
    assert_eq!(rt; Fault::from(DocumentFault::TooLarge).number(), 13);
    assert_eq!(rt; Fault::from(BufferTooShort), Fault::Buffer);
    assert_eq!(rt; Fault::from(AwarenessFault::Short), Fault::Buffer);
    assert_eq!(rt; Fault::from(WriteFault::Short), Fault::Buffer);
}

// A handle of two messages, which came to byte 7 and has 3 bytes of replies.
const DONE: Handled = Handled {
    messages: 2,
    place: 7,
    replies: 3,
};

// The refusal of the message after them.
fn refusal_of_the_third(fault: Fault) -> Refusal {
    Refusal {
        fault,
        message: 2,
        place: 7,
        replies: 3,
    }
}

#[test]
fn a_refusal_tells_what_is_done(rt: HostRuntime) {
    for fault in all_faults() {
        assert_eq!(rt; DONE.refused(fault), refusal_of_the_third(fault));
    }
}

#[test]
fn only_a_cut_is_no_refusal(rt: HostRuntime) {
    let table = [
        (WireFault::InvalidVarInt, false),
        (WireFault::EndOfBuffer, true),
        (WireFault::UnexpectedValue, false),
        (WireFault::InvalidClientId, false),
        (WireFault::TooManyEntries, false),
        (WireFault::TextTooLong, false),
    ];
    for (fault, cut) in table {
        let answer = if cut {
            Ok(DONE)
        } else {
            Err(refusal_of_the_third(Fault::Wire(fault)))
        };
        assert_eq!(rt; DONE.stopped(fault), answer, "at {}", fault.number());
    }
}

// A refusal outside of a handle.
fn alone(fault: Fault) -> Refusal {
    Refusal {
        fault,
        message: 0,
        place: 0,
        replies: 0,
    }
}

#[test]
fn outside_of_a_handle_a_refusal_has_no_place(rt: HostRuntime) {
    let wire = WireFault::InvalidClientId;
    let presence = PresenceFault::ClientNotFound;
    let table = [
        (Refusal::from(Fault::Buffer), Fault::Buffer),
        (Refusal::from(wire), Fault::Wire(wire)),
        (Refusal::from(AwarenessFault::Wire(wire)), Fault::Wire(wire)),
        (
            Refusal::from(AwarenessFault::Presence(presence)),
            Fault::Presence(presence),
        ),
        (Refusal::from(AwarenessFault::Short), Fault::Buffer),
        (Refusal::from(WriteFault::Wire(wire)), Fault::Wire(wire)),
        (Refusal::from(WriteFault::Short), Fault::Buffer),
    ];
    for (refusal, fault) in table {
        assert_eq!(rt; refusal, alone(fault));
    }
}

#[test]
fn the_default_policy_accepts_grants_alone(rt: HostRuntime) {
    let mut policy = DefaultPolicy;
    assert_eq!(rt; policy.auth(None), Ok(()));
    assert_eq!(rt;
        policy.auth(Some(b"no")),
        Err(PolicyFault::PermissionDenied)
    );
    for tag in [4, 16, 31, 255] {
        assert_eq!(rt; policy.custom(tag, b""), Err(PolicyFault::Unsupported));
    }
}

#[test]
fn tags_16_to_31_are_accepted_and_noted(rt: HostRuntime) {
    let mut policy = TagRanges::new();
    assert_eq!(rt; policy.auth(None), Ok(()));
    assert_eq!(rt; policy.auth(Some(b"")), Err(PolicyFault::PermissionDenied));
    assert_eq!(rt; policy.custom(15, b"a"), Err(PolicyFault::Unsupported));
    assert_eq!(rt; policy.latest(), None);
    assert_eq!(rt; policy.custom(31, b"a"), Ok(()));
    assert_eq!(rt; policy.custom(16, b""), Ok(()));
    assert_eq!(rt; policy.latest(), Some(16));
    assert_eq!(rt; policy.custom(32, b"a"), Err(PolicyFault::Unsupported));
    assert_eq!(rt; policy.latest(), Some(16));
}
