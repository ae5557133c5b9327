// What C is told: the number of each refusal, and how far a handle came.
use crate::tell::{number_of, tell_handled, tell_length};
use crate::told::HubHandled;
use awareness::fault::PresenceFault;
use calls::answer::{Handled, Refusal};
use calls::fault::{Fault, PolicyFault};
use document::fault::DocumentFault;
use encoding::fault::WireFault;

const UNTOLD: HubHandled = HubHandled {
    messages: 9,
    place: 9,
    replies: 9,
    wire: 9,
};

fn refusal(fault: Fault) -> Refusal {
    Refusal {
        fault,
        message: 2,
        place: 7,
        replies: 3,
    }
}

#[test]
fn each_refusal_has_its_number(rt: HostRuntime) {
    let table = [
        (1, Fault::Wire(WireFault::InvalidVarInt)),
        (2, Fault::Wire(WireFault::EndOfBuffer)),
        (3, Fault::Wire(WireFault::UnexpectedValue)),
        (4, Fault::Wire(WireFault::InvalidClientId)),
        (5, Fault::Wire(WireFault::TooManyEntries)),
        (6, Fault::Wire(WireFault::TextTooLong)),
        (7, Fault::Presence(PresenceFault::TooManyClients)),
        (8, Fault::Presence(PresenceFault::ClockAtEnd)),
        (9, Fault::Presence(PresenceFault::ClientNotFound)),
        (10, Fault::Policy(PolicyFault::PermissionDenied)),
        (11, Fault::Policy(PolicyFault::Unsupported)),
        (
            12,
            Fault::Document(DocumentFault::Unreadable(WireFault::TextTooLong)),
        ),
        (13, Fault::Document(DocumentFault::TooLarge)),
        (14, Fault::Buffer),
    ];
    for (number, fault) in table {
        assert_eq!(rt; number_of(Err(refusal(fault))), number);
    }
    assert_eq!(rt; number_of(Ok(())), 0);
}

#[test]
fn a_handle_tells_how_far_it_came(rt: HostRuntime) {
    let unreadable = Fault::Document(DocumentFault::Unreadable(WireFault::TextTooLong));
    let mut told = UNTOLD;
    assert_eq!(rt; tell_handled(Err(refusal(unreadable)), &mut told), 12);
    assert_eq!(rt;
        told,
        HubHandled {
            messages: 2,
            place: 7,
            replies: 3,
            wire: 6
        }
    );
    let done = Handled {
        messages: 1,
        place: 4,
        replies: 0,
    };
    assert_eq!(rt; tell_handled(Ok(done), &mut told), 0);
    assert_eq!(rt;
        told,
        HubHandled {
            messages: 1,
            place: 4,
            replies: 0,
            wire: 0
        }
    );
}

#[test]
fn a_refused_writing_tells_no_length(rt: HostRuntime) {
    let mut length = 5;
    assert_eq!(rt; tell_length(Err(refusal(Fault::Buffer)), &mut length), 14);
    assert_eq!(rt; length, 5);
    assert_eq!(rt; tell_length(Ok(8), &mut length), 0);
    assert_eq!(rt; length, 8);
}
