// Examples of a hub: what messages do and what is replied to them, each refusal with what it left, the calls that come to the records, and runs of calls.
use crate::endless::Endless;
use crate::hub::Hub;
use crate::run::{Answer, Call, Lent, run};
use awareness::clock::StepClock;
use awareness::fault::PresenceFault;
use awareness::record::Record;
use awareness::summary::{AwarenessUpdateSummary, ChangeLists};
use boards::count::Count;
use boards::count_board::CountBoard;
use boards::slot_board::SlotBoard;
use calls::answer::{Handled, Refusal};
use calls::fault::{Fault, PolicyFault};
use calls::policy::{DefaultPolicy, Policy, TagRanges};
use document::fault::DocumentFault;
use document::host::DocumentHost;
use encoding::fault::WireFault;
use std::array;
use std::process::Abort;
use std::test::Fail;

// The first id that no client can have.
const NO_CLIENT: u64 = 9007199254740992;

// Client 7 is in, at clock 3; and gone, at the same clock.
const IN: [u8; 10] = *b"\x01\x08\x01\x07\x03\x04\"in\"";

const GONE: [u8; 10] = *b"\x01\x08\x01\x07\x03\x04null";

// A hub of client 1 over counts, and a clock that tells its readings from 100 on.
type Counts = Hub<CountBoard, StepClock, DefaultPolicy>;

fn counts() -> Result<Counts, Fault> {
    Hub::new(1, StepClock { reading: 100 }, DefaultPolicy)
}

// What is told of bytes that are handled.
fn done(messages: usize, place: usize, replies: usize) -> Result<Handled, Refusal> {
    Ok(Handled {
        messages,
        place,
        replies,
    })
}

fn refused(fault: Fault, message: usize, place: usize, replies: usize) -> Result<Handled, Refusal> {
    Err(Refusal {
        fault,
        message,
        place,
        replies,
    })
}

// A refusal outside of handle.
fn alone(fault: Fault) -> Refusal {
    Refusal {
        fault,
        message: 0,
        place: 0,
        replies: 0,
    }
}

// What bytes come to in a hub whose clock steps, and what stands in a buffer then.
fn replied<H: DocumentHost, P: Policy, const N: usize>(
    hub: &mut Hub<H, StepClock, P>,
    bytes: &[u8],
) -> (Result<Handled, Refusal>, [u8; N]) {
    let mut out = [0xee; N];
    let answer = hub.handle(bytes, &mut out);
    (answer, out)
}

// What is held of a client: at which clock, and since when.
#[derive(Clone, Copy, Debug, PartialEq, Eq)]
enum Held {
    Nothing,
    Live(u32, u64),
    Null(u32, u64),
}

fn held_of(record: Option<&Record>) -> Held {
    match record {
        None => Held::Nothing,
        Some(r) if r.state().is_some() => Held::Live(r.clock(), r.time()),
        Some(r) => Held::Null(r.clock(), r.time()),
    }
}

fn shown(hub: &Counts, client: u64) -> Result<Held, Refusal> {
    Ok(held_of(hub.show(client)?))
}

// How many records and how many counts a hub holds, and its clock's next reading.
fn sizes(hub: &Counts) -> (usize, usize, u64) {
    (
        hub.presence.records().len(),
        hub.host.counts().len(),
        hub.clock.reading,
    )
}

// What is asked of a hub.
#[derive(Clone, Copy)]
enum Ask<'a> {
    Handle(&'a [u8]),
    Set(&'a [u8]),
    Remove(u64),
    Clean,
}

// How many messages are done, with no place for a reply; none where none are asked for.
fn answer_to(hub: &mut Counts, ask: Ask) -> Result<usize, Refusal> {
    match ask {
        Ask::Handle(bytes) => return Ok(hub.handle(bytes, &mut [])?.messages),
        Ask::Set(text) => hub.set(text)?,
        Ask::Remove(client) => hub.remove(client)?,
        Ask::Clean => hub.clean()?,
    }
    Ok(0)
}

// What is asked, how many messages are done or why it is refused at its first byte, then of a client what is held, and the clock's next reading.
#[derive(Clone, Copy)]
struct Step<'a>(Ask<'a>, Result<usize, Fault>, (u64, Held), u64);

// Calls come one after another.
fn check_steps(rt: &impl Abort, hub: &mut Counts, steps: &[Step]) -> Result<(), Fail> {
    for Step(ask, told, (client, holds), reading) in steps {
        let came = (answer_to(hub, *ask), shown(hub, *client), hub.clock.reading);
        assert_eq!(rt; came, ((*told).map_err(alone), Ok(*holds), *reading));
    }
    Ok(())
}

#[test]
fn a_fresh_hub_holds_nothing(rt: HostRuntime) -> Result<(), Fail> {
    let hub = counts()?;
    assert_eq!(rt; hub.presence.client_id(), 1);
    assert_eq!(rt; sizes(&hub), (0, 0, 100));
    Ok(())
}

// The clock is read once for each update that is taken.
#[test]
fn a_client_comes_and_goes(rt: HostRuntime) -> Result<(), Fail> {
    let steps = [
        Step(Ask::Handle(&IN), Ok(1), (7, Held::Live(3, 100)), 101),
        Step(Ask::Handle(&GONE), Ok(1), (7, Held::Null(3, 101)), 102),
        Step(Ask::Handle(&IN), Ok(1), (7, Held::Null(3, 101)), 103),
    ];
    let mut hub = counts()?;
    check_steps(&rt, &mut hub, &steps)?;
    assert_eq!(rt; sizes(&hub), (1, 0, 103));
    Ok(())
}

// Missing bytes are a refusal inside of a buffer, and outside the end of reading.
#[test]
fn cut_and_refused_differ(rt: HostRuntime) -> Result<(), Fail> {
    let short = Fault::Wire(WireFault::EndOfBuffer);
    let table: [(&[u8], Result<Handled, Refusal>, [u8; 4]); 4] = [
        (b"\x01\x01\x01\x03", refused(short, 0, 0, 0), [0xee; 4]),
        (b"\x01\x02\x01", done(0, 0, 0), [0xee; 4]),
        (b"", done(0, 0, 0), [0xee; 4]),
        (b"\x03\x01\x02\x01", done(1, 1, 3), *b"\x01\x01\x00\xee"),
    ];
    let mut hub = counts()?;
    for (bytes, answer, out) in table {
        assert_eq!(rt; replied(&mut hub, bytes), (answer, out));
    }
    assert_eq!(rt; sizes(&hub), (0, 0, 100));
    Ok(())
}

#[test]
fn step_1_is_replied_to_with_counts(rt: HostRuntime) -> Result<(), Fail> {
    let mut hub = counts()?;
    let two = b"\x00\x02\x06\x02\x09\x02\x05\xad\x02";
    assert_eq!(rt; replied(&mut hub, two), (done(1, 9, 0), [0xee; 11]));
    let asked = b"\x00\x00\x04\x01\x05\xac\x02";
    let reply = *b"\x00\x01\x06\x02\x05\xad\x02\x09\x02\xee\xee";
    assert_eq!(rt; replied(&mut hub, asked), (done(1, 7, 9), reply));
    Ok(())
}

#[test]
fn step_1_is_replied_to_with_slots(rt: HostRuntime) -> Result<(), Fail> {
    let mut hub: Hub<SlotBoard, StepClock, DefaultPolicy> = Hub::new(
        1,
        StepClock { reading: 100 },
        DefaultPolicy,
    )?;
    let slot = b"\x00\x01\x05\x01\x05\x02\x01a";
    assert_eq!(rt; replied(&mut hub, slot), (done(1, 8, 0), [0xee; 9]));
    let asked = b"\x00\x00\x03\x01\x05\x02";
    let reply = *b"\x00\x01\x05\x01\x05\x02\x01a\xee";
    assert_eq!(rt; replied(&mut hub, asked), (done(1, 6, 8), reply));
    Ok(())
}

// A length past 32 bits is no shorter one.
#[test]
fn too_long_a_reply_is_refused(rt: HostRuntime) -> Result<(), Fail> {
    let mut hub: Hub<Endless, StepClock, DefaultPolicy> = Hub::new(
        1,
        StepClock { reading: 100 },
        DefaultPolicy,
    )?;
    let came = (
        refused(Fault::Buffer, 1, 1, 3),
        *b"\x01\x01\x00\xee\xee\xee\xee\xee",
    );
    assert_eq!(rt; replied(&mut hub, b"\x03\x00\x00\x01\x00"), came);
    Ok(())
}

// A query is replied to with those that are live then, whatever comes after it.
#[test]
fn queries_are_replied_to_in_turn(rt: HostRuntime) -> Result<(), Fail> {
    let all = b"\x03\x01\x08\x01\x07\x03\x04\"in\"\x03\x01\x08\x01\x07\x03\x04null\x03";
    let first = *b"\x01\x01\x00\xee";
    assert_eq!(rt;
        replied(&mut counts()?, &all[..11]),
        (done(2, 11, 3), first)
    );
    let each = *b"\x01\x01\x00\x01\x08\x01\x07\x03\x04\"in\"\x01\x01\x00";
    assert_eq!(rt; replied(&mut counts()?, all), (done(5, 23, 16), each));
    Ok(())
}

// Bytes of one message, after a query that was replied to, change nothing.
fn check_refused(rt: &impl Abort, bytes: &[u8], fault: Fault) -> Result<(), Fail> {
    let mut hub = counts()?;
    answer_to(&mut hub, Ask::Handle(&GONE))?;
    let only_a_reply = (refused(fault, 1, 1, 3), *b"\x01\x01\x00\xee\xee");
    assert_eq!(rt; replied(&mut hub, bytes), only_a_reply);
    let as_before = (Ok(Held::Null(3, 100)), (1, 0, 101));
    assert_eq!(rt; (shown(&hub, 7), sizes(&hub)), as_before);
    Ok(())
}

// Whatever bytes alone are refused for on the wire.
#[test]
fn an_unreadable_message_changes_nothing(rt: HostRuntime) -> Result<(), Fail> {
    let table: [(&[u8], WireFault); 9] = [
        (b"\x03\x80\x02", WireFault::InvalidVarInt),
        (
            b"\x03\x01\x09\x01\x07\x80\x80\x80\x80\x10\x011",
            WireFault::InvalidVarInt,
        ),
        (b"\x03\x00\x00\x02\x01\x05", WireFault::EndOfBuffer),
        (b"\x03\x00\x03\x00", WireFault::UnexpectedValue),
        (b"\x03\x02\x00\x01\xff", WireFault::UnexpectedValue),
        (
            b"\x03\x01\x05\x01\x07\x03\x01\xff",
            WireFault::UnexpectedValue,
        ),
        (
            b"\x03\x00\x00\x0a\x01\x80\x80\x80\x80\x80\x80\x80\x10\x01",
            WireFault::InvalidClientId,
        ),
        (b"\x03\x00\x00\x01\x41", WireFault::TooManyEntries),
        (b"\x03\x01\x01\x41", WireFault::TooManyEntries),
    ];
    for (bytes, fault) in table {
        check_refused(&rt, bytes, Fault::Wire(fault))?;
    }
    Ok(())
}

// And for what they say, or for want of room.
#[test]
fn a_refused_message_changes_nothing(rt: HostRuntime) -> Result<(), Fail> {
    let too_many = DocumentFault::Unreadable(WireFault::TooManyEntries);
    let short = DocumentFault::Unreadable(WireFault::EndOfBuffer);
    let table: [(&[u8], Fault); 6] = [
        (
            b"\x03\x02\x00\x02no",
            Fault::Policy(PolicyFault::PermissionDenied),
        ),
        (b"\x03\x10\x01a", Fault::Policy(PolicyFault::Unsupported)),
        (b"\x03\x00\x02\x01\x41", Fault::Document(too_many)),
        (b"\x03\x00\x01\x02\x01\x07", Fault::Document(short)),
        (b"\x03\x03", Fault::Buffer),
        (b"\x03\x00\x00\x01\x00", Fault::Buffer),
    ];
    for (bytes, fault) in table {
        check_refused(&rt, bytes, fault)?;
    }
    Ok(())
}

// A presence text of 257 bytes, and one of 256 that is set.
#[test]
fn too_long_a_text_is_refused(rt: HostRuntime) -> Result<(), Fail> {
    let mut long = [b'1'; 265];
    long[0..8].copy_from_slice(b"\x01\x86\x02\x01\x07\x03\x81\x02");
    let too_long = Err(Fault::Wire(WireFault::TextTooLong));
    let steps = [
        Step(Ask::Handle(&long), too_long, (7, Held::Nothing), 100),
        Step(Ask::Set(&long[8..]), too_long, (1, Held::Nothing), 100),
        Step(Ask::Set(&long[9..]), Ok(0), (1, Held::Live(1, 100)), 101),
    ];
    check_steps(&rt, &mut counts()?, &steps)
}

// The messages before a refused one keep their effects and replies.
#[test]
fn what_is_done_before_a_refusal_stays(rt: HostRuntime) -> Result<(), Fail> {
    let mut hub = counts()?;
    let bytes = b"\x00\x02\x03\x01\x05\x02\x01\x05\x01\x07\x03\x011\x00\x00\x01\x00\x05\x00\x03";
    let unsupported = Fault::Policy(PolicyFault::Unsupported);
    let came = (
        refused(unsupported, 3, 17, 6),
        *b"\x00\x01\x03\x01\x05\x02\xee\xee\xee",
    );
    assert_eq!(rt; replied(&mut hub, bytes), came);
    assert_eq!(rt;
        (shown(&hub, 7), sizes(&hub)),
        (Ok(Held::Live(3, 100)), (1, 1, 101))
    );
    let five = Count {
        client: 5,
        count: 2,
    };
    assert_eq!(rt; hub.host.counts(), [five].as_slice());
    Ok(())
}

// A hub of 64 clients, each with a text of one digit: its own at the last clock, the others at clock 1.
fn full() -> Result<Counts, Fail> {
    let mut hub = counts()?;
    answer_to(
        &mut hub,
        Ask::Handle(b"\x01\x09\x01\x01\xff\xff\xff\xff\x0f\x011"),
    )?;
    for client in 2u8..65 {
        answer_to(&mut hub, Ask::Handle(&[1, 5, 1, client, 1, 1, b'1']))?;
    }
    Ok(hub)
}

// No refusal reads the clock.
#[test]
fn a_full_table_refuses(rt: HostRuntime) -> Result<(), Fail> {
    let too_many = Err(Fault::Presence(PresenceFault::TooManyClients));
    let at_end = Err(Fault::Presence(PresenceFault::ClockAtEnd));
    let a_65th = Ask::Handle(b"\x01\x05\x01\x41\x01\x011");
    let own_null = Ask::Handle(b"\x01\x0c\x01\x01\xff\xff\xff\xff\x0f\x04null");
    let known = Ask::Handle(b"\x01\x05\x01\x40\x02\x012");
    let own = (1, Held::Live(u32::MAX, 100));
    let steps = [
        Step(a_65th, too_many, (65, Held::Nothing), 164),
        Step(own_null, at_end, own, 164),
        Step(Ask::Remove(65), too_many, (65, Held::Nothing), 164),
        Step(Ask::Remove(1), at_end, own, 164),
        Step(Ask::Clean, at_end, own, 164),
        Step(Ask::Set(b"2"), at_end, (64, Held::Live(1, 163)), 164),
        Step(known, Ok(1), (64, Held::Live(2, 164)), 165),
    ];
    let mut hub = full()?;
    check_steps(&rt, &mut hub, &steps)?;
    assert_eq!(rt; (shown(&hub, 1), sizes(&hub)), (Ok(own.1), (64, 0, 165)));
    Ok(())
}

#[test]
fn a_document_past_its_limit_is_refused(rt: HostRuntime) -> Result<(), Fail> {
    let mut hub = counts()?;
    for client in 0u8..64 {
        answer_to(&mut hub, Ask::Handle(&[0, 2, 3, 1, client, 1]))?;
    }
    let too_large = Fault::Document(DocumentFault::TooLarge);
    let a_65th = b"\x03\x00\x02\x05\x02\x05\x09\x40\x01";
    let only_a_reply = (refused(too_large, 1, 1, 3), *b"\x01\x01\x00\xee");
    assert_eq!(rt; replied(&mut hub, a_65th), only_a_reply);
    assert_eq!(rt; sizes(&hub), (0, 64, 100));
    let five = Count {
        client: 5,
        count: 1,
    };
    assert_eq!(rt; hub.host.counts().get(5), Some(&five));
    Ok(())
}

// The policy by ranges takes tags 16 to 31, notes the latest, and grants.
#[test]
fn a_policy_decides(rt: HostRuntime) -> Result<(), Fail> {
    let mut hub: Hub<CountBoard, StepClock, TagRanges> = Hub::new(
        1,
        StepClock { reading: 100 },
        TagRanges::new(),
    )?;
    let unsupported = Fault::Policy(PolicyFault::Unsupported);
    assert_eq!(rt;
        replied(&mut hub, b"\x02\x01\x10\x01a\x1f\x00\x20\x00"),
        (refused(unsupported, 3, 7, 0), [])
    );
    assert_eq!(rt; hub.policy.latest(), Some(31));
    Ok(())
}

#[test]
fn an_own_id_is_judged(rt: HostRuntime) {
    let hub: Result<Counts, Fault> = Hub::new(NO_CLIENT, StepClock { reading: 100 }, DefaultPolicy);
    let no_id = Fault::Wire(WireFault::InvalidClientId);
    assert_eq!(rt; hub.map(|_| ()), Err(no_id));
}

#[test]
fn the_own_state_is_set(rt: HostRuntime) -> Result<(), Fail> {
    let no_text = Err(Fault::Wire(WireFault::UnexpectedValue));
    let steps = [
        Step(Ask::Set(b"1"), Ok(0), (1, Held::Live(1, 100)), 101),
        Step(Ask::Set(b"\xff"), no_text, (1, Held::Live(1, 100)), 101),
        Step(Ask::Clean, Ok(0), (1, Held::Null(2, 100)), 101),
    ];
    check_steps(&rt, &mut counts()?, &steps)
}

#[test]
fn clients_are_removed(rt: HostRuntime) -> Result<(), Fail> {
    let no_id = Fault::Wire(WireFault::InvalidClientId);
    let steps = [
        Step(Ask::Remove(7), Ok(0), (7, Held::Null(1, 100)), 101),
        Step(
            Ask::Remove(NO_CLIENT),
            Err(no_id),
            (7, Held::Null(1, 100)),
            101,
        ),
    ];
    let mut hub = counts()?;
    check_steps(&rt, &mut hub, &steps)?;
    assert_eq!(rt; shown(&hub, NO_CLIENT), Err(alone(no_id)));
    assert_eq!(rt; sizes(&hub), (1, 0, 101));
    Ok(())
}

// What is answered for a list of clients, and what stands in a buffer then.
fn listed<const N: usize>(hub: &Counts, clients: &[u64]) -> (Result<usize, Refusal>, [u8; N]) {
    let mut out = [0xee; N];
    let answer = hub.list(clients, &mut out);
    (answer, out)
}

// The update of two clients is listed, of the third it is not; each fault in its order.
#[test]
fn records_are_listed(rt: HostRuntime) -> Result<(), Fail> {
    let mut hub = counts()?;
    answer_to(
        &mut hub,
        Ask::Handle(b"\x01\x0d\x03\x09\x01\x013\x05\x02\x011\x07\x03\x012"),
    )?;
    let two = *b"\x02\x05\x02\x011\x09\x01\x013\xee";
    assert_eq!(rt; listed(&hub, &[9, 5, 9]), (Ok(9), two));
    let table: [(&[u64], Fault); 4] = [
        (&[8; 65], Fault::Wire(WireFault::TooManyEntries)),
        (&[8, NO_CLIENT], Fault::Wire(WireFault::InvalidClientId)),
        (&[5, 8], Fault::Presence(PresenceFault::ClientNotFound)),
        (&[5, 9], Fault::Buffer),
    ];
    for (clients, fault) in table {
        assert_eq!(rt; listed(&hub, clients), (Err(alone(fault)), [0xee; 8]));
    }
    Ok(())
}

// Places for the four lists of an apply.
#[derive(Drop)]
struct Places {
    added: [u64; 64],
    updated: [u64; 64],
    changed: [u64; 64],
    removed: [u64; 64],
}

impl Places {
    fn new() -> Places {
        Places {
            added: [NO_CLIENT; 64],
            updated: [NO_CLIENT; 64],
            changed: [NO_CLIENT; 64],
            removed: [NO_CLIENT; 64],
        }
    }

    // What is answered to an update, with the lists filled here.
    fn apply(
        &mut self,
        hub: &mut Counts,
        update: &[u8],
    ) -> Result<AwarenessUpdateSummary, Refusal> {
        let mut lists = ChangeLists {
            added: &mut self.added,
            updated: &mut self.updated,
            changed: &mut self.changed,
            removed: &mut self.removed,
        };
        hub.apply(update, &mut lists)
    }

    fn lists(&self) -> [[u64; 64]; 4] {
        [self.added, self.updated, self.changed, self.removed]
    }
}

// A list of one client, with the other places as they were.
fn list_of(client: u64) -> [u64; 64] {
    let mut list = [NO_CLIENT; 64];
    list[0] = client;
    list
}

// Four lists: who came, whose text was taken or raised, whose changed, and who went.
#[test]
fn changes_are_listed(rt: HostRuntime) -> Result<(), Fail> {
    let mut hub = counts()?;
    answer_to(&mut hub, Ask::Handle(&IN))?;
    let mut places = Places::new();
    let one_each = AwarenessUpdateSummary {
        added: 1,
        updated: 1,
        changed: 1,
        removed: 1,
    };
    let update = b"\x03\x07\x04\x011\x09\x01\x012\x07\x05\x04null";
    assert_eq!(rt; places.apply(&mut hub, update), Ok(one_each));
    let seven = list_of(7);
    assert_eq!(rt; places.lists(), [list_of(9), seven, seven, seven]);
    assert_eq!(rt;
        (shown(&hub, 7), sizes(&hub)),
        (Ok(Held::Null(5, 101)), (2, 0, 102))
    );
    Ok(())
}

// Too few places come before all else.
#[test]
fn each_list_needs_64_places(rt: HostRuntime) -> Result<(), Fail> {
    let mut hub = counts()?;
    let [mut added, mut updated, mut changed] = [[NO_CLIENT; 64]; 3];
    let mut few = ChangeLists {
        added: &mut added,
        updated: &mut updated,
        changed: &mut changed,
        removed: &mut [NO_CLIENT; 63],
    };
    assert_eq!(rt; hub.apply(b"\x41", &mut few), Err(alone(Fault::Buffer)));
    assert_eq!(rt; [added, updated, changed], [[NO_CLIENT; 64]; 3]);
    assert_eq!(rt; sizes(&hub), (0, 0, 100));
    Ok(())
}

#[test]
fn refused_updates_leave_the_lists(rt: HostRuntime) -> Result<(), Fail> {
    let mut hub = counts()?;
    let mut places = Places::new();
    let cut = alone(Fault::Wire(WireFault::EndOfBuffer));
    assert_eq!(rt; places.apply(&mut hub, b"\x02\x07\x03\x011"), Err(cut));
    assert_eq!(rt; places.lists(), [[NO_CLIENT; 64]; 4]);
    assert_eq!(rt; sizes(&hub), (0, 0, 100));
    Ok(())
}

// The document's vector, and the live records after it; nothing where they don't fit.
#[test]
fn what_a_hub_sends_by_itself(rt: HostRuntime) -> Result<(), Fail> {
    let mut hub = counts()?;
    let mut none = [0; 0];
    let both = b"\x00\x02\x03\x01\x05\x02\x01\x08\x01\x07\x03\x04\"in\"";
    assert_eq!(rt; hub.handle(both, &mut none), done(2, 16, 0));
    let mut short = [0xee; 5];
    assert_eq!(rt; hub.step1(&mut short), Err(alone(Fault::Buffer)));
    assert_eq!(rt; short, [0xee; 5]);
    let mut short = [0xee; 15];
    assert_eq!(rt; hub.start(&mut short), Err(alone(Fault::Buffer)));
    assert_eq!(rt; short, [0xee; 15]);
    let mut out = [0xee; 7];
    assert_eq!(rt; hub.step1(&mut out), Ok(6));
    assert_eq!(rt; out, *b"\x00\x00\x03\x01\x05\x02\xee");
    let mut out = [0xee; 17];
    assert_eq!(rt; hub.start(&mut out), Ok(16));
    assert_eq!(rt;
        out,
        *b"\x00\x00\x03\x01\x05\x02\x01\x08\x01\x07\x03\x04\"in\"\xee"
    );
    Ok(())
}

// What is noted of a call.
#[derive(Clone, Copy, Debug, PartialEq, Eq)]
enum Noted {
    Handled(Result<Handled, Refusal>),
    Applied(AwarenessUpdateSummary),
    Done,
    Written(usize),
    Shown(Held),
    Refused(Fault),
}

fn note_of(answer: &Answer) -> Noted {
    match answer {
        Answer::Handled(told) => Noted::Handled(*told),
        Answer::Applied(lengths) => Noted::Applied(*lengths),
        Answer::Done => Noted::Done,
        Answer::Written(len) => Noted::Written(*len),
        Answer::Shown(record) => Noted::Shown(held_of(record.as_ref())),
        Answer::Refused(fault) => Noted::Refused(*fault),
    }
}

// How many clients each list has.
fn lengths(added: usize, updated: usize, changed: usize, removed: usize) -> AwarenessUpdateSummary {
    AwarenessUpdateSummary {
        added,
        updated,
        changed,
        removed,
    }
}

#[test]
fn bytes_and_clients_of_an_answer(rt: HostRuntime) {
    let none = lengths(0, 0, 0, 0);
    let three = lengths(2, 0, 0, 1);
    let table = [
        (Answer::Handled(done(1, 9, 5)), 5, none),
        (Answer::Handled(refused(Fault::Buffer, 1, 1, 3)), 3, none),
        (Answer::Applied(three), 0, three),
        (Answer::Done, 0, none),
        (Answer::Written(7), 7, none),
        (Answer::Shown(None), 0, none),
        (Answer::Refused(Fault::Buffer), 0, none),
    ];
    for (answer, bytes, clients) in table {
        assert_eq!(rt; answer.bytes(), bytes);
        assert_eq!(rt; answer.clients(), clients);
    }
}

// Places to be lent to a run, and nothing in them.
#[derive(Drop)]
struct RunPlaces {
    out: [u8; 25],
    added: [u64; 66],
    updated: [u64; 66],
    changed: [u64; 66],
    removed: [u64; 66],
}

fn all_places() -> RunPlaces {
    RunPlaces {
        out: [0xee; 25],
        added: [0; 66],
        updated: [0; 66],
        changed: [0; 66],
        removed: [0; 66],
    }
}

// Calls of every kind, each with what is noted of it.
fn calls_with_notes() -> [(Call<'static>, Noted); 11] {
    let two = b"\x02\x09\x01\x012\x07\x03\x011";
    let three = b"\x03\x08\x01\x013\x07\x04\x012\x09\x01\x04null";
    let gone = Held::Null(5, 102);
    let no_id = Fault::Wire(WireFault::InvalidClientId);
    [
        (Call::Handle(b"\x03"), Noted::Handled(done(1, 1, 3))),
        (Call::Apply(two), Noted::Applied(lengths(2, 0, 0, 0))),
        (Call::Set(b"1"), Noted::Done),
        (Call::Apply(three), Noted::Applied(lengths(1, 1, 1, 1))),
        (Call::Step1, Noted::Written(4)),
        (Call::Remove(7), Noted::Done),
        (Call::Show(7), Noted::Shown(gone)),
        (Call::List(&[8]), Noted::Written(5)),
        (Call::Remove(NO_CLIENT), Noted::Refused(no_id)),
        (Call::Clean, Noted::Done),
        (Call::Start, Noted::Written(11)),
    ]
}

// Bytes stand one after another, and so do the clients of each list; what is past them stays.
#[test]
fn a_run_notes_each_answer(rt: HostRuntime) -> Result<(), Fail> {
    let told = calls_with_notes();
    let calls = told.map(|(call, _)| call);
    let mut answers: [Answer; 12] = array::from_fn(|_| Answer::Written(9));
    let mut places = all_places();
    let clock = StepClock { reading: 100 };
    let lent = Lent {
        out: &mut places.out,
        added: &mut places.added,
        updated: &mut places.updated,
        changed: &mut places.changed,
        removed: &mut places.removed,
    };
    let hub: Counts = run(1, &calls, clock, DefaultPolicy, &mut answers, lent)?;
    for (answer, (_, noted)) in answers.iter().zip(told) {
        assert_eq!(rt; note_of(answer), noted);
    }
    assert_eq!(rt; note_of(&answers[11]), Noted::Written(9));
    assert_eq!(rt;
        places.out,
        *b"\x01\x01\x00\x00\x00\x01\x00\x01\x08\x01\x013\x00\x00\x01\x00\x01\x05\x01\x08\x01\x013\xee\xee"
    );
    assert_eq!(rt; &places.added[..4], [7, 9, 8, 0].as_slice());
    for list in [&places.updated, &places.changed] {
        assert_eq!(rt; &list[..2], [7, 0].as_slice());
    }
    assert_eq!(rt; &places.removed[..2], [9, 0].as_slice());
    assert_eq!(rt; shown(&hub, 1), Ok(Held::Null(2, 101)));
    assert_eq!(rt; hub.clock.reading, 103);
    Ok(())
}

// An id that no client can have (4) comes before too few places for answers (14); nothing is noted or written.
#[test]
fn a_run_is_refused_whole(rt: HostRuntime) {
    let calls = [Call::Start, Call::Apply(b"\x01\x07\x03\x011")];
    for (own, room, number) in [(NO_CLIENT, 2, 4), (NO_CLIENT, 1, 4), (1, 1, 14)] {
        let mut answers = [Answer::Written(9), Answer::Written(8)];
        let mut places = all_places();
        let clock = StepClock { reading: 100 };
        let few = &mut answers[..room];
        let lent = Lent {
            out: &mut places.out,
            added: &mut places.added,
            updated: &mut places.updated,
            changed: &mut places.changed,
            removed: &mut places.removed,
        };
        let hub: Result<Counts, Fault> = run(own, &calls, clock, DefaultPolicy, few, lent);
        assert_eq!(rt;
            hub.map(|_| ()).map_err(|fault| fault.number()),
            Err(number)
        );
        assert_eq!(rt; note_of(&answers[0]), Noted::Written(9));
        assert_eq!(rt; note_of(&answers[1]), Noted::Written(8));
        assert_eq!(rt; places.out, [0xee; 25]);
        for list in [places.added, places.updated, places.changed, places.removed] {
            assert_eq!(rt; list, [0; 66]);
        }
    }
}
