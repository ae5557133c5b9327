// Examples of presence: what updates do, each refusal with what it left, and when the clock is read.
use crate::awareness::Awareness;
use crate::clock::{Clock, SetClock, StepClock};
use crate::fault::{AwarenessFault, PresenceFault};
use crate::observer::Nobody;
use crate::record::Record;
use crate::summary::ChangeLists;
use crate::winning::winning_text;
use encoding::fault::WireFault;
use message::arrived::ArrivedUpdate;
use message::text::PresenceText;
use state_vector::keyed::Keyed;
use std::process::Abort;
use std::test::Fail;

// The first id that no client can have.
const NO_CLIENT: u64 = 9007199254740992;

// What the table of records refuses for.
const CLOCK_AT_END: AwarenessFault = AwarenessFault::Presence(PresenceFault::ClockAtEnd);

const TOO_MANY_CLIENTS: AwarenessFault = AwarenessFault::Presence(PresenceFault::TooManyClients);

const CLIENT_NOT_FOUND: AwarenessFault = AwarenessFault::Presence(PresenceFault::ClientNotFound);

// A hub of client 1 that tells its changes in 64 places a list, and a clock that tells its readings from 100 on.
#[derive(Drop)]
struct Site {
    hub: Awareness,
    clock: StepClock,
    added: [u64; 64],
    updated: [u64; 64],
    changed: [u64; 64],
    removed: [u64; 64],
}

// What is held of a client: at which clock, and since when.
#[derive(Clone, Copy, Debug, PartialEq, Eq)]
enum Held {
    Nothing,
    Live(u32, u64),
    Null(u32, u64),
}

// What is asked of a site.
#[derive(Clone, Copy)]
enum Ask<'a> {
    Apply(&'a [u8]),
    Set(&'a [u8]),
    Remove(u64),
    Clean,
}

impl Site {
    fn new() -> Result<Site, WireFault> {
        Ok(Site {
            hub: Awareness::new(1)?,
            clock: StepClock { reading: 100 },
            added: [NO_CLIENT; 64],
            updated: [NO_CLIENT; 64],
            changed: [NO_CLIENT; 64],
            removed: [NO_CLIENT; 64],
        })
    }

    fn apply(&mut self, update: &[u8]) -> Result<[usize; 4], AwarenessFault> {
        let mut lists = ChangeLists {
            added: &mut self.added,
            updated: &mut self.updated,
            changed: &mut self.changed,
            removed: &mut self.removed,
        };
        let told = self
            .hub
            .apply_update_summary(update, &mut self.clock, &mut lists)?;
        Ok([told.added, told.updated, told.changed, told.removed])
    }

    // By a walk over the entries of the update, also where it has one alone.
    fn walk(&mut self, update: &[u8]) -> Result<(), AwarenessFault> {
        let update = ArrivedUpdate::read(update)?;
        Ok(
            self.hub
                .apply_update(&update, &mut self.clock, &mut Nobody)?,
        )
    }

    // How many clients each list has then; what is no update tells of none.
    fn ask(&mut self, ask: Ask) -> Result<[usize; 4], AwarenessFault> {
        match ask {
            Ask::Apply(update) => return self.apply(update),
            Ask::Set(text) => self.hub.set_local_state_raw(text, &mut self.clock)?,
            Ask::Remove(client) => self.hub.remove_state(client, &mut self.clock)?,
            Ask::Clean => self.hub.clean_local_state(&mut self.clock)?,
        }
        Ok([0; 4])
    }

    fn held(&self, client: u64) -> Result<Held, WireFault> {
        let held = match self.hub.meta(client)? {
            None => Held::Nothing,
            Some(r) if r.state().is_some() => Held::Live(r.clock(), r.time()),
            Some(r) => Held::Null(r.clock(), r.time()),
        };
        Ok(held)
    }

    // The first places of the four lists.
    fn firsts(&self) -> [[u64; 3]; 4] {
        [
            front(&self.added),
            front(&self.updated),
            front(&self.changed),
            front(&self.removed),
        ]
    }
}

fn front(list: &[u64; 64]) -> [u64; 3] {
    [list[0], list[1], list[2]]
}

// What is asked, what is told, then of a client what is held, and the clock's next reading.
#[derive(Clone, Copy)]
struct Step<'a>(
    Ask<'a>,
    Result<[usize; 4], AwarenessFault>,
    (u64, Held),
    u64,
);

// Calls come one after another.
fn check_steps(rt: &impl Abort, site: &mut Site, steps: &[Step]) -> Result<(), Fail> {
    for Step(ask, told, (client, held), reading) in steps {
        let came = (site.ask(*ask), site.held(*client)?, site.clock.reading);
        assert_eq!(rt; came, (*told, *held, *reading));
    }
    Ok(())
}

#[test]
fn an_own_text_stands_above_nulls(rt: HostRuntime) -> Result<(), Fail> {
    let comes = Ask::Apply(b"\x01\x01\x05\x011");
    let goes = Ask::Apply(b"\x01\x01\x05\x04null");
    let older = Ask::Apply(b"\x01\x01\x04\x04null");
    let last_but_one = Ask::Apply(b"\x01\x01\xfe\xff\xff\xff\x0f\x04null");
    let last = Ask::Apply(b"\x01\x01\xff\xff\xff\xff\x0f\x04null");
    let at_end = (1, Held::Live(u32::MAX, 104));
    let steps = [
        Step(comes, Ok([1, 0, 0, 0]), (1, Held::Live(5, 100)), 101),
        Step(goes, Ok([0, 1, 0, 0]), (1, Held::Live(6, 101)), 102),
        Step(goes, Ok([0; 4]), (1, Held::Live(6, 101)), 103),
        Step(older, Ok([0; 4]), (1, Held::Live(6, 101)), 104),
        Step(last_but_one, Ok([0, 1, 0, 0]), at_end, 105),
        Step(last, Err(CLOCK_AT_END), at_end, 105),
        Step(Ask::Apply(b"\x00"), Ok([0; 4]), at_end, 106),
    ];
    let mut site = Site::new()?;
    check_steps(&rt, &mut site, &steps)?;
    assert_eq!(rt; &site.updated[..2], [1, NO_CLIENT].as_slice());
    Ok(())
}

#[test]
fn null_wins_a_tie_and_the_first_text(rt: HostRuntime) -> Result<(), Fail> {
    let comes = Ask::Apply(b"\x01\x07\x03\x04\"in\"");
    let goes = Ask::Apply(b"\x01\x07\x03\x04null");
    let returns = Ask::Apply(b"\x01\x07\x04\x011");
    let another = Ask::Apply(b"\x01\x07\x04\x012");
    let later = Ask::Apply(b"\x01\x07\x05\x011");
    let null_alone = Ask::Apply(b"\x01\x05\x01\x04null");
    let steps = [
        Step(comes, Ok([1, 0, 0, 0]), (7, Held::Live(3, 100)), 101),
        Step(goes, Ok([0, 0, 0, 1]), (7, Held::Null(3, 101)), 102),
        Step(comes, Ok([0; 4]), (7, Held::Null(3, 101)), 103),
        Step(returns, Ok([0, 1, 1, 0]), (7, Held::Live(4, 103)), 104),
        Step(another, Ok([0; 4]), (7, Held::Live(4, 103)), 105),
        Step(later, Ok([0, 1, 0, 0]), (7, Held::Live(5, 105)), 106),
        Step(null_alone, Ok([0; 4]), (5, Held::Null(1, 106)), 107),
    ];
    let mut site = Site::new()?;
    check_steps(&rt, &mut site, &steps)?;
    let mut out = [0; 5];
    site.hub.update(&mut out)?;
    assert_eq!(rt; out, *b"\x01\x07\x05\x011");
    Ok(())
}

#[test]
fn lists_ascend_and_a_client_can_be_in_each(rt: HostRuntime) -> Result<(), Fail> {
    let all = Ask::Apply(b"\x04\x09\x01\x011\x07\x01\x011\x07\x02\x012\x07\x03\x04null");
    let mut site = Site::new()?;
    let steps = [Step(all, Ok([2, 1, 1, 1]), (7, Held::Null(3, 100)), 101)];
    check_steps(&rt, &mut site, &steps)?;
    let seven = [7, NO_CLIENT, NO_CLIENT];
    assert_eq!(rt; site.firsts(), [[7, 9, NO_CLIENT], seven, seven, seven]);
    Ok(())
}

// An update of the 63 clients from 2 on, each at clock 1 with a text of one digit.
fn many() -> [u8; 253] {
    let mut update = [b'1'; 253];
    update[0] = 63;
    for i in 0u8..63 {
        let at = 1 + 4 * i as usize;
        update[at] = 2 + i;
        update[at + 1] = 1;
        update[at + 2] = 1;
    }
    update
}

// 64 clients, of whom one comes by this update.
fn full(first: &[u8]) -> Result<Site, Fail> {
    let mut site = Site::new()?;
    site.apply(first)?;
    site.apply(&many())?;
    Ok(site)
}

// The own client, live at the last clock.
const OWN_AT_END: &[u8] = b"\x01\x01\xff\xff\xff\xff\x0f\x011";

// The table is judged before the own clock, in each call.
#[test]
fn a_65th_client_is_refused(rt: HostRuntime) -> Result<(), Fail> {
    let one = Ask::Apply(b"\x01\x41\x01\x011");
    let both = Ask::Apply(b"\x02\x01\xff\xff\xff\xff\x0f\x04null\x41\x01\x011");
    let known = Ask::Apply(b"\x02\x01\xff\xff\xff\xff\x0f\x04null\x40\x02\x011");
    let later = Ask::Apply(b"\x01\x40\x02\x012");
    let again = many();
    let own = (1, Held::Live(u32::MAX, 100));
    let steps = [
        Step(one, Err(TOO_MANY_CLIENTS), own, 102),
        Step(both, Err(TOO_MANY_CLIENTS), own, 102),
        Step(known, Err(CLOCK_AT_END), own, 102),
        Step(later, Ok([0, 1, 1, 0]), (64, Held::Live(2, 102)), 103),
        Step(
            Ask::Apply(&again),
            Ok([0; 4]),
            (64, Held::Live(2, 102)),
            104,
        ),
    ];
    let mut site = full(OWN_AT_END)?;
    check_steps(&rt, &mut site, &steps)?;
    assert_eq!(rt; site.hub.records().len(), 64);
    Ok(())
}

#[test]
fn a_full_table_refuses_removals_and_sets(rt: HostRuntime) -> Result<(), Fail> {
    let own = (1, Held::Live(u32::MAX, 100));
    let steps = [
        Step(
            Ask::Remove(65),
            Err(TOO_MANY_CLIENTS),
            (65, Held::Nothing),
            102,
        ),
        Step(Ask::Remove(1), Err(CLOCK_AT_END), own, 102),
        Step(Ask::Clean, Err(CLOCK_AT_END), own, 102),
        Step(Ask::Set(b"2"), Err(CLOCK_AT_END), own, 102),
    ];
    let mut site = full(OWN_AT_END)?;
    check_steps(&rt, &mut site, &steps)?;
    assert_eq!(rt; site.hub.records().len(), 64);
    Ok(())
}

#[test]
fn no_place_for_the_own_client(rt: HostRuntime) -> Result<(), Fail> {
    let steps = [
        Step(
            Ask::Set(b"1"),
            Err(TOO_MANY_CLIENTS),
            (1, Held::Nothing),
            102,
        ),
        Step(Ask::Clean, Err(TOO_MANY_CLIENTS), (1, Held::Nothing), 102),
    ];
    check_steps(&rt, &mut full(b"\x01\x41\x01\x011")?, &steps)
}

// Each fault of the bytes of an update.
#[test]
fn updates_that_cannot_be_read(rt: HostRuntime) -> Result<(), Fail> {
    let mut long = [b'1'; 262];
    long[0..5].copy_from_slice(b"\x01\x07\x03\x81\x02");
    let table: [(&[u8], WireFault); 6] = [
        (
            b"\x01\x07\x80\x80\x80\x80\x10\x011",
            WireFault::InvalidVarInt,
        ),
        (b"\x02\x07\x03\x011", WireFault::EndOfBuffer),
        (b"\x01\x07\x03\x01\xff", WireFault::UnexpectedValue),
        (
            b"\x01\x80\x80\x80\x80\x80\x80\x80\x10\x03\x011",
            WireFault::InvalidClientId,
        ),
        (b"\x41", WireFault::TooManyEntries),
        (&long, WireFault::TextTooLong),
    ];
    let mut site = Site::new()?;
    for (update, fault) in table {
        assert_eq!(rt; site.apply(update), Err(AwarenessFault::Wire(fault)));
    }
    assert_eq!(rt; (site.hub.records().len(), site.clock.reading), (0, 100));
    Ok(())
}

// Too few places come before all else.
#[test]
fn each_list_needs_64_places(rt: HostRuntime) -> Result<(), Fail> {
    let mut site = Site::new()?;
    let mut few = [NO_CLIENT; 63];
    let mut lists = ChangeLists {
        added: &mut site.added,
        updated: &mut site.updated,
        changed: &mut site.changed,
        removed: &mut few,
    };
    let told = site
        .hub
        .apply_update_summary(b"\x41", &mut site.clock, &mut lists);
    assert_eq!(rt; told, Err(AwarenessFault::Short));
    assert_eq!(rt; site.clock.reading, 100);
    Ok(())
}

// A null set is no text, and the own client that is made null keeps its time.
#[test]
fn the_own_state_is_set(rt: HostRuntime) -> Result<(), Fail> {
    let longest = [b'1'; 256];
    let steps = [
        Step(Ask::Set(b"1"), Ok([0; 4]), (1, Held::Live(1, 100)), 101),
        Step(Ask::Set(b"null"), Ok([0; 4]), (1, Held::Null(2, 101)), 102),
        Step(Ask::Set(&longest), Ok([0; 4]), (1, Held::Live(3, 102)), 103),
        Step(Ask::Clean, Ok([0; 4]), (1, Held::Null(4, 102)), 103),
    ];
    check_steps(&rt, &mut Site::new()?, &steps)
}

#[test]
fn no_text_is_set_that_cannot_be_read(rt: HostRuntime) -> Result<(), Fail> {
    let too_long = AwarenessFault::Wire(WireFault::TextTooLong);
    let no_text = AwarenessFault::Wire(WireFault::UnexpectedValue);
    let held = (1, Held::Live(1, 100));
    let steps = [
        Step(Ask::Set(b"1"), Ok([0; 4]), held, 101),
        Step(Ask::Set(&[b'1'; 257]), Err(too_long), held, 101),
        Step(Ask::Set(b"\xff"), Err(no_text), held, 101),
    ];
    check_steps(&rt, &mut Site::new()?, &steps)
}

// The clock is read where nothing was held.
#[test]
fn clients_are_removed(rt: HostRuntime) -> Result<(), Fail> {
    let comes = Ask::Apply(b"\x01\x07\x03\x011");
    let no_id = AwarenessFault::Wire(WireFault::InvalidClientId);
    let steps = [
        Step(comes, Ok([1, 0, 0, 0]), (7, Held::Live(3, 100)), 101),
        Step(Ask::Remove(7), Ok([0; 4]), (7, Held::Null(4, 100)), 101),
        Step(Ask::Remove(9), Ok([0; 4]), (9, Held::Null(1, 101)), 102),
        Step(
            Ask::Remove(NO_CLIENT),
            Err(no_id),
            (9, Held::Null(1, 101)),
            102,
        ),
    ];
    check_steps(&rt, &mut Site::new()?, &steps)
}

#[test]
fn ids_are_below_2_to_the_53(rt: HostRuntime) -> Result<(), Fail> {
    assert!(rt; Awareness::new(NO_CLIENT).is_err());
    let last = Awareness::new(NO_CLIENT - 1)?;
    assert_eq!(rt; last.client_id(), NO_CLIENT - 1);
    assert_eq!(rt;
        last.meta(NO_CLIENT).err(),
        Some(WireFault::InvalidClientId)
    );
    Ok(())
}

// Three clients of whom one is gone.
fn three() -> Result<Awareness, Fail> {
    let mut site = Site::new()?;
    site.apply(b"\x03\x09\x01\x013\x05\x02\x011\x07\x03\x04null")?;
    Ok(site.hub)
}

// What is answered, and what stands in a buffer then: the update of some clients, or of all that are live.
fn written<const N: usize>(
    hub: &Awareness,
    clients: Option<&[u64]>,
) -> (Result<usize, AwarenessFault>, [u8; N]) {
    let mut out = [0xee; N];
    let answer = match clients {
        Some(clients) => hub.update_with_clients(clients, &mut out),
        None => hub.update(&mut out).map_err(AwarenessFault::from),
    };
    (answer, out)
}

#[test]
fn updates_are_written(rt: HostRuntime) -> Result<(), Fail> {
    let table: [(Option<&[u64]>, usize, [u8; 12]); 3] = [
        (None, 9, *b"\x02\x05\x02\x011\x09\x01\x013\xee\xee\xee"),
        (Some(&[7, 5, 7]), 12, *b"\x02\x05\x02\x011\x07\x03\x04null"),
        (
            Some(&[]),
            1,
            *b"\x00\xee\xee\xee\xee\xee\xee\xee\xee\xee\xee\xee",
        ),
    ];
    let hub = three()?;
    for (clients, len, bytes) in table {
        assert_eq!(rt; written(&hub, clients), (Ok(len), bytes));
    }
    assert_eq!(rt; hub.live().count(), 2);
    Ok(())
}

#[test]
fn a_short_buffer_is_left_alone(rt: HostRuntime) -> Result<(), Fail> {
    let hub = three()?;
    let table: [Option<&[u64]>; 2] = [None, Some(&[5, 7])];
    for clients in table {
        let refused = (Err(AwarenessFault::Short), [0xee; 8]);
        assert_eq!(rt; written(&hub, clients), refused);
    }
    Ok(())
}

// At most 64 ids, then the ids, then who is known, then whether there is room.
#[test]
fn clients_asked_for_are_judged_in_order(rt: HostRuntime) -> Result<(), Fail> {
    let hub = three()?;
    let mut ids = [8; 65];
    ids[1] = NO_CLIENT;
    let table: [(&[u64], AwarenessFault); 5] = [
        (&ids, AwarenessFault::Wire(WireFault::TooManyEntries)),
        (&ids[1..], AwarenessFault::Wire(WireFault::InvalidClientId)),
        (&ids[2..], CLIENT_NOT_FOUND),
        (&[5, 8], CLIENT_NOT_FOUND),
        (&[5, 9], AwarenessFault::Short),
    ];
    for (clients, fault) in table {
        assert_eq!(rt; written(&hub, Some(clients)), (Err(fault), [0xee; 4]));
    }
    Ok(())
}

// What wins where the first entry of an update meets what is held of its client.
fn winner<'a>(hub: &'a Awareness, update: &'a [u8]) -> Result<Option<&'a [u8]>, Fail> {
    let update = ArrivedUpdate::read(update)?;
    let Some(e) = update.iter().next() else {
        return Err(Fail::new("an entry"));
    };
    let Some(held) = hub.meta(e.client())? else {
        return Err(Fail::new("a record"));
    };
    Ok(winning_text(hub.client_id(), held, &e))
}

#[test]
fn the_winning_text_is_one_of_the_two(rt: HostRuntime) -> Result<(), Fail> {
    let mut site = Site::new()?;
    site.apply(b"\x02\x07\x03\x011\x01\x03\x012")?;
    let table: [(&[u8], Option<&[u8]>); 6] = [
        (b"\x01\x07\x03\x013", Some(b"1")),
        (b"\x01\x07\x04\x013", Some(b"3")),
        (b"\x01\x07\x03\x04null", None),
        (b"\x01\x07\x02\x04null", Some(b"1")),
        (b"\x01\x01\x04\x04null", Some(b"2")),
        (b"\x01\x01\x04\x013", Some(b"3")),
    ];
    for (update, text) in table {
        assert_eq!(rt; winner(&site.hub, update)?, text);
    }
    Ok(())
}

// Three readings, one after another.
fn readings(mut clock: impl Clock + Drop) -> [u64; 3] {
    [clock.now(), clock.now(), clock.now()]
}

// A set clock stays, and a step clock stays at its end.
#[test]
fn clocks_tell_readings(rt: HostRuntime) {
    let last = u64::MAX;
    assert_eq!(rt; readings(SetClock { reading: 7 }), [7; 3]);
    assert_eq!(rt;
        readings(StepClock { reading: last - 1 }),
        [last - 1, last, last]
    );
}

#[test]
fn an_update_is_taken_with_nobody_told(rt: HostRuntime) -> Result<(), Fail> {
    let mut hub = Awareness::new(1)?;
    let update = ArrivedUpdate::read(b"\x01\x07\x03\x011")?;
    hub.apply_update(&update, &mut SetClock { reading: 7 }, &mut Nobody)?;
    assert_eq!(rt; hub.records().len(), 1);
    Ok(())
}

// An entry that comes alone is taken in one reading, and does what a walk over its update does.
#[test]
fn an_entry_alone_does_what_its_update_does(rt: HostRuntime) -> Result<(), Fail> {
    let updates: [&[u8]; 8] = [
        b"\x01\x01\x05\x011",
        b"\x01\x01\x05\x04null",
        b"\x01\x01\xff\xff\xff\xff\x0f\x04null",
        b"\x01\x07\x03\x011",
        b"\x01\x07\x03\x012",
        b"\x01\x07\x03\x04null",
        b"\x01\x07\x04",
        b"\x00",
    ];
    let mut alone = Site::new()?;
    let mut walked = Site::new()?;
    for update in updates {
        let answer = alone.hub.apply_bytes(update, &mut alone.clock, &mut Nobody);
        assert_eq!(rt; answer, walked.walk(update));
        for client in [1, 7] {
            assert_eq!(rt; alone.held(client)?, walked.held(client)?);
        }
    }
    assert_eq!(rt; alone.clock.reading, walked.clock.reading);
    assert_eq!(rt; alone.held(1)?, Held::Live(6, 101));
    assert_eq!(rt; alone.held(7)?, Held::Null(3, 104));
    Ok(())
}

#[test]
fn faults_have_numbers(rt: HostRuntime) {
    let table = [
        (AwarenessFault::Wire(WireFault::InvalidVarInt), 1),
        (AwarenessFault::Presence(PresenceFault::TooManyClients), 7),
        (AwarenessFault::Presence(PresenceFault::ClockAtEnd), 8),
        (AwarenessFault::Presence(PresenceFault::ClientNotFound), 9),
        (AwarenessFault::Short, 14),
    ];
    for (fault, number) in table {
        assert_eq!(rt; fault.number(), number);
    }
}
