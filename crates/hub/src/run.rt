// Calls, made one after another on a fresh hub.
ghost use Rattle.std.specs.Prelude.{◌≡◌, take, drop, length, IfOk, IfErr, Ok};
ghost use Rattle.std.specs.Result.{result_map_both};
ghost use Rattle.message.specs.Message.{Said};
ghost use Rattle.hub.specs.Lawful.{Keeps};
ghost use Rattle.hub.specs.Running.{answer_applied, answer_done, answer_written, bytes_in, clients_in, clients_lent, places_lent, places_left, run_verdict, Beyond, CallTold, Ran};
ghost use Rattle.hub.specs.Steps.{hub_of};

use crate::hub::Hub;
use awareness::clock::Clock;
use awareness::record::Record;
use awareness::summary::{AwarenessUpdateSummary, ChangeLists};
use calls::answer::{Handled, Refusal};
use calls::fault::Fault;
use calls::policy::Policy;
use document::host::DocumentHost;

// A call, with what it borrows.
#[derive(Clone, Copy)]
pub enum Call<'a> {
    // messages
    Handle(&'a [u8]),
    // a presence update
    Apply(&'a [u8]),
    // a text for the own client
    Set(&'a [u8]),
    Clean,
    Remove(u64),
    Step1,
    Start,
    Show(u64),
    // the clients whose update is asked for
    List(&'a [u64]),
}

// What a call tells; its bytes and its clients stand in the caller's places.
#[derive(Drop)]
pub enum Answer {
    // to a handle, with the length of its replies
    Handled(Result<Handled, Refusal>),
    // to an apply, by how many clients each list has
    Applied(AwarenessUpdateSummary),
    Done,
    // so many bytes
    Written(usize),
    Shown(Option<Record>),
    // any call but handle, for a fault
    Refused(Fault),
}

// No client in any list.
const NO_CLIENTS: AwarenessUpdateSummary = AwarenessUpdateSummary {
    added: 0,
    updated: 0,
    changed: 0,
    removed: 0,
};

impl Answer {
    // Of a call that is done or refused.
    fn done(answer: Result<(), Refusal>) -> Answer
        ensures { result ≡ answer_done answer }
    {
        match answer {
            Ok(()) => Answer::Done,
            Err(refusal) => Answer::Refused(refusal.fault),
        }
    }

    // Of a call that writes.
    fn written(answer: Result<usize, Refusal>) -> Answer
        ensures { result ≡ answer_written answer }
    {
        match answer {
            Ok(len) => Answer::Written(len),
            Err(refusal) => Answer::Refused(refusal.fault),
        }
    }

    // Of an apply.
    fn applied(answer: Result<AwarenessUpdateSummary, Refusal>) -> Answer
        ensures { result ≡ answer_applied answer }
    {
        match answer {
            Ok(lengths) => Answer::Applied(lengths),
            Err(refusal) => Answer::Refused(refusal.fault),
        }
    }

    // How many bytes belong to it.
    pub fn bytes(&self) -> usize
        ensures { result ≡ bytes_in self.now }
    {
        match self {
            Answer::Handled(Ok(done)) => done.replies,
            Answer::Handled(Err(refusal)) => refusal.replies,
            Answer::Written(len) => *len,
            Answer::Applied(_) | Answer::Done | Answer::Shown(_) | Answer::Refused(_) => 0,
        }
    }

    // How many clients in each list belong to it.
    pub fn clients(&self) -> AwarenessUpdateSummary
        ensures { result ≡ clients_in self.now }
    {
        match self {
            Answer::Applied(lengths) => *lengths,
            Answer::Handled(_)
            | Answer::Done
            | Answer::Written(_)
            | Answer::Shown(_)
            | Answer::Refused(_) => NO_CLIENTS,
        }
    }
}

impl<H: DocumentHost, C: Clock, P: Policy> Hub<H, C, P> {
    // Makes a call, whichever it is.
    pub fn call(&mut self, call: Call<'_>, out: &mut [u8], lists: &mut ChangeLists<'_>) -> Answer
        ensures law { Keeps H.kind H.LIMIT (P.Policy.accepts self.old.policy) (P.Policy.accepts self.new.policy) (CallTold C.Clock.next C.Clock.leads call.entry result (record { bytes = out.new; lists = clients_lent lists.new }) self.old.clock self.new.clock) (hub_of H.kind self.old.presence (H.document self.old.host)) (hub_of H.kind self.new.presence (H.document self.new.host)) }
        ensures beyond { Beyond (bytes_in result) (clients_in result) (record { bytes = out.old; lists = clients_lent lists.old }) (record { bytes = out.new; lists = clients_lent lists.new }) }
        ensures added_is { lists.new.added.ghost_name ≡ lists.old.added.ghost_name }
        ensures updated_is { lists.new.updated.ghost_name ≡ lists.old.updated.ghost_name }
        ensures changed_is { lists.new.changed.ghost_name ≡ lists.old.changed.ghost_name }
        ensures removed_is { lists.new.removed.ghost_name ≡ lists.old.removed.ghost_name }
        ensures policy { (m : Said) → P.Policy.accepts self.new.policy m ≡ P.Policy.accepts self.old.policy m }
    {
        match call {
            Call::Handle(bytes) => Answer::Handled(self.handle(bytes, out)),
            Call::Apply(update) => Answer::applied(self.apply(update, lists)),
            Call::Set(text) => Answer::done(self.set(text)),
            Call::Clean => Answer::done(self.clean()),
            Call::Remove(client) => Answer::done(self.remove(client)),
            Call::Step1 => Answer::written(self.step1(out)),
            Call::Start => Answer::written(self.start(out)),
            Call::Show(client) => match self.show(client) {
                Ok(held) => Answer::Shown(held.map(|record| record.copy())),
                Err(refusal) => Answer::Refused(refusal.fault),
            },
            Call::List(clients) => Answer::written(self.list(clients, out)),
        }
    }

    // The same, with the lists one by one: parts of longer ones.
    fn call_into(
        &mut self,
        call: Call<'_>,
        out: &mut [u8],
        added: &mut [u64],
        updated: &mut [u64],
        changed: &mut [u64],
        removed: &mut [u64],
    ) -> Answer
        ensures law { Keeps H.kind H.LIMIT (P.Policy.accepts self.old.policy) (P.Policy.accepts self.new.policy) (CallTold C.Clock.next C.Clock.leads call.entry result (record { bytes = out.new; lists = record { added = added.new; updated = updated.new; changed = changed.new; removed = removed.new } }) self.old.clock self.new.clock) (hub_of H.kind self.old.presence (H.document self.old.host)) (hub_of H.kind self.new.presence (H.document self.new.host)) }
        ensures beyond { Beyond (bytes_in result) (clients_in result) (record { bytes = out.old; lists = record { added = added.old; updated = updated.old; changed = changed.old; removed = removed.old } }) (record { bytes = out.new; lists = record { added = added.new; updated = updated.new; changed = changed.new; removed = removed.new } }) }
        ensures policy { (m : Said) → P.Policy.accepts self.new.policy m ≡ P.Policy.accepts self.old.policy m }
    {
        let mut lists = ChangeLists {
            added,
            updated,
            changed,
            removed,
        };
        self.call(call, out, &mut lists)
    }
}

// What the caller lends for the answers to calls: places for bytes, and for the clients of each list.
#[derive(Drop)]
pub struct Lent<'o, 'a, 'u, 'c, 'r> {
    pub out: &'o mut [u8],
    pub added: &'a mut [u64],
    pub updated: &'u mut [u64],
    pub changed: &'c mut [u64],
    pub removed: &'r mut [u64],
}

// Makes calls in turn on a fresh hub and notes each answer; bytes are written one after another, and so are the clients of each list. With an id that no client can have (4), or fewer places for answers than calls (14), none is made.
pub fn run<H: DocumentHost + Drop, C: Clock + Drop, P: Policy + Drop>(
    own: u64,
    calls: &[Call<'_>],
    clock: C,
    policy: P,
    answers: &mut [Answer],
    lent: Lent<'_, '_, '_, '_, '_>,
) -> Result<Hub<H, C, P>, Fault>
    ensures verdict { result_map_both (λ h. tt) (λ f. f) result ≡ run_verdict own (length calls.now) (length answers.old) }
    ensures law { IfOk result (λ h. Ran C.Clock.next C.Clock.leads H.kind H.LIMIT (P.Policy.accepts policy) own calls.now clock (take (length calls.now) answers.new) (places_lent lent.entry) (places_left lent.exit) (hub_of H.kind h.presence (H.document h.host)) h.clock) }
    ensures policy { IfOk result (λ h. (m : Said) → P.Policy.accepts h.policy m ≡ P.Policy.accepts policy m) }
    ensures answers_left { drop (length calls.now) answers.new ≡ drop (length calls.now) answers.old }
    ensures unmade { IfErr result (λ f. (answers.new ≡ answers.old) × (places_left lent.exit ≡ places_lent lent.entry)) }
{
    let mut hub = Hub::new(own, clock, policy)?;
    if answers.len() < calls.len() {
        return Err(Fault::Buffer);
    }
    let Lent {
        out,
        added,
        updated,
        changed,
        removed,
    } = lent;
    let mut bytes = 0;
    let mut clients = NO_CLIENTS;
    for (i, call) in calls.iter().enumerate() {
        let answer = hub.call_into(
            *call,
            &mut out[bytes..],
            &mut added[clients.added..],
            &mut updated[clients.updated..],
            &mut changed[clients.changed..],
            &mut removed[clients.removed..],
        );
        bytes += answer.bytes();
        let listed = answer.clients();
        clients.added += listed.added;
        clients.updated += listed.updated;
        clients.changed += listed.changed;
        clients.removed += listed.removed;
        answers[i] = answer;
    }
    Ok(hub)
}
