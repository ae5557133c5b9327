// Answers as C is told them.
ghost use Rattle.std.specs.Prelude.{◌≡◌, length};
ghost use Rattle.std.specs.Option.{option_copied};
ghost use Rattle.std.specs.Result.{result_map_both};
ghost use Rattle.hub_c.specs.Told.{number_of, handled_told, changes_told, told_or, held_told, shown_told, held_text, text_told};

use crate::told::{HubChanges, HubHandled, HubRecord};
use awareness::record::Record;
use awareness::summary::AwarenessUpdateSummary;
use calls::answer::{Handled, Refusal};
use calls::fault::Fault;
use encoding::sink::fill;

// The number of a call where no hub was made.
pub(crate) const UNMADE: u8 = 14;

// The number of a call that answers nothing more.
pub(crate) fn number_of(answer: Result<(), Refusal>) -> u8
    ensures { result ≡ number_of answer }
{
    match answer {
        Ok(()) => 0,
        Err(refusal) => refusal.fault.number(),
    }
}

// The number of a handle, and how far it came.
pub(crate) fn tell_handled(answer: Result<Handled, Refusal>, told: &mut HubHandled) -> u8
    ensures number { result ≡ number_of answer }
    ensures told { told.new ≡ handled_told answer }
{
    match answer {
        Ok(done) => {
            *told = HubHandled {
                messages: done.messages,
                place: done.place,
                replies: done.replies,
                wire: 0,
            };
            0
        }
        Err(refusal) => {
            *told = HubHandled {
                messages: refusal.message,
                place: refusal.place,
                replies: refusal.replies,
                wire: refusal.fault.wire().unwrap_or(0),
            };
            refusal.fault.number()
        }
    }
}

// The number of an apply, and the lengths of its lists where it is done.
pub(crate) fn tell_changes(
    answer: Result<AwarenessUpdateSummary, Refusal>,
    told: &mut HubChanges,
) -> u8
    ensures number { result ≡ number_of answer }
    ensures told { told.new ≡ changes_told told.old answer }
{
    match answer {
        Ok(summary) => {
            *told = HubChanges {
                added: summary.added,
                updated: summary.updated,
                changed: summary.changed,
                removed: summary.removed,
            };
            0
        }
        Err(refusal) => refusal.fault.number(),
    }
}

// The number of a call that writes, and the length of what it wrote where it is done.
pub(crate) fn tell_length(answer: Result<usize, Refusal>, told: &mut usize) -> u8
    ensures number { result ≡ number_of answer }
    ensures told { told.new ≡ told_or told.old answer }
{
    match answer {
        Ok(length) => {
            *told = length;
            0
        }
        Err(refusal) => refusal.fault.number(),
    }
}

// What is held of a client, with its text at the front of a buffer.
fn show(held: Option<&Record>, text: &mut [u8]) -> Result<HubRecord, Refusal>
    ensures told { result ≡ held_told (length text.old) (option_copied held.entry) }
    ensures text { text.new ≡ held_text text.old (option_copied held.entry) }
{
    let Some(record) = held else {
        return Ok(HubRecord {
            time: 0,
            clock: 0,
            held: false,
            live: false,
            text: 0,
        });
    };
    let time = record.time();
    let clock = record.clock();
    let (live, length) = match record.state() {
        Some(state) => (true, fill(text, 0, state.as_bytes()).map_err(Fault::from)?),
        None => (false, 0),
    };
    Ok(HubRecord {
        time,
        clock,
        held: true,
        live,
        text: length,
    })
}

// The number of a call that shows what is held of a client, and that where it is done.
pub(crate) fn tell_shown(
    answer: Result<Option<&Record>, Refusal>,
    text: &mut [u8],
    told: &mut HubRecord,
) -> u8
    ensures number { result ≡ number_of (shown_told (length text.old) (result_map_both option_copied (λ x. x) answer.entry)) }
    ensures told { told.new ≡ told_or told.old (shown_told (length text.old) (result_map_both option_copied (λ x. x) answer.entry)) }
    ensures text { text.new ≡ text_told text.old (result_map_both option_copied (λ x. x) answer.entry) }
{
    let shown = match answer {
        Ok(held) => show(held, text),
        Err(refusal) => Err(refusal),
    };
    match shown {
        Ok(record) => {
            *told = record;
            0
        }
        Err(refusal) => refusal.fault.number(),
    }
}
