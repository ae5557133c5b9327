// Which hub is driven, by its types.
use crate::driven::{Setup, Ticking, Turned};
use awareness::clock::{SetClock, StepClock};
use boards::count_board::CountBoard;
use boards::slot_board::SlotBoard;
use call_line::call::{Board, Rules};
use calls::policy::{DefaultPolicy, Policy, TagRanges};
use document::host::DocumentHost;
use document::tally::Tally;

// What is done with a hub, whatever its document, clock and policy.
pub trait Task {
    type Outcome;

    fn with<H: DocumentHost + Drop, C: Turned + Drop, P: Policy + Drop>(
        self,
        clock: C,
        policy: P,
    ) -> Self::Outcome;
}

// Over a host and a policy, with the clock that is asked for.
fn with_policy<H: DocumentHost + Drop, P: Policy + Drop, T: Task>(
    task: T,
    clock: Ticking,
    policy: P,
) -> T::Outcome {
    match clock {
        Ticking::Set(reading) => task.with::<H, SetClock, P>(SetClock { reading }, policy),
        Ticking::Step(reading) => task.with::<H, StepClock, P>(StepClock { reading }, policy),
    }
}

// Over a host, with the policy that is asked for.
fn with_host<H: DocumentHost + Drop, T: Task>(task: T, setup: Setup) -> T::Outcome {
    let Setup { rules, clock, .. } = setup;
    match rules {
        Rules::Default => with_policy::<H, DefaultPolicy, T>(task, clock, DefaultPolicy),
        Rules::Ranges => with_policy::<H, TagRanges, T>(task, clock, TagRanges::new()),
    }
}

// Over the host, the policy and the clock that are asked for.
pub fn with_setup<T: Task>(task: T, setup: Setup) -> T::Outcome {
    match setup.board {
        Board::Count => with_host::<Tally<CountBoard>, T>(task, setup),
        Board::Slot => with_host::<Tally<SlotBoard>, T>(task, setup),
    }
}
