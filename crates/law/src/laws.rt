// What every run of calls comes to, over any host: each the contract of a function.
ghost use Rattle.law.specs.Promises.{EveryRunKeepsTheLaw, OneCallMoreKeepsTheLaw, TheLawLeavesNothingOpen, WhatHappenedIsHeld, SameVerdictsSameLaw, EveryCallCanBeMade, OwnTextsStay};

use document::host::DocumentHost;

// From a fresh hub on every run keeps the law, whatever the policy's verdicts and the readings of the clock are.
#[tactic(auto, using(crate::proofs::Keeping::every_run_keeps_the_law))]
pub fn every_run_keeps_the_law<H: DocumentHost>()
    ensures { EveryRunKeepsTheLaw H.kind H.LIMIT }
{}

// A hub that keeps the law after a history keeps it after one call more.
pub fn one_call_more_keeps_the_law<H: DocumentHost>()
    ensures { OneCallMoreKeepsTheLaw H.kind H.LIMIT }
{}

// Two hubs that keep the law with one history hold the same.
pub fn the_law_leaves_nothing_open<H: DocumentHost>()
    ensures { TheLawLeavesNothingOpen H.kind H.LIMIT }
{}

// Of each client a hub holds what happened.
pub fn what_happened_is_held<H: DocumentHost>()
    ensures { WhatHappenedIsHeld H.kind H.LIMIT }
{}

// The law asks nothing of a policy but its verdicts.
pub fn same_verdicts_same_law<H: DocumentHost>()
    ensures { SameVerdictsSameLaw H.kind H.LIMIT }
{}

// Every call can be made on every hub.
pub fn every_call_can_be_made<H: DocumentHost>()
    ensures { EveryCallCanBeMade H.kind H.LIMIT }
{}

// Nothing received makes a live own text null.
#[tactic(auto, using(crate::proofs::Texts::own_texts_stay_live))]
pub fn own_texts_stay<H: DocumentHost>()
    ensures { OwnTextsStay H.kind H.LIMIT }
{}
