// The laws of views. The functions do nothing: their contracts are the laws.
ghost use Rattle.ecr_model.specs.requests.Requests.{Decided};
ghost use Rattle.ecr_model.specs.declared.requests.reply.Reply.{Reply};
ghost use Rattle.ecr_model.specs.examples.ViewExample.{ACallIsVisited};
ghost use Rattle.ecr_model.specs.laws.ViewLaws.{AnswersStay, HaltsFirst, HaltsGoOn, HaltsRunTo, HaltsThen, OwnLinesAreEntered, RunsToHalt, RunsVisit, VisitsGoOn, VisitsHalt, VisitsPart, VisitsRun, VisitsThen, WhatWasSeenStays};

/// A turn at a ticket that the caller has passed comes to the same over each journal that it sees later.
pub fn what_was_seen_stays()
    ensures stays { WhatWasSeenStays }
{}

/// Each view goes on from the one before: its journal only grows, by lines that weren't passed.
pub fn views_go_on()
    ensures whole { VisitsGoOn Decided }
    ensures halted { HaltsGoOn Decided }
{}

/// A request whose turns were made has its answer at their places, over all journals that the caller sees later.
pub fn answers_stay()
    ensures stay { AnswersStay Decided }
{}

/// The caller's own lines in a journal are those that its requests' turns entered, each once and in order.
pub fn own_lines_are_entered()
    ensures entered { OwnLinesAreEntered Decided }
{}

/// The turns of one script and then another are the turns of both, whole or halted in the one or the other.
pub fn turns_compose()
    ensures whole { VisitsThen Reply Decided }
    ensures parted { VisitsPart Reply Decided }
    ensures in_the_first { HaltsFirst Reply Decided }
    ensures in_the_second { HaltsThen Reply Decided }
    ensures at_the_end { VisitsHalt Decided }
{}

/// A caller that is alone, and sees whole journals, makes the turns of the run, whole or up to some entry, and no
/// others.
pub fn alone_turns_are_runs()
    ensures visits { RunsVisit Decided }
    ensures runs { VisitsRun Decided }
    ensures halts { RunsToHalt Decided }
    ensures runs_to { HaltsRunTo Decided }
{}

/// The definitions, at one call of one caller among others, come to what is written out in
/// `specs/examples/ViewExample.antt`.
pub fn a_call_is_visited()
    ensures visited { ACallIsVisited }
{}
