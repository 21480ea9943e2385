// The rules of settlement: the figures of a house, its events and refusals, and the definitions and laws of both.
#![tactic(auto)]

ghost use Rattle.rules.specs.Examples.{WorkedExamples};
ghost use Rattle.rules.specs.Fit.{BoundsKept};
ghost use Rattle.rules.specs.Life.{SettlementLaws};

pub mod event;
pub mod fault;
pub mod figures;

// The worked examples hold of the definitions. The function does nothing: its contract asks for their proof.
pub fn examples_hold()
    ensures { WorkedExamples }
{}

// The figures of an opened house fit their types, and every event keeps them so. The function does nothing: its contract asks for the proof.
pub fn bounds_hold()
    ensures { BoundsKept }
{}

// The laws of settlement hold of every list of events, for every lawful rank. The function does nothing: its contract asks for the proof.
pub fn laws_hold()
    ensures { SettlementLaws }
{}
