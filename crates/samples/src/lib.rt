// The samples of the handbook that are proved from the definitions.
#![tactic(auto)]

ghost use Rattle.samples.specs.Samples.{Samples};

// The sample questions, calls and readings have the outcomes that the handbook gives.
pub fn samples_hold()
    ensures { Samples }
{}
