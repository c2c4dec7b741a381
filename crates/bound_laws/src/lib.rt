//! Runs of one program within different bounds.
#![tactic(auto)]

ghost use Rattle.bound_laws.specs.Bounds.{RunsGoOn};

/// What a run prints and enters within a bound is a prefix of what it does within a larger one, and a run that ends within its bound ends so within every larger one.
pub fn runs_go_on()
    ensures { RunsGoOn }
{}
