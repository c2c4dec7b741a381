//! Two checked programs that correspond behave alike: definitions and a law, no code.
#![tactic(auto)]

ghost use Rattle.program_maps.specs.Behave.{CorrespondingAlike};

/// Programs that correspond print the same bytes, enter the same methods and end alike, for all arguments and every bound.
pub fn corresponding_alike()
    ensures { CorrespondingAlike }
{}
