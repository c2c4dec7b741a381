//! Why no core is made.

ghost use Rattle.java_core.specs.Plain as p;
ghost use Rattle.java_core.specs.View.{plain};
ghost use Rattle.checked.specs.Checked.{Checked, Meets};

use java_core::CoreExpr;
use java_tree::{Boxed, NoMemory};
use std::alloc::{AllocError, AllocFailed, Global};

/// The first broken rule on types, T and its number, with the number of its node; or memory ran out.
#[derive(Clone, Copy, Debug, PartialEq, Eq)]
pub enum Stop {
    Broken { node: u32, rule: u8 },
    NoMemory,
}

impl From<AllocError> for Stop {
    ghost use Rattle.std.specs.Prelude.{◌≡◌};
    ghost use Rattle.checked.specs.declared.stop.Stop.TheVariants as stop;

    ghost from_gives = { λ _ e. e ≡ stop.NoMemory };

    fn from(_: AllocError) -> Stop {
        Stop::NoMemory
    }
}

impl<T: Drop> From<AllocFailed<T>> for Stop {
    ghost use Rattle.std.specs.Prelude.{◌≡◌};
    ghost use Rattle.checked.specs.declared.stop.Stop.TheVariants as stop;

    ghost from_gives = { λ _ e. e ≡ stop.NoMemory };

    fn from(_: AllocFailed<T>) -> Stop {
        Stop::NoMemory
    }
}

impl From<NoMemory> for Stop {
    ghost use Rattle.std.specs.Prelude.{◌≡◌};
    ghost use Rattle.checked.specs.declared.stop.Stop.TheVariants as stop;

    ghost from_gives = { λ _ e. e ≡ stop.NoMemory };

    fn from(_: NoMemory) -> Stop {
        Stop::NoMemory
    }
}

/// The answer with its core in a box. Forms take their children so: a function that keeps several trees by value is slow to prove.
pub fn boxed(alloc: Global, of: Result<CoreExpr, Stop>) -> Result<Boxed<CoreExpr>, Stop>
    ensures { (a : Checked p.Expr) → Meets plain of a → Meets plain result a }
{
    let of = of?;
    Ok(Boxed::new(alloc, of)?)
}
