//! Why a program does not pass.

ghost use Rattle.std.specs.Prelude.{◌≡◌};
ghost use Rattle.checker.specs.Checking as spec;

use checked::Stop;
use java_tree::NoMemory;

/// The first broken rule with the number of its node, one on types, T and its number, before one on flow, F and its number; or memory ran out.
#[derive(Clone, Copy, Debug, PartialEq, Eq)]
pub enum CheckFault {
    Type { node: u32, rule: u8 },
    Flow { node: u32, rule: u8 },
    NoMemory,
}

impl From<NoMemory> for CheckFault {
    ghost use Rattle.std.specs.Prelude.{◌≡◌};
    ghost use Rattle.checker.specs.declared.fault.CheckFault.TheVariants as fault;

    ghost from_gives = { λ _ e. e ≡ fault.NoMemory };

    fn from(_: NoMemory) -> CheckFault {
        CheckFault::NoMemory
    }
}

/// A broken rule on types, or want of memory.
pub(crate) fn type_fault(stop: Stop) -> CheckFault
    ensures { result ≡ spec.type_fault stop }
{
    match stop {
        Stop::Broken { node, rule } => CheckFault::Type { node, rule },
        Stop::NoMemory => CheckFault::NoMemory,
    }
}
