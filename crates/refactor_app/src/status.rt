//! How a call ends.

ghost use Rattle.std.specs.Prelude.{◌≡◌};
ghost use Rattle.refactor_app.specs.Running as spec;

use core_meaning::End;

/// What became of a call. A process ends with its number: 0 to 7 in this order, then 10 and 11.
#[derive(Clone, Copy, Debug, PartialEq, Eq)]
pub enum Status {
    Done,
    Refused,
    Usage,
    Missing,
    ReadFault,
    WriteFault,
    OutFault,
    NoMemory,
    Threw,
    Bound,
}

/// How a call ends whose run ends so.
pub(crate) fn run_status(end: End) -> Status
    ensures { result ≡ spec.run_status end }
{
    match end {
        End::Normal => Status::Done,
        End::Threw(_) => Status::Threw,
        End::AtBound => Status::Bound,
    }
}
