//! How often a call on files failed.

ghost use Rattle.std.specs.Prelude.{◌≡◌};
ghost use Rattle.tool_files.specs.Counts.{raised, no_counts, counts_after_read, counts_after_write};

use crate::traits::{FileFault, WriteFailed};

/// How often a name was absent, a read failed, and a write failed, each up to 2^64 - 1.
#[derive(Clone, Copy, Debug, PartialEq, Eq)]
pub struct FileCounts {
    pub misses: u64,
    pub read_faults: u64,
    pub write_faults: u64,
}

impl FileCounts {
    pub(crate) fn new() -> FileCounts
        ensures { result ≡ no_counts }
    {
        FileCounts {
            misses: 0,
            read_faults: 0,
            write_faults: 0,
        }
    }

    /// Counts what a read answered.
    pub(crate) fn count_read(&mut self, answer: Result<(), FileFault>)
        ensures { self.new ≡ counts_after_read self.old answer }
    {
        match answer {
            Err(FileFault::Missing) => raise(&mut self.misses),
            Err(FileFault::Failed) => raise(&mut self.read_faults),
            Ok(()) | Err(FileFault::NoMemory) => {}
        }
    }

    /// Counts what a write answered.
    pub(crate) fn count_write(&mut self, answer: Result<(), WriteFailed>)
        ensures { self.new ≡ counts_after_write self.old answer }
    {
        if answer.is_err() {
            raise(&mut self.write_faults);
        }
    }
}

/// One more, where 2^64 - 1 is the last.
pub(crate) fn raise(count: &mut u64)
    ensures { count.new ≡ raised count.old }
{
    *count = count.saturating_add(1);
}
