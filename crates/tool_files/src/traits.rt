//! Files and sinks, by what they tell.

ghost use Rattle.std.specs.Prelude.{◌≡◌, ℕ, ◌≤◌, List, Option, OnOk, OnErr};
ghost use Rattle.tool_files.specs.Told.{Look, Rose, SameBut, WhereTold, Reads, TellsAbsence, PutsAt, Appends, AppendsSome};

/// Why a file was not read.
#[derive(Clone, Copy, Debug, PartialEq, Eq)]
pub enum FileFault {
    /// There is no file of the name.
    Missing,
    /// The read failed.
    Failed,
    NoMemory,
}

/// A file was not written.
#[derive(Clone, Copy, Debug, PartialEq, Eq)]
pub struct WriteFailed;

/// Bytes were not put.
#[derive(Clone, Copy, Debug, PartialEq, Eq)]
pub struct SinkFailed;

/// Files by name. The counts never fall; one rose in a call where it is greater after it, or stands at 2^64 - 1.
pub trait Files {
    /// The bytes that each name holds, where that is told.
    ghost holds: { Self → Option Look };

    /// How often a name was absent, a read failed, and a write failed.
    ghost misses: { Self → ℕ };

    ghost read_faults: { Self → ℕ };

    ghost write_faults: { Self → ℕ };

    /// Appends the first `most` bytes of a file, or all where it has fewer. After a fault `into` is as it was.
    fn read(&mut self, name: &str, most: usize, into: &mut Vec<u8>) -> Result<(), FileFault>
        ensures kept { holds self.new ≡ holds self.old }
        ensures misses_grow { misses self.old ≤ misses self.new }
        ensures reads_grow { read_faults self.old ≤ read_faults self.new }
        ensures writes_grow { write_faults self.old ≤ write_faults self.new }
        ensures ok { OnOk result (Reads (holds self.old) name.now most into.old.items into.new.items) }
        ensures err { OnErr result (into.new.items ≡ into.old.items) }
        ensures missing { result ≡ Err FileFault.Missing → Rose (misses self.old) (misses self.new) }
        ensures absent { TellsAbsence (holds self.old) name.now result }
        ensures failed { result ≡ Err FileFault.Failed → Rose (read_faults self.old) (read_faults self.new) };

    /// Puts a name at these bytes. It takes no memory.
    fn write(&mut self, name: &str, bytes: &[u8]) -> Result<(), WriteFailed>
        ensures misses_grow { misses self.old ≤ misses self.new }
        ensures reads_grow { read_faults self.old ≤ read_faults self.new }
        ensures writes_grow { write_faults self.old ≤ write_faults self.new }
        ensures ok { OnOk result (WhereTold (holds self.old) (holds self.new) (PutsAt name.now bytes.now)) }
        ensures err { OnErr result (WhereTold (holds self.old) (holds self.new) (SameBut name.now)) }
        ensures failed { OnErr result (Rose (write_faults self.old) (write_faults self.new)) };
}

/// Where a report goes.
pub trait Sink {
    /// The bytes put so far, where that is told.
    ghost written: { Self → Option (List ℕ) };

    /// How often a put failed.
    ghost faults: { Self → ℕ };

    /// Appends these bytes; where it fails, a front of them. It takes no memory.
    fn put(&mut self, bytes: &[u8]) -> Result<(), SinkFailed>
        ensures faults_grow { faults self.old ≤ faults self.new }
        ensures ok { OnOk result (Appends (written self.old) (written self.new) bytes.now) }
        ensures err { OnErr result (AppendsSome (written self.old) (written self.new) bytes.now) }
        ensures failed { OnErr result (Rose (faults self.old) (faults self.new)) };
}
