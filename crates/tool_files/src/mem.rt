//! Files and a sink in memory, of which chosen calls fail. Tests and theorems stand on them.

ghost use Rattle.std.specs.Prelude.{◌≡◌, ℕ, ◌+◌, ◌<◌, ◌≤◌, ◌⊎◌, ◌↔◌, max, Some, [], ◌++◌, length, map, take, Contains, IsTrue, IsErr, IsSome, IfOk, IfErr, IsNone, IfSome, OnOk, OnErr, option_copied, vec_len, vec_capacity};
ghost use Rattle.tool_files.specs.Counts.{raised};
ghost use Rattle.tool_files.specs.Memory.{FileStore, SinkStore, look_up, LacksRoom, store_with, store_after_read, store_after_write, sink_after_put, given, file_store, sink_store};
ghost use Rattle.tool_files.specs.Pool.{part_of, file_of, files_of, IsPart, IsEntry, AreEntries, IsPlaceOf};
ghost use Rattle.tool_files.specs.Told.{Reads};

use crate::counts::{FileCounts, raise};
use crate::traits::{FileFault, Files, Sink, SinkFailed, WriteFailed};
use java_tree::NoMemory;
use std::alloc::Global;
use std::marker::Model;

/// A part of the pool: from the byte `start` to before the byte `end`.
#[derive(Clone, Copy, Debug)]
struct Part {
    start: usize,
    end: usize,
}

/// Where the name and the bytes of a file stand in the pool.
#[derive(Clone, Copy, Debug)]
struct Entry {
    name: Part,
    bytes: Part,
}

impl Part {
    fn of(self, pool: &[u8]) -> &[u8]
        requires { IsPart (length pool.now) self }
        ensures { result.now ≡ part_of pool.now self }
    {
        &pool[self.start..self.end]
    }
}

/// Appends bytes for which there is capacity.
fn append(pool: &mut Vec<u8>, bytes: &[u8]) -> Part
    requires { vec_len pool.old + length bytes.now ≤ vec_capacity pool.old }
    ensures items { pool.new.items ≡ pool.old.items ++ bytes.now }
    ensures capacity { vec_capacity pool.old ≤ vec_capacity pool.new }
    ensures start { result.start ≡ vec_len pool.old }
    ensures end { result.end ≡ vec_len pool.old + length bytes.now }
{
    let start = pool.len();
    // It fails only where capacity is missing.
    let _ = pool.extend_from_slice(bytes);
    let end = pool.len();
    Part { start, end }
}

/// Appends the name and the bytes of a file, for which there is capacity.
fn append_file(pool: &mut Vec<u8>, name: &[u8], bytes: &[u8]) -> Entry
    requires { vec_len pool.old + (length name.now + length bytes.now) ≤ vec_capacity pool.old }
    ensures items { pool.new.items ≡ pool.old.items ++ (name.now ++ bytes.now) }
    ensures capacity { vec_capacity pool.old ≤ vec_capacity pool.new }
    ensures entry { IsEntry (vec_len pool.new) result }
    ensures file { file_of pool.new.items result ≡ record { name = name.now; bytes = bytes.now } }
{
    let name = append(pool, name);
    let bytes = append(pool, bytes);
    Entry { name, bytes }
}

/// The place of the first entry of a name.
fn place_of(pool: &[u8], entries: &[Entry], name: &[u8]) -> Option<usize>
    requires { AreEntries (length pool.now) entries.now }
    ensures none { IsNone result ↔ (look_up (files_of pool.now entries.now) name.now ≡ None) }
    ensures some { IfSome result (IsPlaceOf pool.now entries.now name.now) }
{
    for (i, entry) in entries.iter().enumerate() {
        if entry.name.of(pool) == name {
            return Some(i);
        }
    }
    None
}

/// Files in memory. Calls of the numbers in `fail` fail, counted from 1 over reads and writes together.
#[derive(Debug, Drop)]
pub struct MemFiles {
    entries: Vec<Entry>,
    pool: Vec<u8>,
    fail: Vec<u32>,
    calls: u64,
    name_room: usize,
    byte_room: usize,
    counts: FileCounts,
}

impl Model for MemFiles {
    ghost use Rattle.std.specs.Prelude.{◌+◌, ◌≤◌, vec_len, vec_capacity};
    ghost use Rattle.tool_files.specs.Memory.{FileStore};

    ghost Value = { FileStore };

    ghost use Rattle.tool_files.specs.Pool.{files_of, AreEntries};

    ghost view = { λ m. record {
      files = files_of m.pool.items m.entries.items;
      fail = m.fail.items;
      calls = m.calls;
      name_room = m.name_room;
      byte_room = m.byte_room;
      counts = m.counts;
    } };

    ghost invariant = { λ m. AreEntries (vec_len m.pool) m.entries.items
        × (vec_len m.entries + m.name_room ≤ vec_capacity m.entries)
        × (vec_len m.pool + m.byte_room ≤ vec_capacity m.pool) };
}

impl MemFiles {
    /// Where a name stands twice, its first file counts. There is no room for writes.
    pub fn new(
        alloc: Global,
        files: Vec<(String, Vec<u8>)>,
        fail: Vec<u32>,
    ) -> Result<MemFiles, NoMemory>
        ensures { IfOk result (λ m. m ≡ file_store (map given files.items) fail.items) }
    {
        let mut entries = Vec::with_capacity(alloc, files.len())?;
        let mut pool = Vec::new(alloc);
        for (name, bytes) in &files {
            let (name, bytes) = (name.as_bytes(), bytes.as_slice());
            pool.reserve(name.len() + bytes.len())?;
            let entry = append_file(&mut pool, name, bytes);
            entries.push(entry)?;
        }
        Ok(MemFiles {
            entries,
            pool,
            fail,
            calls: 0,
            name_room: 0,
            byte_room: 0,
            counts: FileCounts::new(),
        })
    }

    /// Makes the room at least this many new names, and this many bytes of names and contents.
    /// A write takes the bytes of its name and its content, and a name where that is new; nothing is given back.
    pub fn reserve(&mut self, names: usize, bytes: usize) -> Result<(), NoMemory>
        ensures ok { OnOk result (self.new ≡ record self.old {
          name_room = max self.old.name_room names;
          byte_room = max self.old.byte_room bytes;
        }) }
        ensures err { OnErr result (self.new ≡ self.old) }
    {
        self.entries.reserve(names)?;
        self.pool.reserve(bytes)?;
        self.name_room = self.name_room.max(names);
        self.byte_room = self.byte_room.max(bytes);
        Ok(())
    }

    /// The bytes of a name, where it is there. It takes no memory.
    pub fn bytes(&self, name: &str) -> Option<&[u8]>
        ensures { option_copied result ≡ look_up self.now.files name.now }
    {
        let place = place_of(&self.pool, &self.entries, name.as_bytes())?;
        Some(self.entries[place].bytes.of(&self.pool))
    }

    /// How many reads and writes there were.
    pub fn calls(&self) -> u64
        ensures { result ≡ self.now.calls }
    {
        self.calls
    }

    /// How often reads and writes failed.
    pub fn counts(&self) -> FileCounts
        ensures { result ≡ self.now.counts }
    {
        self.counts
    }

    /// Counts a call, and tells whether it fails by its number.
    fn count_call(&mut self) -> bool
        ensures counted { self.new ≡ record self.old { calls = raised self.old.calls } }
        ensures number { IsTrue result ↔ Contains self.old.fail (raised self.old.calls) }
    {
        raise(&mut self.calls);
        is_listed(&self.fail, self.calls)
    }

    fn lacks_room(&self, name: &[u8], bytes: &[u8]) -> bool
        ensures { IsTrue result ↔ LacksRoom self.now name.now bytes.now }
    {
        let is_new = place_of(&self.pool, &self.entries, name).is_none();
        (is_new && self.name_room == 0) || self.byte_room < name.len() + bytes.len()
    }

    /// Puts a name at bytes, for which there is room.
    fn put_at(&mut self, name: &[u8], bytes: &[u8])
        requires { ¬ LacksRoom self.old name.now bytes.now }
        ensures { self.new ≡ store_with self.old name.now bytes.now }
    {
        let place = place_of(&self.pool, &self.entries, name);
        let entry = append_file(&mut self.pool, name, bytes);
        self.byte_room -= name.len() + bytes.len();
        match place {
            Some(place) => self.entries[place] = entry,
            None => {
                self.name_room -= 1;
                self.entries.push_reserved(entry);
            }
        }
    }
}

/// Whether a call is one of those that fail.
fn is_listed(fail: &[u32], call: u64) -> bool
    ensures { IsTrue result ↔ Contains fail.now call }
{
    fail.iter().any(|number| u64::from(*number) == call)
}

impl Files for MemFiles {
    ghost holds = { λ s. Some (look_up s.files) };

    ghost misses = { λ s. s.counts.misses };

    ghost read_faults = { λ s. s.counts.read_faults };

    ghost write_faults = { λ s. s.counts.write_faults };

    fn read(&mut self, name: &str, most: usize, into: &mut Vec<u8>) -> Result<(), FileFault>
        ensures ok { OnOk result (Reads (Some (look_up self.old.files)) name.now most into.old.items into.new.items) }
        ensures err { OnErr result (into.new.items ≡ into.old.items) }
        ensures missing { (result ≡ Err FileFault.Missing) ↔ (look_up self.old.files name.now ≡ None) }

        // A name that is there fails by the number of the call.
        ensures failed { (result ≡ Err FileFault.Failed)
            ↔ (IsSome (look_up self.old.files name.now) × Contains self.old.fail (raised self.old.calls)) }
        ensures after { self.new ≡ store_after_read self.old result }
    {
        let fails = self.count_call();
        let answer = match self.bytes(name) {
            None => Err(FileFault::Missing),
            Some(_) if fails => Err(FileFault::Failed),
            Some(bytes) => append_front(into, bytes, most),
        };
        self.counts.count_read(answer);
        answer
    }

    fn write(&mut self, name: &str, bytes: &[u8]) -> Result<(), WriteFailed>
        // It fails by the number of the call or for want of room.
        ensures fails { IsErr result
            ↔ (Contains self.old.fail (raised self.old.calls) ⊎ LacksRoom self.old name.now bytes.now) }
        ensures after { self.new ≡ store_after_write self.old name.now bytes.now result }
    {
        let fails = self.count_call();
        if fails || self.lacks_room(name.as_bytes(), bytes) {
            self.counts.count_write(Err(WriteFailed));
            return Err(WriteFailed);
        }
        self.put_at(name.as_bytes(), bytes);
        Ok(())
    }
}

/// Appends the first `most` bytes, or all where there are fewer.
fn append_front(into: &mut Vec<u8>, bytes: &[u8], most: usize) -> Result<(), FileFault>
    ensures ok { OnOk result (into.new.items ≡ into.old.items ++ take most bytes.now) }
    ensures err { OnErr result (into.new.items ≡ into.old.items) }
    ensures full { IfErr result (λ fault. fault ≡ FileFault.NoMemory) }
{
    let front = &bytes[..most.min(bytes.len())];
    into.extend_from_slice(front).or(Err(FileFault::NoMemory))
}

/// A sink in memory. Puts of the numbers in `fail` fail, counted from 1.
#[derive(Debug, Drop)]
pub struct MemSink {
    written: Vec<u8>,
    fail: Vec<u32>,
    calls: u64,
    room: usize,
    faults: u64,
}

impl Model for MemSink {
    ghost use Rattle.std.specs.Prelude.{◌+◌, ◌≤◌, vec_len, vec_capacity};
    ghost use Rattle.tool_files.specs.Memory.{SinkStore};

    ghost Value = { SinkStore };

    ghost view = { λ m. record {
      written = m.written.items;
      fail = m.fail.items;
      calls = m.calls;
      room = m.room;
      faults = m.faults;
    } };

    ghost invariant = { λ m. vec_len m.written + m.room ≤ vec_capacity m.written };
}

impl MemSink {
    /// There is no room for puts. It takes no memory.
    pub fn new(fail: Vec<u32>) -> MemSink
        ensures { result ≡ sink_store fail.items }
    {
        MemSink {
            written: Vec::new(*fail.allocator()),
            fail,
            calls: 0,
            room: 0,
            faults: 0,
        }
    }

    /// Makes the room at least this many bytes. A put takes its bytes.
    pub fn reserve(&mut self, bytes: usize) -> Result<(), NoMemory>
        ensures ok { OnOk result (self.new ≡ record self.old { room = max self.old.room bytes }) }
        ensures err { OnErr result (self.new ≡ self.old) }
    {
        self.written.reserve(bytes)?;
        self.room = self.room.max(bytes);
        Ok(())
    }

    /// The bytes put so far. It takes no memory.
    pub fn written(&self) -> &[u8]
        ensures { result.now ≡ self.now.written }
    {
        &self.written
    }

    /// How many puts there were.
    pub fn calls(&self) -> u64
        ensures { result ≡ self.now.calls }
    {
        self.calls
    }

    /// How often a put failed.
    pub fn faults(&self) -> u64
        ensures { result ≡ self.now.faults }
    {
        self.faults
    }
}

impl Sink for MemSink {
    ghost written = { λ s. Some s.written };

    ghost faults = { λ s. s.faults };

    fn put(&mut self, bytes: &[u8]) -> Result<(), SinkFailed>
        // It fails by the number of the call or for want of room.
        ensures fails { IsErr result
            ↔ (Contains self.old.fail (raised self.old.calls) ⊎ (self.old.room < length bytes.now)) }
        ensures after { self.new ≡ sink_after_put self.old bytes.now result }
    {
        raise(&mut self.calls);
        if is_listed(&self.fail, self.calls) || self.room < bytes.len() {
            raise(&mut self.faults);
            return Err(SinkFailed);
        }
        // It fails only where capacity is missing.
        let _ = self.written.extend_from_slice(bytes);
        self.room -= bytes.len();
        Ok(())
    }
}
