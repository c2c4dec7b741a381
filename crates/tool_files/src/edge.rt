//! The trusted edge: files of the file system and standard output, which tell no content.

ghost use Rattle.std.specs.Prelude.{◌≡◌, ℕ, ◌<◌, ◌≤◌, ◌++◌, List, length, take, None, IfSome, IfOk, OnOk, OnErr};
ghost use Rattle.std.specs.Io.KnownBytes.{Appends, Consumes, IsAtEnd};
ghost use Rattle.tool_files.specs.Counts.{no_counts, counts_after_read, counts_after_write, faults_after_put};
ghost use Rattle.tool_files.specs.Told.{Reads};

use crate::counts::{FileCounts, raise};
use crate::traits::{FileFault, Files, Sink, SinkFailed, WriteFailed};
use std::io::{ErrorKind, Read, Write};
use std::marker::Model;
use std::path::Path;
use std::{fs, io, rt};

/// The most bytes that one read asks for.
const PIECE: usize = 64 * 1024;

/// Files by their paths from the current folder.
#[derive(Drop)]
pub struct DirFiles<'a, R> {
    rt: &'a R,
    counts: FileCounts,
}

impl<'a, R> Model for DirFiles<'a, R> {
    ghost use Rattle.tool_files.specs.declared.counts.FileCounts.{FileCounts};

    ghost Value = { FileCounts };

    ghost view = { λ d. d.counts };
}

impl<R: rt::Files> DirFiles<'_, R> {
    /// No call has failed yet. It takes no memory.
    pub fn new(rt: &R) -> DirFiles<'_, R>
        ensures { result ≡ no_counts }
    {
        DirFiles {
            rt,
            counts: FileCounts::new(),
        }
    }

    /// How often reads and writes failed.
    pub fn counts(&self) -> FileCounts
        ensures { result ≡ self.now }
    {
        self.counts
    }
}

impl<R: rt::Files> Files for DirFiles<'_, R> {
    ghost holds = { λ _. None };

    ghost misses = { λ s. s.misses };

    ghost read_faults = { λ s. s.read_faults };

    ghost write_faults = { λ s. s.write_faults };

    fn read(&mut self, name: &str, most: usize, into: &mut Vec<u8>) -> Result<(), FileFault>
        ensures ok { OnOk result (Reads None name.now most into.old.items into.new.items) }
        ensures err { OnErr result (into.new.items ≡ into.old.items) }
        ensures counted { self.new ≡ counts_after_read self.old result }
    {
        let start = into.len();
        let answer = read_file(self.rt, name, most, into);
        if answer.is_err() {
            into.truncate(start);
        }
        self.counts.count_read(answer);
        answer
    }

    fn write(&mut self, name: &str, bytes: &[u8]) -> Result<(), WriteFailed>
        ensures counted { self.new ≡ counts_after_write self.old result }
    {
        let answer = write_file(self.rt, name, bytes).or(Err(WriteFailed));
        self.counts.count_write(answer);
        answer
    }
}

/// Appends the front of a file. After a fault some of it may stand there.
fn read_file(
    rt: &impl rt::Files,
    name: &str,
    most: usize,
    into: &mut Vec<u8>,
) -> Result<(), FileFault>
    ensures { Reads None name.now most into.old.items into.new.items }
{
    match fs::open(rt, name) {
        Ok(mut file) => read_pieces(&mut file, most, into),
        Err(error) if error.kind() == ErrorKind::NotFound => Err(FileFault::Missing),
        Err(_) => Err(FileFault::Failed),
    }
}

/// Appends the first `most` bytes that a reader gives, or all where it gives fewer. A read that gives nothing is the end.
fn read_pieces<R: Read>(file: &mut R, most: usize, into: &mut Vec<u8>) -> Result<(), FileFault>
    ensures more { (more : List ℕ) × (into.new.items ≡ into.old.items ++ more) × (length more ≤ most) }
    ensures known { OnOk result (IfSome (R.remaining file.old) (λ bytes. into.new.items ≡ into.old.items ++ take most bytes)) }
{
    let mut piece = Vec::new(*into.allocator());
    piece
        .resize(most.min(PIECE), 0)
        .or(Err(FileFault::NoMemory))?;
    let mut left = most;
    // Each turn reads a byte at least, or is the last, so there are at most `most` of them.
    'pieces: while left > 0 {
        let asked = left.min(piece.len());
        let count = read_piece(file, &mut piece[..asked], into)?;
        if count == 0 {
            break;
        }
        left -= count;
    }
    Ok(())
}

/// Appends what one read gives, and tells how many bytes it gave.
fn read_piece<R: Read>(
    file: &mut R,
    piece: &mut [u8],
    into: &mut Vec<u8>,
) -> Result<usize, FileFault>
    ensures bound { IfOk result (λ n. n ≤ length piece.new) }
    ensures appended { IfOk result (λ n. into.new.items ≡ into.old.items ++ take n piece.new) }
    ensures given { IfOk result (λ n. Consumes (R.remaining file.old) (R.remaining file.new) (take n piece.new)) }
    ensures end { IfOk result (λ n. n ≡ 0 → 0 < length piece.new → IsAtEnd (R.remaining file.new)) }
    ensures err { OnErr result (into.new.items ≡ into.old.items) }
{
    let count = file.read(piece).or(Err(FileFault::Failed))?;
    into.extend_from_slice(&piece[..count])
        .or(Err(FileFault::NoMemory))?;
    Ok(count)
}

/// Makes the missing folders of a file, and the file.
fn write_file(rt: &impl rt::Files, name: &str, bytes: &[u8]) -> io::Result<()> {
    if let Some(folder) = Path::new(name).parent() {
        fs::create_dir_all(rt, folder)?;
    }
    write_pieces(&mut fs::create(rt, name)?, bytes)
}

/// Writes all bytes, and flushes. A write that takes nothing is a fault.
fn write_pieces<W: Write>(out: &mut W, bytes: &[u8]) -> io::Result<()>
    ensures { OnOk result (Appends (W.contents out.old) (W.contents out.new) bytes.now) }
{
    let mut rest = bytes;
    // Each turn writes a byte at least, so there are at most as many as bytes.
    'pieces: while !rest.is_empty() {
        let count = out.write(rest)?;
        if count == 0 {
            return Err(io::Error::from(ErrorKind::WriteZero));
        }
        rest = &rest[count..];
    }
    out.flush()
}

/// Standard output.
#[derive(Drop)]
pub struct StdSink<'a, R> {
    rt: &'a R,
    faults: u64,
}

impl<'a, R> Model for StdSink<'a, R> {
    ghost use Rattle.std.specs.Prelude.{ℕ};

    ghost Value = { ℕ };

    ghost view = { λ s. s.faults };
}

impl<R: Print> StdSink<'_, R> {
    /// No put has failed yet. It takes no memory.
    pub fn new(rt: &R) -> StdSink<'_, R>
        ensures { result ≡ 0 }
    {
        StdSink { rt, faults: 0 }
    }

    /// How often a put failed.
    pub fn faults(&self) -> u64
        ensures { result ≡ self.now }
    {
        self.faults
    }
}

impl<R: Print> Sink for StdSink<'_, R> {
    ghost written = { λ _. None };

    ghost faults = { λ s. s };

    fn put(&mut self, bytes: &[u8]) -> Result<(), SinkFailed>
        ensures counted { self.new ≡ faults_after_put self.old result }
    {
        if write_pieces(&mut io::writer(self.rt), bytes).is_err() {
            raise(&mut self.faults);
            return Err(SinkFailed);
        }
        Ok(())
    }
}
