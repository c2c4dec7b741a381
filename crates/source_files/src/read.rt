//! The texts of files.

ghost use Rattle.std.specs.Prelude.{◌≡◌, ◌≤◌, map};
ghost use Rattle.std.specs.String.{string_bytes};
ghost use Rattle.tool_files.specs.Told.{Rose};
ghost use Rattle.source_files.specs.Held.{most_of_all};
ghost use Rattle.source_files.specs.Answers.{HasRead, IsMissing, IsFailed};
ghost use Rattle.source_files.specs.Steps.{HasReadOne, IsMissingOne, IsFailedOne};

use java_tree::Items;
use std::alloc::{AllocError, Global};
use tool_files::{FileFault, Files};

/// The most bytes of a file, and of all files.
const MOST_OF_ONE: usize = 1_048_576;

const MOST_OF_ALL: usize = 4_194_304;

/// What stops the reading of files. A number is that of a file, from 0.
#[derive(Clone, Copy, Debug, PartialEq, Eq)]
pub enum ReadStop {
    Missing(usize),
    Failed(usize),
    /// A file has more than 1,048,576 bytes.
    TooLarge,
    /// The files so far have more than 4,194,304 bytes.
    TooMuch,
    NoMemory,
}

impl From<AllocError> for ReadStop {
    ghost use Rattle.std.specs.Prelude.{◌≡◌};
    ghost use Rattle.source_files.specs.declared.read.ReadStop.TheVariants.{NoMemory};

    ghost from_gives = { λ _ e. e ≡ NoMemory };

    fn from(_: AllocError) -> ReadStop {
        ReadStop::NoMemory
    }
}

/// The bytes of the file with a number, behind `before` bytes of the files before it.
fn read_file<F: Files>(
    alloc: Global,
    name: &str,
    number: usize,
    before: usize,
    files: &mut F,
) -> Result<Items<u8>, ReadStop>
    requires { before ≤ most_of_all }
    ensures read { HasReadOne (F.holds files.old) before name.now number result }
    ensures kept { F.holds files.new ≡ F.holds files.old }
    ensures missed { IsMissingOne result → Rose (F.misses files.old) (F.misses files.new) }
    ensures failed { IsFailedOne result → Rose (F.read_faults files.old) (F.read_faults files.new) }
    ensures misses_grow { F.misses files.old ≤ F.misses files.new }
    ensures reads_grow { F.read_faults files.old ≤ F.read_faults files.new }
    ensures writes_grow { F.write_faults files.old ≤ F.write_faults files.new }
{
    let mut text = Vec::new(alloc);
    // One byte more than a file may have shows that it is too large.
    match files.read(name, MOST_OF_ONE + 1, &mut text) {
        Err(FileFault::Missing) => Err(ReadStop::Missing(number)),
        Err(FileFault::Failed) => Err(ReadStop::Failed(number)),
        Err(FileFault::NoMemory) => Err(ReadStop::NoMemory),
        Ok(()) if text.len() > MOST_OF_ONE => Err(ReadStop::TooLarge),
        Ok(()) if before + text.len() > MOST_OF_ALL => Err(ReadStop::TooMuch),
        Ok(()) => Ok(Items::from_vec(text)),
    }
}

/// The bytes of files, read one after the other, or what stops that first. Where the files object tells what it holds, they are what it holds.
pub fn read_files<F: Files>(
    alloc: Global,
    names: &[String],
    files: &mut F,
) -> Result<Items<Items<u8>>, ReadStop>
    ensures read { HasRead (F.holds files.old) (map string_bytes names.now) result }
    ensures kept { F.holds files.new ≡ F.holds files.old }
    ensures missed { IsMissing result → Rose (F.misses files.old) (F.misses files.new) }
    ensures failed { IsFailed result → Rose (F.read_faults files.old) (F.read_faults files.new) }
    ensures misses_grow { F.misses files.old ≤ F.misses files.new }
    ensures reads_grow { F.read_faults files.old ≤ F.read_faults files.new }
    ensures writes_grow { F.write_faults files.old ≤ F.write_faults files.new }
{
    let mut texts = Items::new(alloc);
    let mut bytes = 0;
    for (number, name) in names.iter().enumerate() {
        let text = read_file(alloc, name, number, bytes, files)?;
        bytes += text.len();
        texts.push(text)?;
    }
    Ok(texts)
}
