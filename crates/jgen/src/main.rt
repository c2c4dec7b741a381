//! jgen: refactorings of Java programs, proved to keep what the programs do.
#![tactic(auto)]

ghost use Rattle.std.specs.Prelude.{◌≡◌};
ghost use Rattle.jgen.specs.Exit.{exit_status};

use refactor_app::{Status, refactor};
use std::env;
use std::process::ExitCode;
use std::rt::Env;
use tool_files::{DirFiles, StdSink};

const VERSION: &str = "jgen 0.1.0";

const HELP: &str = "\
jgen: refactorings of Java programs, proved to keep what the programs do

  jgen generalize OUT FILE LINE COL TYPE -- FILES [+ LIBRARY FILES]
      Changes the declared type that begins at LINE and COL of FILE, one of the
      FILES, into TYPE, and writes each of the FILES as OUT/FILE, changed or not.
      LINE and COL count from 1, COL bytes. The FILES stay as they are.
  jgen allowed FILE LINE COL -- FILES [+ LIBRARY FILES]
      Lists the types into which generalize may change the type at that place.
  jgen extract-interface OUT CLASS NEWNAME METHOD .. -- FILES [+ LIBRARY FILES]
      Gives CLASS an interface NEWNAME with all methods of these names that it
      declares, in a new file beside that of CLASS, and changes each declared use
      of CLASS into NEWNAME that may change. Writes all files under OUT.
  jgen check -- FILES [+ LIBRARY FILES]
      Checks that the files are a program that breaks no rule, and names its
      unchecked operations.
  jgen run N CLASS [= ARGS] -- FILES [+ LIBRARY FILES]
      Checks the files as above, and runs the main method of CLASS, a class of the
      FILES, with ARGS. A step is an entry of a method or constructor, or a turn of
      a loop; the run ends where N steps, 100000000 at most, are not enough.
  Other commands (pull-up, infer-type-arguments, workload) are read and refused
  as N1, not built yet.
  jgen --help
  jgen --version

What is reported, a line each:
  edit FILE FROM TO BYTES TEXT   the bytes FROM to before TO of FILE become TEXT
  create FILE BYTES              the new file, named without OUT, and its size
  kept PLACE because KIND NODE then PLACE
                                 a use of CLASS stays, since it is tied to another
  kept PLACE needs KIND NODE     a use of CLASS stays, since it needs the class
  done K edits                   the last line of a change
  type NAME                      a type to which a place may go
  done K types                   the last line of these
  unchecked PLACE                an unchecked operation of a program
  checked K files                the last line of a check, library files counted
  printed K                      the first line of a run, which printed K bytes;
                                 behind it these bytes, and on a line of its own
  end HOW                        how it ended: normal, threw CLASS or bound
  refused RULE PLACE             the first rule or constraint that stands against it
  usage RULE                     the lowest rule that the words break
  missing NAME, read fault NAME, write fault NAME

Exit status:
  0 done   1 refused   2 usage   3 a file is missing   4 a read failed
  5 a write failed   6 the report could not be printed   7 memory ran out
  8 the words could not be had (no memory, or not UTF-8)
  10 the run ended with a thrown object   11 no step was left

Example, in the folder examples/first:
  jgen generalize out A.java 5 5 A -- A.java";

/// The words behind the program's name.
fn words(rt: &(impl Env + AllocGlobal)) -> Option<Vec<String>> {
    let mut words = Vec::new(rt.alloc());
    for word in env::args(rt).ok()?.skip(1) {
        words.push(word).ok()?;
    }
    Some(words)
}

/// The exit status of an answer.
fn code(status: Status) -> u8
    ensures { result ≡ exit_status status }
{
    match status {
        Status::Done => 0,
        Status::Refused => 1,
        Status::Usage => 2,
        Status::Missing => 3,
        Status::ReadFault => 4,
        Status::WriteFault => 5,
        Status::OutFault => 6,
        Status::NoMemory => 7,
        Status::Threw => 10,
        Status::Bound => 11,
    }
}

/// Prints a text that was asked for in place of a change.
fn show(rt: &impl Print, text: &str) -> u8 {
    match rt.println(text) {
        Ok(()) => 0,
        Err(_) => code(Status::OutFault),
    }
}

fn main(rt: HostRuntime) -> ExitCode {
    let Some(words) = words(&rt) else {
        return ExitCode::from(8);
    };
    let only = if words.len() == 1 {
        words[0].as_str()
    } else {
        ""
    };
    let ended = match only {
        "--help" => show(&rt, HELP),
        "--version" => show(&rt, VERSION),
        _ => {
            let mut files = DirFiles::new(&rt);
            let mut out = StdSink::new(&rt);
            code(refactor(rt.alloc(), words.as_slice(), &mut files, &mut out))
        }
    };
    ExitCode::from(ended)
}
