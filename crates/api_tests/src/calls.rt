//! The top call where a read, a write or a put fails, in turn, and where room or memory is wanting. The request changes a local of type B at line 5 and column 5 to A.

ghost use Rattle.std.specs.Prelude.{◌-◌, ◌^◌, None};

use java_tree::NoMemory;
use refactor_app::{Status, refactor};
use std::alloc::Global;
use std::test::Fail;
use tool_files::{FileFault, Files, MemFiles, MemSink, WriteFailed};

const FIRST: &str = "class A { void m() { System.out.println(\"a\"); } }
class B extends A { void m() { System.out.println(\"b\"); } }
class Main {
  public static void main(String[] args) {
    B x = new B();
    x.m();
  }
}
";

const GENERALIZED: &str = "class A { void m() { System.out.println(\"a\"); } }
class B extends A { void m() { System.out.println(\"b\"); } }
class Main {
  public static void main(String[] args) {
    A x = new B();
    x.m();
  }
}
";

const REQUEST: &str = "generalize out A.java 5 5 A -- A.java";

const REPORT: &str = "edit A.java 170 171 1 A\ndone 1 edits\n";

/// A file's name and bytes.
fn file(alloc: Global, name: &str, text: &str) -> Result<(String, Vec<u8>), NoMemory> {
    let name = String::from_str(alloc, name)?;
    let bytes = Vec::from_slice(alloc, text.as_bytes())?;
    Ok((name, bytes))
}

/// The first example and another file, with room for so many bytes of two more, and calls that fail.
fn files(alloc: Global, room: usize, fail: &[u32]) -> Result<MemFiles, NoMemory> {
    let mut list = Vec::new(alloc);
    list.push(file(alloc, "A.java", FIRST)?)?;
    list.push(file(alloc, "C.java", "class C { }\n")?)?;
    let mut files = MemFiles::new(alloc, list, Vec::from_slice(alloc, fail)?)?;
    if room > 0 {
        files.reserve(2, room)?;
    }
    Ok(files)
}

/// A sink with so much room, and puts that fail.
fn sink(alloc: Global, room: usize, fail: &[u32]) -> Result<MemSink, NoMemory> {
    let mut sink = MemSink::new(Vec::from_slice(alloc, fail)?);
    sink.reserve(room)?;
    Ok(sink)
}

fn words(alloc: Global, line: &str) -> Result<Vec<String>, NoMemory> {
    let mut words = Vec::new(alloc);
    for word in line.split_whitespace() {
        words.push(String::from_str(alloc, word)?)?;
    }
    Ok(words)
}

/// Whether a file has this text, or is absent where there is none.
fn has(files: &MemFiles, name: &str, text: Option<&str>) -> bool {
    match (files.bytes(name), text) {
        (Some(bytes), Some(text)) => bytes == text.as_bytes(),
        (None, None) => true,
        _ => false,
    }
}

/// What becomes of a request: the room for a new file, the calls on files that fail, the room for a report, the puts that fail, and then the words, the answer, the
/// report, and the text that is written.
#[derive(Clone, Copy)]
struct Course {
    room: usize,
    fail: &'static [u32],
    report_room: usize,
    fail_puts: &'static [u32],
    line: &'static str,
    status: Status,
    report: &'static str,
    made: Option<&'static str>,
}

/// No call fails, and there is room.
const WHOLE: Course = Course {
    room: 4096,
    fail: &[],
    report_room: 256,
    fail_puts: &[],
    line: REQUEST,
    status: Status::Done,
    report: REPORT,
    made: Some(GENERALIZED),
};

const TWO_FILES: &str = "generalize out A.java 5 5 A -- A.java C.java";

const THREE_FILES: &str = "generalize out A.java 5 5 A -- A.java No.java C.java";

static COURSES: [Course; 17] = [
    WHOLE,
    Course {
        fail: &[1],
        status: Status::ReadFault,
        report: "read fault A.java\n",
        made: None,
        ..WHOLE
    },
    Course {
        fail: &[2],
        status: Status::WriteFault,
        report: "write fault out/A.java\n",
        made: None,
        ..WHOLE
    },
    Course {
        fail: &[3],
        ..WHOLE
    },
    // A put that fails takes the place of any answer, and what was written stays.
    Course {
        fail_puts: &[1],
        status: Status::OutFault,
        report: "",
        ..WHOLE
    },
    Course {
        fail: &[1],
        fail_puts: &[1],
        status: Status::OutFault,
        report: "",
        made: None,
        ..WHOLE
    },
    Course {
        fail: &[2],
        fail_puts: &[1],
        status: Status::OutFault,
        report: "",
        made: None,
        ..WHOLE
    },
    Course {
        line: "generalize out A.java 5 5 A -- B.java",
        fail_puts: &[1],
        status: Status::OutFault,
        report: "",
        made: None,
        ..WHOLE
    },
    // Files are read one after the other.
    Course {
        line: TWO_FILES,
        ..WHOLE
    },
    // The second of the new files fails: the first is whole.
    Course {
        line: TWO_FILES,
        fail: &[4],
        status: Status::WriteFault,
        report: "write fault out/C.java\n",
        ..WHOLE
    },
    Course {
        line: TWO_FILES,
        fail: &[1, 2],
        status: Status::ReadFault,
        report: "read fault A.java\n",
        made: None,
        ..WHOLE
    },
    Course {
        line: TWO_FILES,
        fail: &[2],
        status: Status::ReadFault,
        report: "read fault C.java\n",
        made: None,
        ..WHOLE
    },
    Course {
        line: THREE_FILES,
        fail: &[3],
        status: Status::Missing,
        report: "missing No.java\n",
        made: None,
        ..WHOLE
    },
    Course {
        line: THREE_FILES,
        fail: &[1],
        status: Status::ReadFault,
        report: "read fault A.java\n",
        made: None,
        ..WHOLE
    },
    // There is no room for the new file, or for the report.
    Course {
        room: 0,
        status: Status::WriteFault,
        report: "write fault out/A.java\n",
        made: None,
        ..WHOLE
    },
    Course {
        room: 100,
        status: Status::WriteFault,
        report: "write fault out/A.java\n",
        made: None,
        ..WHOLE
    },
    Course {
        report_room: 20,
        status: Status::OutFault,
        report: "",
        ..WHOLE
    },
];

/// Whether a request has this course, and the files that were there stay.
fn runs_so(alloc: Global, course: &Course) -> Result<bool, NoMemory> {
    let words = words(alloc, course.line)?;
    let mut files = files(alloc, course.room, course.fail)?;
    let mut out = sink(alloc, course.report_room, course.fail_puts)?;
    let status = refactor(alloc, words.as_slice(), &mut files, &mut out);
    let is_told = status == course.status && out.written() == course.report.as_bytes();
    Ok(is_told && has(&files, "A.java", Some(FIRST)) && has(&files, "out/A.java", course.made))
}

/// The place of the first course that a request does not have, or none.
fn first_other(alloc: Global, courses: &[Course]) -> Result<Option<usize>, NoMemory> {
    for (at, course) in courses.iter().enumerate() {
        if !runs_so(alloc, course)? {
            return Ok(Some(at));
        }
    }
    Ok(None)
}

#[test]
fn each_failing_call_has_its_answer(rt: HostRuntime) -> Result<(), Fail> {
    assert_eq!(rt; first_other(rt.alloc(), &COURSES)?, None);
    Ok(())
}

/// Files of which each read wants memory, and which tell nothing.
#[derive(Drop)]
struct Unread;

impl Files for Unread {
    ghost holds = { λ files. None };

    ghost misses = { λ files. 0 };

    ghost read_faults = { λ files. 0 };

    ghost write_faults = { λ files. 2 ^ 64 - 1 };

    fn read(&mut self, _name: &str, _most: usize, _into: &mut Vec<u8>) -> Result<(), FileFault> {
        Err(FileFault::NoMemory)
    }

    fn write(&mut self, _name: &str, _bytes: &[u8]) -> Result<(), WriteFailed> {
        Err(WriteFailed)
    }
}

/// Words, and the answer where each read wants memory, with its report.
const WANTING: [(&str, Status, &str); 7] = [
    (REQUEST, Status::NoMemory, ""),
    (TWO_FILES, Status::NoMemory, ""),
    ("check -- A.java", Status::NoMemory, ""),
    ("run 1 A -- A.java", Status::NoMemory, ""),
    (
        "run 100000001 A -- A.java",
        Status::Refused,
        "refused L9 -\n",
    ),
    ("workload 1", Status::Refused, "refused N1 -\n"),
    (
        "generalize out A.java 5 5 A --",
        Status::Usage,
        "usage U4\n",
    ),
];

/// Whether the words have this answer there.
fn wants_so(alloc: Global, line: &str, status: Status, report: &str) -> Result<bool, NoMemory> {
    let words = words(alloc, line)?;
    let mut files = Unread;
    let mut out = sink(alloc, 256, &[])?;
    let found = refactor(alloc, words.as_slice(), &mut files, &mut out);
    Ok(found == status && out.written() == report.as_bytes())
}

#[test]
fn where_memory_wants_nothing_is_put(rt: HostRuntime) -> Result<(), Fail> {
    for (line, status, report) in WANTING {
        assert!(rt; wants_so(rt.alloc(), line, status, report)?, "{line}");
    }
    Ok(())
}
