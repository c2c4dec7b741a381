//! Files and a sink in memory, of which chosen calls fail, and which have room for so much.

use java_tree::NoMemory;
use std::alloc::Global;
use std::test::Fail;
use tool_files::{FileCounts, FileFault, Files, MemFiles, MemSink, Sink, SinkFailed, WriteFailed};

/// A file with its bytes, in a store whose third call fails.
fn one_file(alloc: Global) -> Result<MemFiles, NoMemory> {
    let name = String::from_str(alloc, "A.java")?;
    let bytes = Vec::from_slice(alloc, b"class A {}")?;
    let files = vec![in alloc; (name, bytes)]?;
    MemFiles::new(alloc, files, vec![in alloc; 3]?)
}

/// Reads one after the other: the name, the most bytes, the answer, and what has been read then.
const READS: [(&str, usize, Result<(), FileFault>, &[u8]); 4] = [
    ("A.java", 5, Ok(()), b">class"),
    ("a.java", 5, Err(FileFault::Missing), b">class"),
    ("A.java", 5, Err(FileFault::Failed), b">class"),
    ("A.java", 11, Ok(()), b">classclass A {}"),
];

#[test]
fn reads(rt: HostRuntime) -> Result<(), Fail> {
    let mut files = one_file(rt.alloc())?;
    let mut into = vec![in rt.alloc(); b'>']?;
    for (name, most, answer, bytes) in READS {
        let found = files.read(name, most, &mut into);
        assert!(rt;
            found == answer && into.as_slice() == bytes,
            "{name} {most}"
        );
    }
    let counts = FileCounts {
        misses: 1,
        read_faults: 1,
        write_faults: 0,
    };
    assert_eq!(rt; (files.calls(), files.counts()), (4, counts));
    Ok(())
}

/// Writes one after the other, behind a first one: the name, the bytes, the answer, what the file has then, and why.
const WRITES: [(&str, &[u8], Result<(), WriteFailed>, Option<&[u8]>, &str); 5] = [
    (
        "B.java",
        b"class B {}",
        Ok(()),
        Some(b"class B {}"),
        "there is room",
    ),
    (
        "A.java",
        b"other",
        Err(WriteFailed),
        Some(b"class A {}"),
        "the third call",
    ),
    ("C.java", b"", Err(WriteFailed), None, "no room for a name"),
    (
        "B.java",
        b"class B { }",
        Ok(()),
        Some(b"class B { }"),
        "there is room",
    ),
    (
        "A.java",
        b"",
        Err(WriteFailed),
        Some(b"class A {}"),
        "five bytes are left",
    ),
];

/// Whether a write has this answer, and the file these bytes then.
fn writes_so(
    files: &mut MemFiles,
    name: &str,
    bytes: &[u8],
    answer: Result<(), WriteFailed>,
    held: Option<&[u8]>,
) -> bool {
    files.write(name, bytes) == answer && files.bytes(name) == held
}

#[test]
fn writes(rt: HostRuntime) -> Result<(), Fail> {
    let mut files = one_file(rt.alloc())?;
    let found = files.write("A.java", b"");
    assert_eq!(rt; found, Err(WriteFailed), "no room for the name's bytes");
    files.reserve(1, 38)?;
    for (name, bytes, answer, held, why) in WRITES {
        let is_so = writes_so(&mut files, name, bytes, answer, held);
        assert!(rt; is_so, "{name}: {why}");
    }
    assert!(rt; files.bytes("B.java") == Some(b"class B { }".as_slice()));
    assert_eq!(rt; files.counts().write_faults, 4);
    Ok(())
}

/// Puts one after the other: the bytes, the answer, what is written then, and why.
const PUTS: [(&[u8], Result<(), SinkFailed>, &[u8], &str); 4] = [
    (b"done", Ok(()), b"done", "there is room"),
    (b"!", Err(SinkFailed), b"done", "the second call"),
    (b" 12", Err(SinkFailed), b"done", "two bytes are left"),
    (b" 1", Ok(()), b"done 1", "there is room"),
];

#[test]
fn puts(rt: HostRuntime) -> Result<(), Fail> {
    let mut sink = MemSink::new(vec![in rt.alloc(); 2]?);
    sink.reserve(6)?;
    for (bytes, answer, written, why) in PUTS {
        let found = sink.put(bytes);
        assert!(rt; found == answer && sink.written() == written, "{why}");
    }
    assert_eq!(rt; (sink.calls(), sink.faults()), (4, 2));
    Ok(())
}
