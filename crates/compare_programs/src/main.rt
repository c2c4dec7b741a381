//! Compares two checked programs: whether the second behaves as the first, and else where they differ first.
#![tactic(auto)]

mod asked;
mod maps;
mod programs;
mod told;

use asked::parts_of;
use programs::compared;
use std::env;
use std::process::ExitCode;
use std::rt::Env;
use told::tell;
use tool_files::{DirFiles, StdSink};

/// The words behind the program's name.
fn words(rt: &(impl Env + AllocGlobal)) -> Option<Vec<String>> {
    let mut words = Vec::new(rt.alloc());
    for word in env::args(rt).ok()?.skip(1) {
        words.push(word).ok()?;
    }
    Some(words)
}

fn main(rt: HostRuntime) -> ExitCode {
    let Some(words) = words(&rt) else {
        return ExitCode::from(8);
    };
    let asked = parts_of(words.as_slice());
    let mut files = DirFiles::new(&rt);
    let mut out = StdSink::new(&rt);
    let answer = compared(rt.alloc(), &asked, &mut files);
    ExitCode::from(tell(rt.alloc(), &asked, answer, &mut out))
}
