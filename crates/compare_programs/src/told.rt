//! What is put of a comparison, and the exit status: 0 where the programs are alike, 1 where they differ, 2 where one is no checked program, 6 where nothing could be put,
//! 7 where memory ran out.

use crate::asked::Asked;
use crate::programs::{Answer, Stop};
use alike_programs::Difference;
use java_tree::NoMemory;
use std::alloc::Global;
use tool_files::Sink;

fn word(difference: Difference) -> &'static str {
    match difference {
        Difference::Tables => "differs in tables\n",
        Difference::Order => "differs in the order of types\n",
        Difference::Calls => "differs in what calls find\n",
        Difference::Tree(_) => "differs in a tree\n",
    }
}

// The name of a file of the old program, by its number.
fn name_of<'a>(asked: &Asked<'a>, file: usize) -> &'a str {
    let name = match asked.old.get(file) {
        Some(name) => Some(name),
        None => asked.libraries.get(file - asked.old.len()),
    };
    match name {
        Some(name) => name.as_str(),
        None => "-",
    }
}

// The line of a difference: its file, its line and its column in bytes, both from 1.
fn line(alloc: Global, name: &str, line: u32, col: u32, call: bool) -> Result<String, NoMemory> {
    let what = if call { "differs in a call" } else { "differs" };
    Ok(format!(in alloc; "{what} at {name}:{line}:{col}\n")?)
}

fn put<K: Sink>(out: &mut K, text: &str, status: u8) -> u8 {
    match out.put(text.as_bytes()) {
        Ok(()) => status,
        Err(_) => 6,
    }
}

/// Puts an answer, and gives the exit status.
pub fn tell<K: Sink>(
    alloc: Global,
    asked: &Asked<'_>,
    answer: Result<Answer, Stop>,
    out: &mut K,
) -> u8 {
    match answer {
        Ok(Answer::Alike) => put(out, "alike\n", 0),
        Ok(Answer::Differs(difference)) => put(out, word(difference), 1),
        Ok(Answer::At { file, place, call }) => {
            match line(alloc, name_of(asked, file), place.line, place.col, call) {
                Ok(text) => put(out, text.as_str(), 1),
                Err(_) => 7,
            }
        }
        Err(Stop::Old) => put(out, "the old files are no checked program\n", 2),
        Err(Stop::New) => put(out, "the new files are no checked program\n", 2),
        Err(Stop::NoMemory) => 7,
    }
}
