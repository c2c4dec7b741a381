//! The words: `[--weak] OLD FILES -- NEW FILES [+ LIBRARY FILES]`.

/// What is compared: the files of the old program and of the new one, and the library files of both.
#[derive(Clone, Copy)]
pub struct Asked<'a> {
    pub strict: bool,
    pub old: &'a [String],
    pub new: &'a [String],
    pub libraries: &'a [String],
}

// What stands before a sign, and what behind it.
fn split<'a>(words: &'a [String], sign: &str) -> (&'a [String], &'a [String]) {
    match words.iter().position(|word| word.as_str() == sign) {
        Some(at) => (&words[..at], &words[at + 1..]),
        None => words.split_at(words.len()),
    }
}

/// The words by their parts. `--weak` asks for runs alone in which nothing goes wrong.
pub fn parts_of(words: &[String]) -> Asked<'_> {
    let (strict, words) = match words.split_first() {
        Some((word, rest)) if word.as_str() == "--weak" => (false, rest),
        _ => (true, words),
    };
    let (old, rest) = split(words, "--");
    let (new, libraries) = split(rest, "+");
    Asked {
        strict,
        old,
        new,
        libraries,
    }
}
