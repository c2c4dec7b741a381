//! A line of a report, with memory of its own.

use java_tree::Items;

/// A line. A file is named by its parts joined by `/`, and a place is a text `FILE:LINE:COL`, with lines and columns from 1; columns count bytes.
#[derive(Drop)]
pub enum Line {
    /// The bytes of the file from the offset `from` to before `to` become the text.
    Edit {
        file: String,
        from: u32,
        to: u32,
        text: Items<u8>,
    },
    /// A new file, and its size in bytes.
    Create {
        file: String,
        bytes: u64,
    },
    /// A place that keeps its type: the kind and the place of the node that is the cause, and the next kept place, where the node leads to one.
    Kept {
        place: String,
        kind: String,
        node: String,
        next: Option<String>,
    },
    /// The number of edits.
    Done {
        edits: u32,
    },
}
