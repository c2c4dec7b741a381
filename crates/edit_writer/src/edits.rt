//! Edits of one text.

ghost use Rattle.std.specs.Prelude.{◌≡◌, ◌<◌, ◌+◌, ◌≤◌, length, IfOk};
ghost use Rattle.edit_writer.specs.Edits.{AreOrdered, edited};

use java_tree::{Items, NoMemory};
use std::alloc::Global;

/// The bytes from the offset `from` to before `to` become `text`.
#[derive(Drop)]
pub struct Edit {
    pub from: u32,
    pub to: u32,
    pub text: Items<u8>,
}

/// The text that ordered edits make, of memory of its own.
pub fn apply(alloc: Global, text: &[u8], edits: &[Edit]) -> Result<Vec<u8>, NoMemory>
    requires { AreOrdered 0 edits.now (length text.now) }
    ensures { IfOk result (λ made. made.items ≡ edited edits.now text.now) }
{
    let mut out = Vec::new(alloc);
    let mut rest = text;
    let mut at = 0;
    for edit in edits {
        let (kept, more) = rest.split_at((edit.from - at) as usize);
        out.extend_from_slice(kept)?;
        out.extend_from_slice(edit.text.as_slice())?;
        let (_, behind) = more.split_at((edit.to - edit.from) as usize);
        rest = behind;
        at = edit.to;
    }
    out.extend_from_slice(rest)?;
    Ok(out)
}
