//! Whether edits can be made together.

ghost use Rattle.std.specs.Prelude.{◌≡◌, ◌↔◌, length, IsTrue};
ghost use Rattle.edit_writer.specs.Edits.{AreOrdered};
ghost use Rattle.changed_files.specs.NewFiles.{AreAllOrdered};

use edit_writer::Edit;
use java_tree::Items;

/// Whether each edit begins where the one before it ends or later, and none passes an offset, the end of the text.
pub fn are_ordered(edits: &[Edit], end: usize) -> bool
    ensures { IsTrue result ↔ AreOrdered 0 edits.now end }
{
    let mut at = 0;
    for edit in edits {
        if edit.from < at || edit.to < edit.from {
            return false;
        }
        at = edit.to;
    }
    at as usize <= end
}

/// Whether the edits of each text can be made together.
pub fn are_all_ordered(texts: &[Items<u8>], edits: &[Items<Edit>]) -> bool
    requires { length edits.now ≡ length texts.now }
    ensures { IsTrue result ↔ AreAllOrdered edits.now texts.now }
{
    for file in 0..edits.len() {
        if !are_ordered(edits[file].as_slice(), texts[file].len()) {
            return false;
        }
    }
    true
}
