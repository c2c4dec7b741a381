//! The new files of a program.

ghost use Rattle.std.specs.Prelude.{◌≡◌, ◌<◌, ◌^◌, List, length, map, All, IfOk, IfSome};
ghost use Rattle.java_tree.specs.View.{unit_plain};
ghost use Rattle.java_tree.specs.declared.tree.Token.{Token};
ghost use Rattle.changed_files.specs.NewFiles as spec;
ghost use Rattle.changed_files.specs.NewFiles.{AreAllOrdered, AreNew, AreTokens};

use crate::file::edits_of;
use crate::order::are_all_ordered;
use edit_writer::{Edit, apply};
use java_tree::tree::{SourceUnit, Span};
use java_tree::{Items, NoMemory};
use std::alloc::Global;

/// The edits of each file of a program, and the text that they make of it.
#[derive(Drop)]
pub struct NewFiles {
    pub edits: Items<Items<Edit>>,
    pub texts: Items<Items<u8>>,
}

fn all_edits(
    alloc: Global,
    texts: &[Items<u8>],
    units: &[SourceUnit],
    sees: &[bool],
    heads: &[Items<Span>],
    name: &[u8],
    full_name: &[u8],
) -> Result<Option<Items<Items<Edit>>>, NoMemory>
    requires short { All (λ text. length text < 2 ^ 27) texts.now }
    requires units { length units.now ≡ length texts.now }
    requires sees { length sees.now ≡ length texts.now }
    requires heads { length heads.now ≡ length texts.now }
    ensures edits { (tss : List (List Token)) → AreTokens texts.now tss
        → IfOk result (λ r. r ≡ spec.all_edits texts.now tss (map unit_plain units.now) sees.now heads.now name.now full_name.now) }
    ensures count { IfOk result (λ r. IfSome r (λ ess. length ess ≡ length texts.now)) }
{
    let mut all = Items::new(alloc);
    for file in 0..texts.len() {
        let made = edits_of(
            alloc,
            texts[file].as_slice(),
            &units[file],
            sees[file],
            heads[file].as_slice(),
            name,
            full_name,
        )?;
        let Some(edits) = made else {
            return Ok(None);
        };
        all.push(edits)?;
    }
    Ok(Some(all))
}

fn new_texts(
    alloc: Global,
    texts: &[Items<u8>],
    edits: &[Items<Edit>],
) -> Result<Items<Items<u8>>, NoMemory>
    requires count { length edits.now ≡ length texts.now }
    requires ordered { AreAllOrdered edits.now texts.now }
    ensures { IfOk result (λ r. r ≡ spec.all_edited edits.now texts.now) }
{
    let mut made = Items::new(alloc);
    for file in 0..texts.len() {
        let text = apply(alloc, texts[file].as_slice(), edits[file].as_slice())?;
        made.push(Items::from_vec(text))?;
    }
    Ok(made)
}

/// The new files that edits make, each text with its own: `None` where those of one text are not in order or pass its end.
pub fn edited_files(
    alloc: Global,
    texts: &[Items<u8>],
    edits: Items<Items<Edit>>,
) -> Result<Option<NewFiles>, NoMemory>
    requires { length edits ≡ length texts.now }
    ensures { IfOk result (spec.IsMade texts.now edits) }
{
    if !are_all_ordered(texts, edits.as_slice()) {
        return Ok(None);
    }
    let texts = new_texts(alloc, texts, edits.as_slice())?;
    Ok(Some(NewFiles { edits, texts }))
}

/// The new files of a program, of texts of less than 2^27 bytes with these trees, in which the heads of types at these spans, by file, become a
/// simple name. `sees` tells of each file whether it sees the type by that name; any other file with such heads gets an import by the full name.
/// There is `None` where the import has no place or the edits of a file overlap.
pub fn new_files(
    alloc: Global,
    texts: &[Items<u8>],
    units: &[SourceUnit],
    sees: &[bool],
    heads: &[Items<Span>],
    name: &[u8],
    full_name: &[u8],
) -> Result<Option<NewFiles>, NoMemory>
    requires short { All (λ text. length text < 2 ^ 27) texts.now }
    requires units { length units.now ≡ length texts.now }
    requires sees { length sees.now ≡ length texts.now }
    requires heads { length heads.now ≡ length texts.now }
    ensures { (tss : List (List Token)) → AreTokens texts.now tss
        → IfOk result (AreNew texts.now tss (map unit_plain units.now) sees.now heads.now name.now full_name.now) }
{
    match all_edits(alloc, texts, units, sees, heads, name, full_name)? {
        Some(edits) => edited_files(alloc, texts, edits),
        None => Ok(None),
    }
}
