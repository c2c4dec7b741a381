//! The numbers of the classes of a core.

ghost use Rattle.std.specs.Prelude.{◌↔◌, IsTrue, map};
ghost use Rattle.java_core.specs.View.{class_plain, file_plain};
ghost use Rattle.alike_programs.specs.Known.{AreKnown, AreKnownIn};

use java_core::{CoreClass, CoreFile};

fn are_known_classes(classes: &[CoreClass], count: usize) -> bool
    ensures { IsTrue result ↔ AreKnown count (map class_plain classes.now) }
{
    match classes.split_first() {
        None => true,
        Some((class, rest)) => (class.number as usize) < count && are_known_classes(rest, count),
    }
}

/// Whether the numbers of all classes of files are below a count.
pub(crate) fn are_known(files: &[CoreFile], count: usize) -> bool
    ensures { IsTrue result ↔ AreKnownIn count (map file_plain files.now) }
{
    match files.split_first() {
        None => true,
        Some((file, rest)) => {
            are_known_classes(file.classes.as_slice(), count) && are_known(rest, count)
        }
    }
}
