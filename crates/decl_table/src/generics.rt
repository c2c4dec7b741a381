//! Which names mean generic types in a file.

ghost use Rattle.std.specs.Prelude.{◌≡◌, List, Some, slice_get};
ghost use Rattle.type_names.specs.declared.known.JavaNames.{JavaNames};
ghost use Rattle.type_names.specs.Known.{File};
ghost use Rattle.type_names.specs.Tables.{StandsFor};
ghost use Rattle.decl_table.specs.Program as program;
ghost use Rattle.decl_table.specs.Program.{is_generic_name};

use class_world::TypeInfo;
use decl_rules::GenericNames;
use java_tree::tree::Name;
use type_names::TypeNames;

/// The simple names that mean generic types in the file of this number. A name is looked up when it is asked for, since a file writes few of those that a program has.
#[derive(Clone, Copy)]
pub(crate) struct InFile<'a> {
    pub meant: &'a TypeNames,
    pub types: &'a [TypeInfo],
    pub file: u32,
}

impl GenericNames for InFile<'_> {
    ghost answers = { λ at n is. (j : JavaNames) (fs : List File) (f : File) → StandsFor at.meant.now j fs → slice_get fs at.file ≡ Some f → is ≡ is_generic_name j fs at.types.now f n };

    fn has(&self, name: Name) -> bool {
        means_generic(self.meant, self.types, self.file, name)
    }
}

/// Whether a simple name means a generic type in the file of this number.
fn means_generic(names: &TypeNames, types: &[TypeInfo], file: u32, name: Name) -> bool
    ensures { (j : JavaNames) (fs : List File) (f : File) → StandsFor names.now j fs → slice_get fs file ≡ Some f → result ≡ is_generic_name j fs types.now f name }
{
    match names.meant(file, name) {
        Some(number) => is_generic_type(types, number),
        None => false,
    }
}

fn is_generic_type(types: &[TypeInfo], number: u32) -> bool
    ensures { result ≡ program.is_generic_type types.now number }
{
    match types.get(number as usize) {
        Some(info) => 0 < info.params,
        None => false,
    }
}
