//! Names that the check of a program asks for.

ghost use Rattle.std.specs.Prelude.{◌≡◌, ℕ, Some, codes, slice_get};
ghost use Rattle.java_tree.specs.Names.{AreDistinct};
ghost use Rattle.built_in_types.specs.declared.words.Words.{Words};
ghost use Rattle.built_in_types.specs.declared.words.Word.TheVariants.{Length};
ghost use Rattle.built_in_types.specs.BuiltIns.{AreWords, name_of};
ghost use Rattle.decl_table.specs.Program as program;

use java_tree::Names;
use java_tree::tree::Name;
use type_names::JavaNames;

// The number of a text that the table has.
fn number_of(names: &Names, text: &str) -> Name
    requires { (n : ℕ) × (slice_get names.now n ≡ Some text.now) }
    ensures { slice_get names.now result.0 ≡ Some text.now }
{
    names.find(text).unwrap()
}

/// The names that the packages of built-in types are made of.
pub fn java_names(names: &Names) -> JavaNames
    requires distinct { AreDistinct names.now }
    requires words { (w : Words) × AreWords names.now w }
    ensures { (w : Words) → AreWords names.now w → result ≡ program.java_names w }
{
    JavaNames {
        java: number_of(names, "java"),
        lang: number_of(names, "lang"),
        io: number_of(names, "io"),
    }
}

/// The name of the field of arrays (JLS 10.7).
pub fn length_name(names: &Names) -> Name
    requires distinct { AreDistinct names.now }
    requires words { (w : Words) × AreWords names.now w }
    ensures { (w : Words) → AreWords names.now w → result ≡ name_of w Length }
{
    number_of(names, "length")
}
