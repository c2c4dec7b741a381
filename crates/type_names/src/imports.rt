//! The rule on imports.

ghost use Rattle.std.specs.Prelude.{◌≡◌, ◌↔◌, List, Some, IsTrue, map};
ghost use Rattle.java_tree.specs.View.{unit_plain};
ghost use Rattle.rule_order.specs.First.{IsFirst};
ghost use Rattle.type_names.specs.Known.{KnownType, File, files_of, types_of};
ghost use Rattle.type_names.specs.Rules.{Among, NamesNoType, NamesNothing, BreaksImport, ImportBreaches};
ghost use Rattle.type_names.specs.Paths.{number_in, place_in};
ghost use Rattle.type_names.specs.Tables.{files_in, HoldsTypes, HaveHomes, StandsFor};

use crate::files::{Home, type_in};
use crate::firsts::FirstTypes;
use crate::known::JavaNames;
use crate::packages::{breach_if, names_no_package};
use crate::paths::Packages;
use crate::table::TypeNames;
use java_tree::tree::{Import, Name, SourceUnit};
use rule_order::{Breach, earlier};

impl TypeNames {
    /// The first import that names nothing (DR1), for the files that the table was made of. Takes no memory, and a look-up for each name that the imports write.
    pub fn first_import_breach(
        &self,
        java: JavaNames,
        user: &[SourceUnit],
        lib: &[SourceUnit],
    ) -> Option<Breach>
        ensures { StandsFor self.now java (files_of (map unit_plain user.now) (map unit_plain lib.now))
            → IsFirst (ImportBreaches java (files_of (map unit_plain user.now) (map unit_plain lib.now))) result }
    {
        let in_user = self.first_breach_of(java, user, true);
        let in_lib = self.first_breach_of(java, lib, false);
        earlier(in_user, in_lib)
    }

    fn first_breach_of(
        &self,
        java: JavaNames,
        units: &[SourceUnit],
        from_user: bool,
    ) -> Option<Breach>
        ensures { (fs : List File) → StandsFor self.now java fs → HaveHomes self.now.packages (files_in from_user (map unit_plain units.now))
            → IsFirst (Among (λ f. Among (BreaksImport java fs f) f.unit.imports) (files_in from_user (map unit_plain units.now))) result }
    {
        let mut found = None;
        for unit in units {
            found = earlier(found, self.breach_in(java, unit, from_user));
        }
        found
    }

    fn breach_in(&self, java: JavaNames, unit: &SourceUnit, from_user: bool) -> Option<Breach>
        ensures { (fs : List File) → StandsFor self.now java fs → number_in self.now.packages unit.now.«package» ≡ Some (place_in self.now.packages unit.now.«package»)
            → IsFirst (Among (BreaksImport java fs (record { unit = unit_plain unit.now; user = from_user })) unit.now.imports) result }
    {
        let home = Home {
            package: self
                .packages
                .number_of(unit.package.as_slice())
                .unwrap_or(0),
            user: from_user,
        };
        let mut found = None;
        for import in unit.imports.as_slice() {
            let broken = self.names_nothing(java, home, import);
            found = earlier(found, breach_if(broken, import.node.id, 1));
        }
        found
    }

    fn names_nothing(&self, java: JavaNames, home: Home, import: &Import) -> bool
        ensures { (fs : List File) (f : File) → StandsFor self.now java fs → number_in self.now.packages f.unit.«package» ≡ Some home.«package» → home.user ≡ f.user
            → IsTrue result ↔ NamesNothing (types_of java fs) java fs f import.now }
    {
        let path = import.path.as_slice();
        if import.all {
            return names_no_package(java, &self.packages, &self.library, home.user, path);
        }
        names_no_type(&self.packages, &self.firsts, home, path)
    }
}

/// Whether a single-type import names no type that is open to the file.
fn names_no_type(packages: &Packages, firsts: &FirstTypes, home: Home, path: &[Name]) -> bool
    ensures { (ts : List KnownType) (f : File) → HoldsTypes packages.now firsts.now ts → number_in packages.now f.unit.«package» ≡ Some home.«package» → home.user ≡ f.user
        → IsTrue result ↔ NamesNoType ts f path.now }
{
    match path.split_last() {
        Some((name, package)) => type_in(packages, firsts, home, package, *name).is_none(),
        None => true,
    }
}
