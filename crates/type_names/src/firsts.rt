//! The first type of a name in a package.

ghost use Rattle.std.specs.Prelude.{◌≡◌, ◌<◌, ◌^◌, ◌&&◌, cond, length, Some, None, IfOk, OnOk};
ghost use Rattle.std.specs.List.{position_from};
ghost use Rattle.std.specs.Option.{option_or};
ghost use Rattle.type_names.specs.Tables.{same_key, fits, first_at};

use crate::known::Known;
use java_tree::NoMemory;
use std::alloc::Global;
use std::collections::HashMap;

/// A name in a package, of all types, of the public ones alone, of those alone that no user file declares, or of the public ones among these.
#[derive(Clone, Copy, Debug, PartialEq, Eq, Hash)]
pub(crate) struct TypeKey {
    pub(crate) public_only: bool,
    pub(crate) library_only: bool,
    pub(crate) package: usize,
    pub(crate) name: u32,
}

/// The number of the first type of each key.
#[derive(Drop)]
pub(crate) struct FirstTypes {
    firsts: HashMap<TypeKey, u32>,
}

impl FirstTypes {
    pub(crate) fn of(alloc: Global, types: &[Known]) -> Result<FirstTypes, NoMemory>
        requires { length types.now < 2 ^ 32 }
        ensures { IfOk result (λ t. (q : TypeKey) → first_at t q ≡ position_from (fits q) 0 types.now) }
    {
        let mut table = FirstTypes {
            firsts: HashMap::new(alloc),
        };
        for (at, known) in types.iter().enumerate() {
            table.note_keys(known, at as u32)?;
        }
        Ok(table)
    }

    // A type counts under each key that it fits.
    fn note_keys(&mut self, known: &Known, at: u32) -> Result<(), NoMemory>
        ensures { OnOk result ((q : TypeKey) → first_at self.new q ≡ option_or (first_at self.old q) (cond (fits q known.now) (Some at) None)) }
    {
        let plain = TypeKey {
            public_only: false,
            library_only: false,
            package: known.package,
            name: known.name.0,
        };
        let public = TypeKey {
            public_only: true,
            ..plain
        };
        let library = TypeKey {
            library_only: true,
            ..plain
        };
        let both = TypeKey {
            public_only: true,
            library_only: true,
            ..plain
        };
        self.note(plain, at, true)?;
        self.note(public, at, known.is_public)?;
        self.note(library, at, !known.user)?;
        self.note(both, at, known.is_public & !known.user)?;
        Ok(())
    }

    fn note(&mut self, key: TypeKey, at: u32, wanted: bool) -> Result<(), NoMemory>
        ensures { OnOk result ((q : TypeKey) → first_at self.new q ≡ cond (wanted && same_key key q) (option_or (first_at self.old q) (Some at)) (first_at self.old q)) }
    {
        if wanted && self.get(key).is_none() {
            self.firsts.insert(key, at)?;
        }
        Ok(())
    }

    pub(crate) fn get(&self, key: TypeKey) -> Option<u32>
        ensures { result ≡ first_at self.now key }
    {
        self.firsts.get(&key).copied()
    }
}
