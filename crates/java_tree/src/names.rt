//! Names, numbered in the order in which they are first seen.

ghost use Rattle.std.specs.Prelude.{◌≡◌, ◌≢◌, ◌+◌, ◌-◌, ◌<◌, ◌^◌, ℕ, fold, length, None, Some, slice_get, IfOk, OnOk, OnErr, IfSome};
ghost use Rattle.java_tree.specs.Names.{with_text, number_of, IsFront, AreDistinct, built_in_names};

use crate::NoMemory;
use crate::tree::Name;
use indexmap::IndexSet;
use std::alloc::Global;
use std::marker::Model;

/// How many types a program has without declaring them. Their simple names have the first numbers.
pub const BUILT_IN_TYPES: u32 = 19;

/// The texts of names. Contracts see the list of their bytes, by number.
#[derive(Drop)]
pub struct Names {
    texts: IndexSet<String>,
    alloc: Global,
}

impl Model for Names {
    ghost use Rattle.std.specs.Prelude.{List, ℕ, map, length, ◌<◌, ◌^◌};
    ghost use Rattle.std.specs.String.{string_bytes};

    ghost Value = { List (List ℕ) };

    ghost view = { λ a. map string_bytes a.texts.keys };

    ghost invariant = { λ a. length a.texts.keys < 2 ^ 32 };
}

impl Names {
    /// The names of the built-in types: `Object` is 0, `String` is 1.
    pub fn new(alloc: Global) -> Result<Names, NoMemory>
        ensures { IfOk result (λ t. t ≡ built_in_names) }
    {
        let mut names = Names {
            texts: IndexSet::new(alloc),
            alloc,
        };
        names.intern_all(&[
            "Object",
            "String",
            "System",
            "PrintStream",
            "Throwable",
            "Exception",
            "Error",
            "RuntimeException",
            "ArithmeticException",
            "NullPointerException",
            "ClassCastException",
            "ArrayStoreException",
            "NegativeArraySizeException",
            "IndexOutOfBoundsException",
            "ArrayIndexOutOfBoundsException",
            "StringIndexOutOfBoundsException",
            "LinkageError",
            "ExceptionInInitializerError",
            "NoClassDefFoundError",
        ])?;
        Ok(names)
    }

    // Each text in turn.
    fn intern_all(&mut self, texts: &[&str]) -> Result<(), NoMemory>
        requires { length self.old + length texts.now < 2 ^ 32 }
        ensures { OnOk result (self.new ≡ fold (λ names t. with_text t.now names) self.old texts.now) }
    {
        for text in texts {
            self.intern(text)?;
        }
        Ok(())
    }

    /// How many names there are.
    pub fn len(&self) -> usize
        ensures value { result ≡ length self.now }
        ensures within { result < 2 ^ 32 }

        // No text has two numbers.
        ensures distinct { AreDistinct self.now }
    {
        self.texts.len()
    }

    /// The number of a text, which is a new one if it has none.
    pub fn intern(&mut self, text: &str) -> Result<Name, NoMemory>
        requires { length self.old < 2 ^ 32 - 1 }
        ensures number { IfOk result (λ n. n.0 ≡ number_of text.now self.old) }
        ensures table { OnOk result (self.new ≡ with_text text.now self.old) }
        ensures err { OnErr result (self.new ≡ self.old) }

        // The number has the text, and no number gets another.
        ensures given { IfOk result (λ n. slice_get self.new n.0 ≡ Some text.now) }
        ensures within { IfOk result (λ n. n.0 < length self.new) }
        ensures kept { IsFront self.old self.new }
    {
        if let Some(at) = self.texts.get_index_of(text) {
            return Ok(Name(at as u32));
        }
        let at = self.texts.len() as u32;
        let owned = String::from_str(self.alloc, text)?;
        self.texts.insert(owned)?;
        Ok(Name(at))
    }

    /// The number of a text, if it has one.
    pub fn find(&self, text: &str) -> Option<Name>
        ensures found { IfSome result (λ n. slice_get self.now n.0 ≡ Some text.now) }
        ensures absent { result ≡ None → (n : ℕ) → slice_get self.now n ≢ Some text.now }
    {
        let at = self.texts.get_index_of(text)?;
        Some(Name(at as u32))
    }

    /// The text of a name.
    pub fn text(&self, n: Name) -> &str
        requires { n.0 < length self.now }
        ensures { slice_get self.now n.0 ≡ Some result.now }
    {
        match self.texts.get_index(n.0 as usize) {
            Some(text) => text.as_str(),
            None => unreachable!(),
        }
    }
}
