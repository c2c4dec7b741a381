//! Sets of words.

ghost use Rattle.std.specs.Prelude.{◌≡◌, ◌↔◌, ℕ, List, [], ◌++◌, not, map, IsTrue, IfOk, OnOk};
ghost use Rattle.std.specs.String.{string_bytes};
ghost use Rattle.java_tree.specs.Names.{with_text, AreDistinct};
ghost use Rattle.command_words.specs.Names.{is_among, folder_of};

use crate::names::folder;
use indexmap::IndexSet;
use java_tree::NoMemory;
use std::alloc::Global;
use std::marker::Model;

/// Words, each once. Contracts see the list of their bytes.
#[derive(Drop)]
pub struct WordSet<'a> {
    words: IndexSet<&'a [u8]>,
}

impl<'a> Model for WordSet<'a> {
    ghost use Rattle.std.specs.Prelude.{List, ℕ, map};

    ghost Value = { List (List ℕ) };

    ghost view = { λ a. map (λ k. k.now) a.words.keys };
}

impl<'a> WordSet<'a> {
    pub fn new(alloc: Global) -> WordSet<'a>
        ensures { result ≡ [] }
    {
        WordSet {
            words: IndexSet::new(alloc),
        }
    }

    /// Adds a word, and tells whether it is new.
    pub fn insert(&mut self, word: &'a [u8]) -> Result<bool, NoMemory>
        ensures new { IfOk result (λ new. new ≡ not (is_among word.now self.old)) }
        ensures table { OnOk result (self.new ≡ with_text word.now self.old) }
    {
        Ok(self.words.insert(word)?)
    }

    /// Adds words up to the first one that is there already, and tells whether there is none.
    pub fn add_new(&mut self, words: &'a [String]) -> Result<bool, NoMemory>
        ensures table { IfOk result (λ new. IsTrue new → self.new ≡ self.old ++ map string_bytes words.now) }
        ensures new { IfOk result (λ new. AreDistinct self.old → (IsTrue new ↔ AreDistinct (self.old ++ map string_bytes words.now))) }
    {
        for word in words {
            if !self.insert(word.as_bytes())? {
                return Ok(false);
            }
        }
        Ok(true)
    }

    /// The words of a list.
    pub fn of(alloc: Global, words: &'a [String]) -> Result<WordSet<'a>, NoMemory>
        ensures { IfOk result (λ s. (w : List ℕ) → is_among w s ≡ is_among w (map string_bytes words.now)) }
    {
        let mut set = WordSet::new(alloc);
        for word in words {
            set.insert(word.as_bytes())?;
        }
        Ok(set)
    }

    /// The folders of files.
    pub fn of_folders(alloc: Global, files: &'a [String]) -> Result<WordSet<'a>, NoMemory>
        ensures { IfOk result (λ s. (w : List ℕ) → is_among w s ≡ is_among w (map (λ file. folder_of (string_bytes file)) files.now)) }
    {
        let mut set = WordSet::new(alloc);
        for file in files {
            set.insert(folder(file.as_bytes()))?;
        }
        Ok(set)
    }

    pub fn contains(&self, word: &[u8]) -> bool
        ensures { result ≡ is_among word.now self.now }
    {
        self.words.contains(word)
    }
}
