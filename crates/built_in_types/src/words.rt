//! The names of packages and members that the built-in types have.

ghost use Rattle.std.specs.Prelude.{◌≡◌, ◌+◌, ◌<◌, ◌≤◌, ◌^◌, length, map, IfOk, OnOk};
ghost use Rattle.java_tree.specs.Names.{IsFront};
ghost use Rattle.built_in_types.specs.BuiltIns.{AreNumbered, AreWords, name_of, place, with_texts, with_words};

use java_tree::tree::Name;
use java_tree::{Items, Names, NoMemory};
use std::alloc::Global;

/// A part of the name of a package, or the name of a member, of a built-in type.
#[derive(Clone, Copy, Debug, PartialEq, Eq)]
pub enum Word {
    Java,
    Lang,
    Io,
    ToString,
    Equals,
    HashCode,
    Length,
    CharAt,
    Substring,
    CompareTo,
    Out,
    Print,
    Println,
    GetMessage,
}

const TEXTS: [&str; 14] = [
    "java",
    "lang",
    "io",
    "toString",
    "equals",
    "hashCode",
    "length",
    "charAt",
    "substring",
    "compareTo",
    "out",
    "print",
    "println",
    "getMessage",
];

impl Word {
    /// Its place among the texts.
    fn place(self) -> usize
        ensures { result ≡ place self }
    {
        match self {
            Word::Java => 0,
            Word::Lang => 1,
            Word::Io => 2,
            Word::ToString => 3,
            Word::Equals => 4,
            Word::HashCode => 5,
            Word::Length => 6,
            Word::CharAt => 7,
            Word::Substring => 8,
            Word::CompareTo => 9,
            Word::Out => 10,
            Word::Print => 11,
            Word::Println => 12,
            Word::GetMessage => 13,
        }
    }
}

/// The numbers of these names in a table.
#[derive(Drop)]
pub struct Words {
    names: Items<Name>,
}

// The number of each text, in order.
fn intern_all(alloc: Global, names: &mut Names, texts: &[&str]) -> Result<Items<Name>, NoMemory>
    requires { length names.old + length texts.now < 2 ^ 32 }
    ensures numbers { IfOk result (λ ns. AreNumbered names.new (map (λ t. t.now) texts.now) ns) }
    ensures long { IfOk result (λ ns. length ns ≡ length texts.now) }
    ensures table { OnOk result (names.new ≡ with_texts (map (λ t. t.now) texts.now) names.old) }
    ensures kept { IsFront names.old names.new }
    ensures few { length names.new ≤ length names.old + length texts.now }
{
    let mut numbers = Items::new(alloc);
    for text in texts {
        numbers.push(names.intern(text)?)?;
    }
    Ok(numbers)
}

impl Words {
    /// The numbers of the names in a table, which gets those that it has not: at most 14, in the order of these names.
    pub fn of(alloc: Global, names: &mut Names) -> Result<Words, NoMemory>
        requires { length names.old + 14 < 2 ^ 32 }
        ensures words { IfOk result (λ w. AreWords names.new w) }
        ensures table { OnOk result (names.new ≡ with_words names.old) }
        ensures kept { IsFront names.old names.new }
        ensures few { length names.new ≤ length names.old + 14 }
    {
        Ok(Words {
            names: intern_all(alloc, names, &TEXTS)?,
        })
    }

    /// The number of a name.
    pub fn get(&self, word: Word) -> Name
        ensures { result ≡ name_of self.now word }
    {
        // There is one for each word.
        match self.names.get(word.place()) {
            Some(name) => *name,
            None => Name(0),
        }
    }
}
