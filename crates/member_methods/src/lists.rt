//! Lists of numbers, each ascending, in one memory.

ghost use Rattle.std.specs.Prelude.{◌≡◌, ◌⊎◌, ◌↔◌, ℕ, [], Some, IfOk};
ghost use Rattle.std.specs.List.{Contains};
ghost use Rattle.std.specs.List.Sorted.{IsStrictlyIncreasing};
ghost use Rattle.member_methods.specs.Lists.{IsList, IsListOf, list_at};

use java_tree::NoMemory;
use std::alloc::Global;
use std::marker::Model;

/// The place of a list among the numbers of all lists.
#[derive(Clone, Copy)]
struct Part {
    from: usize,
    len: usize,
}

/// Lists that stay as they are, each known by its number. Contracts see the list of them.
#[derive(Drop)]
pub(crate) struct Lists {
    numbers: Vec<u32>,
    parts: Vec<Part>,
}

impl Model for Lists {
    ghost use Rattle.std.specs.Prelude.{List, ℕ, map};
    ghost use Rattle.member_methods.specs.Lists.{AreWithin, list_of};

    ghost Value = { List (List ℕ) };

    ghost view = { λ l. map (list_of l.numbers.items) l.parts.items };

    ghost invariant = { λ l. AreWithin l.numbers.items l.parts.items };
}

impl Lists {
    pub(crate) fn new(alloc: Global) -> Lists
        ensures { result ≡ [] }
    {
        Lists {
            numbers: Vec::new(alloc),
            parts: Vec::new(alloc),
        }
    }

    /// The list with a number; a number of no list counts as an empty list.
    pub(crate) fn get(&self, list: u32) -> &[u32]
        ensures { result.now ≡ list_at self.now (Some list) }
    {
        match self.parts.get(list as usize) {
            Some(part) => &self.numbers.as_slice()[part.from..part.from + part.len],
            None => &[],
        }
    }

    /// The number of a list of these numbers, each once.
    pub(crate) fn add(&mut self, mut numbers: Vec<u32>) -> Result<u32, NoMemory>
        ensures { IfOk result (λ n. IsListOf self.old self.new n (Contains numbers.items)) }
    {
        numbers.sort_unstable();
        numbers.dedup();
        self.push(numbers.as_slice())
    }

    fn push(&mut self, numbers: &[u32]) -> Result<u32, NoMemory>
        requires { IsStrictlyIncreasing numbers.now }
        ensures { IfOk result (λ n. IsListOf self.old self.new n (Contains numbers.now)) }
    {
        let list = self.parts.len();
        if list > u32::MAX as usize {
            return Err(NoMemory);
        }
        let part = Part {
            from: self.numbers.len(),
            len: numbers.len(),
        };
        self.numbers.extend_from_slice(numbers)?;
        self.parts.push(part)?;
        Ok(list as u32)
    }

    /// The number of a list of what two lists have; of one of the two, if that has all.
    pub(crate) fn joined(&mut self, alloc: Global, a: u32, b: u32) -> Result<u32, NoMemory>
        requires { IsList self.old a × IsList self.old b }
        ensures { IfOk result (λ n. IsListOf self.old self.new n (λ m. Contains (list_at self.old (Some a)) m ⊎ Contains (list_at self.old (Some b)) m)) }
    {
        if a == b {
            return Ok(a);
        }
        let both = union(alloc, self.get(a), self.get(b))?;
        if both.as_slice() == self.get(a) {
            return Ok(a);
        }
        if both.as_slice() == self.get(b) {
            return Ok(b);
        }
        self.push(both.as_slice())
    }
}

/// The numbers of two lists, ascending and each once.
fn union(alloc: Global, xs: &[u32], ys: &[u32]) -> Result<Vec<u32>, NoMemory>
    ensures ascending { IfOk result (λ v. IsStrictlyIncreasing v.items) }
    ensures has { IfOk result (λ v. (m : ℕ) → Contains v.items m ↔ (Contains xs.now m ⊎ Contains ys.now m)) }
{
    let mut both = Vec::from_slice(alloc, xs)?;
    both.extend_from_slice(ys)?;
    both.sort_unstable();
    both.dedup();
    Ok(both)
}
