//! Numbers for pairs of a name and a number of parameters.

ghost use Rattle.std.specs.Prelude.{◌≡◌, ◌<◌, ◌^◌, ◌⊎◌, ℕ, length, Some, IfOk, OnOk};
ghost use Rattle.member_methods.specs.Keys.{AreKeys, found_in};
ghost use Rattle.member_methods.specs.Keys as spec;
ghost use Rattle.member_methods.specs.declared.keys.Key as declared;

use class_world::{MethodInfo, World};
use java_tree::NoMemory;
use std::alloc::Global;
use std::collections::HashMap;

/// A name, by number, and a number of parameters.
#[derive(Clone, Copy, PartialEq, Eq, Hash)]
pub(crate) struct Key {
    pub(crate) name: u32,
    pub(crate) arity: usize,
}

/// The numbers of the keys, and for each method that of its key: it is the first method's with this key. Constructors count too.
pub(crate) fn keyed(alloc: Global, w: &World) -> Result<(HashMap<Key, u32>, Vec<u32>), NoMemory>
    ensures keys { IfOk result (λ r. AreKeys w.now (found_in r.0) r.1.items) }
    ensures few { IfOk result (λ r. length r.1.items < 2 ^ 32) }
{
    // More methods than numbers find no room in the memory of any machine.
    if w.methods.len() > u32::MAX as usize {
        return Err(NoMemory);
    }
    let mut keys = HashMap::new(alloc);
    let mut keyed = Vec::new(alloc);
    for info in w.methods.as_slice() {
        let number = number_of(&mut keys, key_of(info), keyed.len() as u32)?;
        keyed.push(number)?;
    }
    Ok((keys, keyed))
}

fn key_of(info: &MethodInfo) -> Key
    ensures { result ≡ spec.key_of info.now }
{
    Key {
        name: info.name.0,
        arity: info.params.len(),
    }
}

/// The number of a key, which is `next` if it has none.
fn number_of(keys: &mut HashMap<Key, u32>, key: Key, next: u32) -> Result<u32, NoMemory>
    ensures found { IfOk result (λ n. found_in keys.new key ≡ Some n) }
    ensures kept { OnOk result ((q : declared.Key) (k : ℕ) → found_in keys.old q ≡ Some k → found_in keys.new q ≡ Some k) }
    ensures only { OnOk result ((q : declared.Key) (k : ℕ) → found_in keys.new q ≡ Some k → (found_in keys.old q ≡ Some k) ⊎ ((q ≡ key) × (k ≡ next))) }
{
    match keys.get(&key) {
        Some(number) => Ok(*number),
        None => {
            keys.insert(key, next)?;
            Ok(next)
        }
    }
}
