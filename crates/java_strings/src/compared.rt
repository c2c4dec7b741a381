//! How strings compare, and their hash codes and lengths, as the methods of String tell them.

ghost use Rattle.std.specs.Prelude.{◌≡◌, length, pos, neg_ℤ, ◌+ℤ◌, ◌*ℤ◌};
ghost use Rattle.std.specs.Int.{w32, int_wrap};
ghost use Rattle.core_meaning.specs.Texts as spec;

/// Whether two strings have the same units.
pub fn same_units(a: &[u16], b: &[u16]) -> bool
    ensures { result ≡ spec.same_units a.now b.now }
{
    a == b
}

/// The hash code of a string with one more unit.
#[tactic(auto, using(crate::proofs::Comparing::hash_wraps))]
fn hash_with(hash: i32, unit: u16) -> i32
    ensures { result ≡ int_wrap w32 (hash *ℤ pos 31 +ℤ pos unit) }
{
    hash.wrapping_mul(31).wrapping_add(i32::from(unit))
}

/// The hash code of a string.
#[tactic(auto, using(crate::proofs::Comparing::hash_step, crate::proofs::Comparing::hash_end))]
pub fn hash_of(units: &[u16]) -> i32
    ensures { result ≡ spec.hash_of units.now }
{
    let mut hash: i32 = 0;
    for unit in units {
        hash = hash_with(hash, *unit);
    }
    hash
}

/// How long a string says it is: the low 32 bits.
#[tactic(auto, using(crate::proofs::Comparing::low_length))]
pub fn length_of(units: &[u16]) -> i32
    ensures { result ≡ spec.length_of units.now }
{
    ((units.len() % 0x1_0000_0000) as u32).cast_signed()
}

/// Less than zero by how long a string says it is.
fn negative_length(units: &[u16]) -> i32
    ensures { result ≡ int_wrap w32 (neg_ℤ (pos (length units.now))) }
{
    length_of(units).wrapping_neg()
}

/// The difference of the first units that differ, or else of the lengths, of which the low 32 bits count.
#[tactic(auto, using(crate::proofs::Comparing::differ_at, crate::proofs::Comparing::same_at, crate::proofs::Comparing::first_ends))]
pub fn difference(a: &[u16], b: &[u16]) -> i32
    ensures { result ≡ int_wrap w32 (spec.difference a.now b.now) }
{
    for (at, unit) in a.iter().enumerate() {
        match b.get(at) {
            None => return length_of(&a[at..]),
            Some(other) => {
                if *unit != *other {
                    return i32::from(*unit) - i32::from(*other);
                }
            }
        }
    }
    negative_length(&b[a.len()..])
}
