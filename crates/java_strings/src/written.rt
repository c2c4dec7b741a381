//! What values say as strings (JLS 3rd edition, 15.18.1.1).

ghost use Rattle.std.specs.Prelude.{◌≡◌, ◌<◌, ◌++◌, false, IfOk, OnOk, decimal};
ghost use Rattle.std.specs.Fmt.{digit_glyph, digits};
ghost use Rattle.core_meaning.specs.Texts as spec;

use java_tree::{Items, NoMemory};
use std::alloc::Global;
use std::mem;

/// Appends the units of another string, copied as a whole. Where memory runs out, the list stays as it was.
pub fn add_units(alloc: Global, units: &[u16], to: &mut Items<u16>) -> Result<(), NoMemory>
    ensures { OnOk result (to.new ≡ to.old ++ units.now) }
{
    let mut all = mem::replace(to, Items::new(alloc)).into_vec();
    let added = all.extend_from_slice(units);
    *to = Items::from_vec(all);
    added?;
    Ok(())
}

/// Appends a text of ASCII characters: each byte is a unit.
pub fn add_ascii(text: &[u8], to: &mut Items<u16>) -> Result<(), NoMemory>
    ensures { OnOk result (to.new ≡ to.old ++ text.now) }
{
    for code in text {
        to.push(u16::from(*code))?;
    }
    Ok(())
}

/// Appends a natural number in decimal. It has 20 digits at most, and so many calls are open.
#[tactic(auto, using(crate::proofs::Digits::decimal_grows, std::proofs::lemmas::Fmt::decimal_digit))]
fn add_decimal(n: u64, to: &mut Items<u16>) -> Result<(), NoMemory>
    ensures { OnOk result (to.new ≡ to.old ++ decimal n) }
{
    if n < 10 {
        to.push(48 + n as u16)?;
        return Ok(());
    }
    add_decimal(n / 10, to)?;
    to.push(48 + (n % 10) as u16)?;
    Ok(())
}

/// Appends an int or a long in decimal.
pub fn add_number(n: i64, to: &mut Items<u16>) -> Result<(), NoMemory>
    ensures { OnOk result (to.new ≡ to.old ++ spec.number_units n) }
{
    if n < 0 {
        to.push(u16::from(b'-'))?;
    }
    add_decimal(n.unsigned_abs(), to)
}

fn hex_digit(n: u32) -> u16
    requires { n < 16 }
    ensures { result ≡ digit_glyph false n }
{
    let digit = n as u16;
    if digit < 10 { 48 + digit } else { 87 + digit }
}

/// Appends a number in lower-case hexadecimal.
#[tactic(auto, using(crate::proofs::Digits::hex_grows, std::proofs::lemmas::Fmt::hex_one_digit))]
fn add_hexadecimal(n: u32, to: &mut Items<u16>) -> Result<(), NoMemory>
    ensures { OnOk result (to.new ≡ to.old ++ digits 16 false n) }
{
    if n < 16 {
        to.push(hex_digit(n))?;
        return Ok(());
    }
    add_hexadecimal(n / 16, to)?;
    to.push(hex_digit(n % 16))?;
    Ok(())
}

/// Appends an int as an unsigned number, in lower-case hexadecimal.
pub fn add_hex(z: i32, to: &mut Items<u16>) -> Result<(), NoMemory>
    ensures { OnOk result (to.new ≡ to.old ++ spec.hex_units z) }
{
    add_hexadecimal(z.cast_unsigned(), to)
}

/// Appends `true` or `false`.
pub fn add_truth(b: bool, to: &mut Items<u16>) -> Result<(), NoMemory>
    ensures { OnOk result (to.new ≡ to.old ++ spec.truth_units b) }
{
    if b {
        add_ascii(b"true", to)
    } else {
        add_ascii(b"false", to)
    }
}

/// Appends `null`.
pub fn add_null(to: &mut Items<u16>) -> Result<(), NoMemory>
    ensures { OnOk result (to.new ≡ to.old ++ spec.null_units) }
{
    add_ascii(b"null", to)
}

/// An int or a long in decimal, as a new list.
pub fn number_units(alloc: Global, n: i64) -> Result<Items<u16>, NoMemory>
    ensures { IfOk result (λ r. r ≡ spec.number_units n) }
{
    let mut units = Items::new(alloc);
    add_number(n, &mut units)?;
    Ok(units)
}

/// `true` or `false`, as a new list.
pub fn truth_units(alloc: Global, b: bool) -> Result<Items<u16>, NoMemory>
    ensures { IfOk result (λ r. r ≡ spec.truth_units b) }
{
    let mut units = Items::new(alloc);
    add_truth(b, &mut units)?;
    Ok(units)
}

/// `null`, as a new list.
pub fn null_units(alloc: Global) -> Result<Items<u16>, NoMemory>
    ensures { IfOk result (λ r. r ≡ spec.null_units) }
{
    let mut units = Items::new(alloc);
    add_null(&mut units)?;
    Ok(units)
}
