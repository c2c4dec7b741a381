//! What is printed of strings: UTF-8, with a question mark for a surrogate without its other half.

ghost use Rattle.std.specs.Prelude.{◌≡◌, ◌∷◌, ◌++◌, ◌<◌, ◌≤◌, ◌&&◌, length, IfOk, true, OnOk, encode_utf8};
ghost use Rattle.std.specs.Char.Utf16.{lone_unit_char, is_high_surrogate, is_low_surrogate, surrogate_pair_char};
ghost use Rattle.core_meaning.specs.Texts as spec;

use java_tree::{Items, NoMemory};

/// Whether two units are a pair of surrogates.
fn is_pair(high: u16, low: u16) -> bool
    ensures { result ≡ (is_high_surrogate high && is_low_surrogate low) }
{
    0xD800 <= high && high < 0xDC00 && 0xDC00 <= low && low < 0xE000
}

/// Appends the bytes of a character.
fn add_code(code: u32, to: &mut Items<u8>) -> Result<(), NoMemory>
    requires { code < 0x11_0000 }
    ensures { OnOk result (to.new ≡ to.old ++ encode_utf8 code) }
{
    if code < 0x80 {
        to.push(code as u8)?;
    } else if code < 0x800 {
        to.push((0xC0 + code / 0x40) as u8)?;
        to.push((0x80 + code % 0x40) as u8)?;
    } else if code < 0x1_0000 {
        to.push((0xE0 + code / 0x1000) as u8)?;
        to.push((0x80 + code / 0x40 % 0x40) as u8)?;
        to.push((0x80 + code % 0x40) as u8)?;
    } else {
        to.push((0xF0 + code / 0x4_0000) as u8)?;
        to.push((0x80 + code / 0x1000 % 0x40) as u8)?;
        to.push((0x80 + code / 0x40 % 0x40) as u8)?;
        to.push((0x80 + code % 0x40) as u8)?;
    }
    Ok(())
}

/// Appends the bytes of a unit that is in no pair.
fn add_lone_unit(unit: u16, to: &mut Items<u8>) -> Result<(), NoMemory>
    ensures { OnOk result (to.new ≡ to.old ++ spec.character_bytes (lone_unit_char unit)) }
{
    if 0xD800 <= unit && unit < 0xE000 {
        to.push(b'?')?;
        return Ok(());
    }
    add_code(u32::from(unit), to)
}

/// Appends the bytes of a pair of surrogates.
fn add_pair(high: u16, low: u16, to: &mut Items<u8>) -> Result<(), NoMemory>
    requires { (is_high_surrogate high && is_low_surrogate low) ≡ true }
    ensures { OnOk result (to.new ≡ to.old ++ encode_utf8 (surrogate_pair_char high low)) }
{
    let code = 0x1_0000 + (u32::from(high) - 0xD800) * 0x400 + (u32::from(low) - 0xDC00);
    add_code(code, to)
}

/// Appends the bytes of the first character of the units, and tells the units that are left.
fn add_first<'a>(unit: u16, after: &'a [u16], to: &mut Items<u8>) -> Result<&'a [u16], NoMemory>
    ensures printed { IfOk result (λ rest. to.new ++ spec.printed_bytes rest.now ≡ to.old ++ spec.printed_bytes (unit ∷ after.now)) }
    ensures shorter { IfOk result (λ rest. length rest.now ≤ length after.now) }
{
    match after.split_first() {
        None => {
            add_lone_unit(unit, to)?;
            Ok(after)
        }
        Some((low, rest)) => {
            if is_pair(unit, *low) {
                add_pair(unit, *low, to)?;
                Ok(rest)
            } else {
                add_lone_unit(unit, to)?;
                Ok(after)
            }
        }
    }
}

/// Appends what a string prints.
#[tactic(auto, using(crate::proofs::Bytes::printed_all))]
pub fn add_printed(units: &[u16], to: &mut Items<u8>) -> Result<(), NoMemory>
    ensures { OnOk result (to.new ≡ to.old ++ spec.printed_bytes units.now) }
{
    let mut rest = units;
    while let Some((unit, after)) = rest.split_first() {
        rest = add_first(*unit, after, to)?;
    }
    Ok(())
}
