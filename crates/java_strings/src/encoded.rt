//! Strings of bytes in UTF-8, as the arguments of a program are given.

ghost use Rattle.std.specs.Prelude.{◌≡◌, ◌++◌, ◌<◌, ◌^◌, IfOk, OnOk};
ghost use Rattle.std.specs.Char.Escape.{encode_utf16};
ghost use Rattle.std.specs.Str.{continuation_len, lead_bits};
ghost use Rattle.core_meaning.specs.Texts as spec;

use java_tree::{Items, NoMemory};
use std::alloc::Global;

/// How many bytes follow the first byte of a character.
fn continuation_len(lead: u8) -> u8
    ensures { result ≡ continuation_len lead }
{
    if lead < 0x80 {
        0
    } else if lead < 0xE0 {
        1
    } else if lead < 0xF0 {
        2
    } else {
        3
    }
}

/// The bits of a character that its first byte holds.
fn lead_bits(lead: u8) -> u8
    ensures { result ≡ lead_bits lead }
{
    if lead < 0x80 {
        lead
    } else if lead < 0xE0 {
        lead.saturating_sub(0xC0)
    } else if lead < 0xF0 {
        lead - 0xE0
    } else {
        lead - 0xF0
    }
}

/// Appends the one or two units of a character.
fn add_character(code: u32, to: &mut Items<u16>) -> Result<(), NoMemory>
    requires { code < 2 ^ 23 }
    ensures { OnOk result (to.new ≡ to.old ++ encode_utf16 code) }
{
    if code < 0x1_0000 {
        to.push(code as u16)?;
    } else {
        to.push((0xD800 + (code - 0x1_0000) / 0x400) as u16)?;
        to.push((0xDC00 + (code - 0x1_0000) % 0x400) as u16)?;
    }
    Ok(())
}

/// The units of a string that is given in UTF-8. Bytes that are no UTF-8 are read as if they were, and a character that is cut off at the end is left out.
#[tactic(auto, using(crate::proofs::Reading::next_character, crate::proofs::Reading::next_byte, crate::proofs::Reading::last_character, crate::proofs::Reading::cut_off))]
pub fn units_of_bytes(alloc: Global, bytes: &[u8]) -> Result<Items<u16>, NoMemory>
    ensures { IfOk result (λ r. r ≡ spec.units_of_bytes bytes.now) }
{
    let mut units = Items::new(alloc);
    let Some((first, rest)) = bytes.split_first() else {
        return Ok(units);
    };
    let mut left = continuation_len(*first);
    let mut code = u32::from(lead_bits(*first));
    for byte in rest {
        if left == 0 {
            add_character(code, &mut units)?;
            left = continuation_len(*byte);
            code = u32::from(lead_bits(*byte));
        } else {
            left -= 1;
            code = code * 64 + u32::from(byte.saturating_sub(0x80));
        }
    }
    if left == 0 {
        add_character(code, &mut units)?;
    }
    Ok(units)
}
