//! What is reported of a run.

ghost use Rattle.std.specs.Prelude.{◌≡◌, ◌++◌, [], false, OnOk};
ghost use Rattle.core_meaning.specs.Classes as classes;
ghost use Rattle.core_meaning.specs.Runs as spec;
ghost use Rattle.running_code.specs.Running.{Makes};
ghost use Rattle.program_runs.specs.Ends.{Adds};

use core_meaning::End;
use java_tree::tree::Name;
use java_tree::{Items, NoMemory};
use running_code::{Running, text_of};
use std::alloc::Global;

fn add(bytes: &[u8], to: &mut Items<u8>) -> Result<(), NoMemory>
    ensures { OnOk result (to.new ≡ to.old ++ bytes.now) }
{
    for byte in bytes {
        to.push(*byte)?;
    }
    Ok(())
}

// The parts of a package, each with a dot behind it.
fn add_package(g: &Running<'_>, parts: &[Name], to: &mut Items<u8>) -> Result<(), NoMemory>
    ensures { Adds g.now result to.old to.new (λ c. classes.package_units c parts.now) }
{
    for part in parts {
        add(text_of(g.names, *part).as_bytes(), to)?;
        to.push(b'.')?;
    }
    Ok(())
}

// The full name of a class, in bytes.
fn add_full_name(g: &Running<'_>, class: u32, to: &mut Items<u8>) -> Result<(), NoMemory>
    ensures { Adds g.now result to.old to.new (λ c. classes.full_name c class) }
{
    match g.world.types.get(class as usize) {
        None => Ok(()),
        Some(info) => {
            add_package(g, info.package.as_slice(), to)?;
            add(text_of(g.names, info.name).as_bytes(), to)
        }
    }
}

fn add_end(g: &Running<'_>, end: End, to: &mut Items<u8>) -> Result<(), NoMemory>
    ensures { Adds g.now result to.old to.new (λ c. spec.end_line c end) }
{
    match end {
        End::Normal => add(b"end normal", to),
        End::Threw(class) => {
            add(b"end threw ", to)?;
            add_full_name(g, class, to)
        }
        End::AtBound => add(b"end bound", to),
    }
}

/// The number of the printed bytes, the bytes, and how the run ended.
pub(crate) fn report(
    alloc: Global,
    g: &Running<'_>,
    printed: &[u8],
    end: End,
) -> Result<Items<u8>, NoMemory>
    ensures { Makes g.now result (λ c. spec.report c (record { printed = printed.now; entered = []; end = end; wrong = false })) }
{
    let mut report = Items::new(alloc);
    add(b"printed ", &mut report)?;
    let length = printed.len();
    let length = format!(in alloc; "{length}")?;
    add(length.as_bytes(), &mut report)?;
    report.push(10)?;
    add(printed, &mut report)?;
    report.push(10)?;
    add_end(g, end, &mut report)?;
    report.push(10)?;
    Ok(report)
}
