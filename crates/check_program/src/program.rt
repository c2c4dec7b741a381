//! The check of programs.

ghost use Rattle.std.specs.Prelude.{◌≡◌, ◌+◌, ◌++◌, ◌<◌, ℕ, Some, map, length, slice_get, IfSome};
ghost use Rattle.java_tree.specs.View as view;
ghost use Rattle.java_core.specs.View.{class_plain, file_plain, program_plain};
ghost use Rattle.checked.specs.Checked.{Meets};
ghost use Rattle.type_facts.specs.Facts.{AreFacts, Facts, IsReady};
ghost use Rattle.unchecked_ops.specs.Programs as facts;
ghost use Rattle.check_program.specs.Typing as spec;

use crate::classes::class_of;
use checked::Stop;
use java_core::{CoreClass, CoreFile, CoreProgram};
use java_tree::tree::{SourceUnit, TypeDecl};
use java_tree::{BUILT_IN_TYPES, Items};
use std::alloc::Global;
use type_facts::Questions;

// The types of a file, of which the first has this number.
#[tactic(auto, using(crate::proofs::Steps::class_step, crate::proofs::Steps::class_stop, crate::proofs::Steps::class_end))]
fn check_classes(
    alloc: Global,
    q: &Questions<'_>,
    number: u32,
    ds: &[TypeDecl],
) -> Result<Items<CoreClass>, Stop>
    requires ready { IsReady q.now }
    ensures { (f : Facts) → AreFacts q.now f → Meets (map class_plain) result (spec.classes_of f number (map view.decl_plain ds.now)) }
{
    let mut done = Items::new(alloc);
    let mut number = number;
    for d in ds {
        done.push(class_of(alloc, q, number, d)?)?;
        let Some(next) = number.checked_add(1) else {
            return Err(Stop::NoMemory);
        };
        number = next;
    }
    Ok(done)
}

fn in_file<'a>(q: &Questions<'a>, file: u32) -> Questions<'a>
    ensures { result ≡ facts.in_file q.now file }
{
    Questions {
        world: q.world,
        members: q.members,
        names: q.names,
        file,
        length_name: q.length_name,
    }
}

// A file by its number, whose first type has this number.
fn check_file(
    alloc: Global,
    q: &Questions<'_>,
    file: u32,
    number: u32,
    unit: &SourceUnit,
) -> Result<CoreFile, Stop>
    requires ready { IsReady q.now }
    ensures { (f : Facts) → AreFacts (facts.in_file q.now file) f → Meets file_plain result (spec.file_of f number (view.unit_plain unit.now)) }
{
    let q = in_file(q, file);
    let classes = check_classes(alloc, &q, number, unit.types.as_slice())?;
    Ok(CoreFile { classes })
}

// User files stand before library files.
fn unit_at<'a>(user: &'a [SourceUnit], lib: &'a [SourceUnit], at: usize) -> &'a SourceUnit
    requires { at < length user.now + length lib.now }
    ensures { slice_get (user.now ++ lib.now) at ≡ Some result.now }
{
    if at < user.len() {
        &user[at]
    } else {
        &lib[at - user.len()]
    }
}

// The number of the first type behind a file.
fn behind_file(number: u32, unit: &SourceUnit) -> Option<u32>
    ensures { IfSome result (λ r. r ≡ number + length (view.unit_plain unit.now).types) }
{
    let many = u32::try_from(unit.types.len()).ok()?;
    number.checked_add(many)
}

// The files, of which there are so many.
#[tactic(auto, using(crate::proofs::Steps::file_end))]
fn check_files(
    alloc: Global,
    q: &Questions<'_>,
    user: &[SourceUnit],
    lib: &[SourceUnit],
    files: u32,
) -> Result<Items<CoreFile>, Stop>
    requires ready { IsReady q.now }
    requires many { files ≡ length user.now + length lib.now }
    ensures { (fs : ℕ → Facts) → facts.AreFileFacts q.now files fs → Meets (map file_plain) result (spec.files_of fs 0 19 (map view.unit_plain (user.now ++ lib.now))) }
{
    let mut done = Items::new(alloc);
    let mut number = BUILT_IN_TYPES;
    for file in 0..files {
        let unit = unit_at(user, lib, file as usize);
        match check_file(alloc, q, file, number, unit) {
            Err(stop) => return Err(stop),
            Ok(made) => {
                done.push(made)?;
                let Some(next) = behind_file(number, unit) else {
                    return Err(Stop::NoMemory);
                };
                number = next;
            }
        }
    }
    Ok(done)
}

/// The core of a program, or the first rule of T1 to T60 that it breaks: the files of `user` in order, then those of `lib`, and in each file its types in order. The
/// file of `q` is not read. `NoMemory` also where there are 2^32 files, types, fields or methods.
pub fn check_program(
    alloc: Global,
    q: &Questions<'_>,
    user: &[SourceUnit],
    lib: &[SourceUnit],
) -> Result<CoreProgram, Stop>
    requires ready { IsReady q.now }
    ensures { (fs : ℕ → Facts) → facts.AreFileFacts q.now (length (user.now ++ lib.now)) fs → Meets program_plain result (spec.program fs (map view.unit_plain (user.now ++ lib.now))) }
{
    let Ok(many) = u32::try_from(user.len() + lib.len()) else {
        return Err(Stop::NoMemory);
    };
    let files = check_files(alloc, q, user, lib, many)?;
    Ok(CoreProgram { files })
}
