//! The program with the created file, and where its types and methods stand.

ghost use Rattle.std.specs.Prelude.{◌≡◌, ◌++◌, ◌≤◌, length, IsTrue, IfOk, OnOk};
ghost use Rattle.type_facts.specs.Facts.{IsReady};
ghost use Rattle.extract_interface.specs.Plans as spec;
ghost use Rattle.extract_interface.specs.Plans.{KeepsCreated};

use class_world::{MethodInfo, TypeInfo, World};
use generalize_declared::CheckedSource;
use java_tree::{Items, NoMemory};
use kept_behaviour::{Inserted, keeps_with_type};
use running_code::prepare;
use std::alloc::Global;
use type_facts::Questions;

fn push_copies(
    alloc: Global,
    texts: &[Items<u8>],
    copies: &mut Items<Items<u8>>,
) -> Result<(), NoMemory>
    ensures { OnOk result (copies.new ≡ copies.old ++ texts.now) }
{
    for text in texts {
        copies.push(Items::from_slice(alloc, text.as_slice())?)?;
    }
    Ok(())
}

// The texts of the new program, with the created one behind those of the user.
fn with_created(
    alloc: Global,
    users: usize,
    created: &[u8],
    texts: &[Items<u8>],
) -> Result<Items<Items<u8>>, NoMemory>
    requires { users ≤ length texts.now }
    ensures { IfOk result (λ r. r ≡ spec.with_created users created.now texts.now) }
{
    let (user, library) = texts.split_at(users);
    let mut all = Items::new(alloc);
    push_copies(alloc, user, &mut all)?;
    all.push(Items::from_slice(alloc, created)?)?;
    push_copies(alloc, library, &mut all)?;
    Ok(all)
}

// The number behind that of the last type of a user file.
fn behind_users(types: &[TypeInfo]) -> usize
    ensures { result ≤ length types.now }
{
    let mut behind = 0;
    for (at, info) in types.iter().enumerate() {
        if info.user {
            behind = at + 1;
        }
    }
    behind
}

// How many methods types with lower numbers declare.
fn methods_below(methods: &[MethodInfo], number: usize) -> usize
    ensures { result ≤ length methods.now }
{
    let mut count = 0;
    for info in methods {
        if (info.owner as usize) < number {
            count += 1;
        }
    }
    count
}

// Where a new type of a user file with so many methods stands: behind the types of the user, whose numbers come before those of the library.
fn inserted_in(w: &World, methods: usize) -> Result<Inserted, NoMemory> {
    let behind = behind_users(w.types.as_slice());
    let before = methods_below(w.methods.as_slice(), behind);
    let Ok(at) = u32::try_from(behind) else {
        return Err(NoMemory);
    };
    let Ok(first_method) = u32::try_from(before) else {
        return Err(NoMemory);
    };
    let Ok(methods) = u32::try_from(methods) else {
        return Err(NoMemory);
    };
    Ok(Inserted {
        at,
        first_method,
        methods,
    })
}

/// Whether the new files with the created one, which has so many methods of the class, keep the program's behaviour.
pub(crate) fn keeps_created(
    alloc: Global,
    q: &Questions<'_>,
    source: &CheckedSource<'_>,
    methods: usize,
    created: &[u8],
    texts: &[Items<u8>],
) -> Result<bool, NoMemory>
    requires { IsReady q.now }
    ensures { IfOk result (λ r. IsTrue r → KeepsCreated q.now.world.now source.now created.now texts.now) }
{
    // There are as many new files as old ones.
    if texts.len() < source.users {
        return Err(NoMemory);
    }
    let texts = with_created(alloc, source.users, created, texts)?;
    let old = prepare(alloc, q.world, source.names, source.core, q.members)?;
    let inserted = inserted_in(q.world, methods)?;
    keeps_with_type(alloc, &old, texts.as_slice(), source.users + 1, inserted)
}
