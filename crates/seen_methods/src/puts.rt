//! Arguments put for the variables of types (JLS 3rd edition, 4.5).

ghost use Rattle.std.specs.Prelude.{◌≡◌, IfOk, map};
ghost use Rattle.class_world.specs.Types.{substitute};

use class_world::JavaType;
use java_tree::{Boxed, Items, NoMemory};
use std::alloc::Global;

/// The type with the arguments put for its variables.
#[cycle(puts)]
pub(crate) fn substituted(
    alloc: Global,
    args: &[JavaType],
    t: &JavaType,
) -> Result<JavaType, NoMemory>
    ensures { IfOk result (λ r. r ≡ substitute args.now t.now) }
{
    match t {
        JavaType::Prim(p) => Ok(JavaType::Prim(*p)),
        JavaType::Null => Ok(JavaType::Null),
        JavaType::Class(c, xs) => Ok(JavaType::Class(
            *c,
            all_substituted(alloc, args, xs.as_slice())?,
        )),
        JavaType::Var(k) => match args.get(*k as usize) {
            // No arguments put for its variables leave a type as it is.
            Some(a) => substituted(alloc, &[], a),
            None => Ok(JavaType::Var(*k)),
        },
        JavaType::Array(x) => {
            let x = substituted(alloc, args, x.get())?;
            Ok(JavaType::Array(Boxed::new(alloc, x)?))
        }
    }
}

#[cycle(puts)]
pub(crate) fn all_substituted(
    alloc: Global,
    args: &[JavaType],
    xs: &[JavaType],
) -> Result<Items<JavaType>, NoMemory>
    ensures { IfOk result (λ ys. ys ≡ map (substitute args.now) xs.now) }
{
    let mut ys = Items::new(alloc);
    for x in xs {
        ys.push(substituted(alloc, args, x)?)?;
    }
    Ok(ys)
}
