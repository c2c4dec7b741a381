//! Whether types were read: a written type that says none stands in a world as the null type.

ghost use Rattle.std.specs.Prelude.{◌↔◌, IsTrue};
ghost use Rattle.method_rules.specs.Repeats.{IsRead, AreRead};

use class_world::JavaType;

#[cycle(read)]
#[tactic(auto, using(crate::proofs::Reading::primitive_told, crate::proofs::Reading::variable_told))]
fn is_read(t: &JavaType) -> bool
    ensures { IsTrue result ↔ IsRead t.now }
{
    match t {
        JavaType::Prim(_) => true,
        JavaType::Null => false,
        JavaType::Class(_, args) => are_read(args.as_slice()),
        JavaType::Var(_) => true,
        JavaType::Array(element) => is_read(element.get()),
    }
}

#[cycle(read)]
pub(crate) fn are_read(ts: &[JavaType]) -> bool
    ensures { IsTrue result ↔ AreRead ts.now }
{
    for t in ts {
        if !is_read(t) {
            return false;
        }
    }
    true
}
