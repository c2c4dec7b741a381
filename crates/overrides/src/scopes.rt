//! Whether the parameter types of methods have only the variables of the types that declare them.

ghost use Rattle.std.specs.Prelude.{◌≡◌, length, IsTrue};
ghost use Rattle.overrides.specs.Scopes.{AreScoped};

use class_world::World;
use seen_methods::is_scoped;

/// Whether that is so of all methods. It is in each world that is made of a program; a sound world need not tell.
pub(crate) fn are_scoped(w: &World, count: u32) -> bool
    requires { count ≡ length w.now.methods }
    ensures { IsTrue result → AreScoped w.now }
{
    for m in 0..count {
        if !is_scoped(w, m) {
            return false;
        }
    }
    true
}
