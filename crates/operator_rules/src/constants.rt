//! Numbers as they are written (JLS 3.10.1, 15.8.1).

ghost use Rattle.std.specs.Prelude.{◌≡◌, ◌<◌, ◌^◌, true, false};
ghost use Rattle.java_core.specs.View.{plain};
ghost use Rattle.checked.specs.Checked.{Meets};
ghost use Rattle.operator_rules.specs.Constants as spec;

use checked::Stop;
use class_world::JavaType;
use java_core::{CoreExpr, CoreForm};
use java_tree::tree::{Node, Primitive};

/// Whether a literal is one of int: a decimal one is below 2^31, or that under a minus, and another is below 2^32.
fn is_int(decimal: bool, minus: bool, value: u64) -> bool
    ensures { result ≡ spec.is_in_range 32 decimal minus value }
{
    if decimal {
        if value < 1 << 31 {
            return true;
        }
        if minus {
            return value == 1 << 31;
        }
        return false;
    }
    value < 1 << 32
}

/// Whether a literal is one of long, by 2^63 and 2^64.
fn is_long(decimal: bool, minus: bool, value: u64) -> bool
    ensures { result ≡ spec.is_in_range 64 decimal minus value }
{
    if decimal {
        if value < 1 << 63 {
            return true;
        }
        if minus {
            return value == 1 << 63;
        }
        return false;
    }
    true
}

/// A literal of the type int, or long, in range for it; `minus` says that it stands under a minus.
pub fn number(
    node: Node,
    value: u64,
    decimal: bool,
    long: bool,
    minus: bool,
) -> Result<CoreExpr, Stop>
    ensures { Meets plain result (spec.number node value decimal long minus) }
{
    if long {
        return long_number(node, value, decimal, minus);
    }
    int_number(node, value, decimal, minus)
}

/// A number of 32 bits, the upper half as what is below zero.
fn int_of(value: u64) -> i32
    requires { value < 2 ^ 32 }
    ensures { result ≡ spec.wrapped 32 value }
{
    (value as u32).cast_signed()
}

/// A number of 64 bits, the upper half as what is below zero.
fn long_of(value: u64) -> i64
    ensures { result ≡ spec.wrapped 64 value }
{
    value.cast_signed()
}

fn int_number(node: Node, value: u64, decimal: bool, minus: bool) -> Result<CoreExpr, Stop>
    ensures { Meets plain result (spec.number node value decimal false minus) }
{
    if !is_int(decimal, minus, value) {
        return Err(Stop::Broken {
            node: node.id,
            rule: 18,
        });
    }
    Ok(CoreExpr {
        node,
        ty: JavaType::Prim(Primitive::Int),
        form: CoreForm::Int(int_of(value)),
    })
}

fn long_number(node: Node, value: u64, decimal: bool, minus: bool) -> Result<CoreExpr, Stop>
    ensures { Meets plain result (spec.number node value decimal true minus) }
{
    if !is_long(decimal, minus, value) {
        return Err(Stop::Broken {
            node: node.id,
            rule: 19,
        });
    }
    Ok(CoreExpr {
        node,
        ty: JavaType::Prim(Primitive::Long),
        form: CoreForm::Long(long_of(value)),
    })
}
