//! How an expression is used.

ghost use Rattle.std.specs.Prelude.{◌≡◌};
ghost use Rattle.operator_rules.specs.Uses as spec;

/// What becomes of an expression.
#[derive(Clone, Copy, Debug, PartialEq, Eq)]
pub enum Use {
    /// Its value is read.
    Read,
    /// It is the left side of a plain assignment.
    Set,
    /// It is stepped, or the left side of a compound assignment: read and assigned.
    Change,
    /// It is a statement, or one of the expressions of a for.
    Perform,
    /// It is a statement that may give a blank final field its value: it stands directly in the body of a constructor that begins with no call of another of its class.
    PerformFirst,
}

/// Whether the value is read.
pub fn is_read(how: Use) -> bool
    ensures { result ≡ spec.is_read how }
{
    match how {
        Use::Set => false,
        Use::Read | Use::Change | Use::Perform | Use::PerformFirst => true,
    }
}

/// Whether the expression is assigned (JLS 15.14, 15.15, 15.26).
pub fn is_set(how: Use) -> bool
    ensures { result ≡ spec.is_set how }
{
    match how {
        Use::Set | Use::Change => true,
        Use::Read | Use::Perform | Use::PerformFirst => false,
    }
}

/// Whether nobody reads what the expression answers (JLS 14.8).
pub fn is_performed(how: Use) -> bool
    ensures { result ≡ spec.is_performed how }
{
    match how {
        Use::Perform | Use::PerformFirst => true,
        Use::Read | Use::Set | Use::Change => false,
    }
}

/// The use of what stands in brackets (JLS 15.8.5).
pub fn within(how: Use) -> Use
    ensures { result ≡ spec.within how }
{
    match how {
        Use::Set => Use::Set,
        Use::Change => Use::Change,
        Use::Read | Use::Perform | Use::PerformFirst => Use::Read,
    }
}
