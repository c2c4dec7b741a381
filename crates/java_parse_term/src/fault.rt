//! Why tokens have no tree.

use java_tree::NoMemory as OutOfMemory;
use std::alloc::AllocError;
use thiserror::Error;

/// Why tokens have no tree.
#[derive(Clone, Copy, Debug, PartialEq, Eq, Error)]
pub enum SyntaxFault {
    /// No tree of the grammar stands there. The number is that of a token near which reading stopped.
    #[error("no tree of the grammar at token {token}")]
    Bad { token: u32 },
    #[error("out of memory")]
    NoMemory,
}

impl From<AllocError> for SyntaxFault {
    ghost use Rattle.std.specs.Prelude.{◌≡◌};
    ghost use Rattle.java_parse_term.specs.declared.fault.SyntaxFault.TheVariants.{NoMemory};

    ghost from_gives = { λ _ e. e ≡ NoMemory };

    fn from(_: AllocError) -> SyntaxFault {
        SyntaxFault::NoMemory
    }
}

impl From<OutOfMemory> for SyntaxFault {
    ghost use Rattle.std.specs.Prelude.{◌≡◌};
    ghost use Rattle.java_parse_term.specs.declared.fault.SyntaxFault.TheVariants.{NoMemory};

    ghost from_gives = { λ _ e. e ≡ NoMemory };

    fn from(_: OutOfMemory) -> SyntaxFault {
        SyntaxFault::NoMemory
    }
}
