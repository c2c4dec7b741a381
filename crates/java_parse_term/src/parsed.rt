//! What parsing answers.

ghost use Rattle.java_parse_term.specs.Seen.{Reads, IsRefused, same};

use crate::fault::SyntaxFault;

/// A tree whose nodes have the number 0, its depth, and the place after its tokens. Of a list of trees the depth is
/// the one that they give to what holds them.
#[derive(Drop)]
pub struct Parsed<T> {
    pub tree: T,
    pub depth: u32,
    pub next: usize,
}

/// The number of a token.
pub fn token_number(at: usize) -> u32 {
    u32::try_from(at).unwrap_or(u32::MAX)
}

/// What was found, and otherwise the fault at a token.
pub fn need<T: Drop>(found: Option<T>, at: usize) -> Result<T, SyntaxFault>
    ensures { Reads same found result }
{
    match found {
        Some(found) => Ok(found),
        None => Err(SyntaxFault::Bad {
            token: token_number(at),
        }),
    }
}

/// No tree, and the token near which reading stopped.
pub fn refuse<T: Drop>(at: usize) -> Result<T, SyntaxFault>
    ensures { IsRefused result }
{
    Err(SyntaxFault::Bad {
        token: token_number(at),
    })
}
