//! What stands before a token.

ghost use Rattle.std.specs.Prelude.{◌≡◌, ◌+◌, ◌-◌, ◌<◌, ◌^◌, nat_lt, not, ◌&&◌, if◌then◌else◌, codes};
ghost use Rattle.left_out.specs.Rules.{is_op};

use java_tree::tree::Kind;

/// How many braces were opened and closed, and whether the last token was a dot.
#[derive(Clone, Copy)]
pub struct Before {
    pub opened: usize,
    pub closed: usize,
    pub dot: bool,
}

impl Before {
    /// Whether a type that is declared here is declared within another.
    pub fn nests(self) -> bool
        ensures { result ≡ not self.dot && nat_lt self.closed self.opened }
    {
        !self.dot && self.closed < self.opened
    }

    /// What stands before the token behind this one.
    pub fn with(self, kind: Kind, word: &str) -> Before
        requires { (self.opened < 2 ^ 64 - 1) × (self.closed < 2 ^ 64 - 1) }
        ensures opened { result.opened ≡ (if is_op (codes "{") kind word.now then self.opened + 1 else self.opened) }
        ensures closed { result.closed ≡ (if is_op (codes "}") kind word.now then self.closed + 1 else self.closed) }
        ensures dot { result.dot ≡ is_op (codes ".") kind word.now }
    {
        let is = |mark: &str| matches!(kind, Kind::Op) && word == mark;
        Before {
            opened: self.opened + usize::from(is("{")),
            closed: self.closed + usize::from(is("}")),
            dot: is("."),
        }
    }
}
