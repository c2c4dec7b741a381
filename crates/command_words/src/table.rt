//! The table of commands, and the parts of a command line.

ghost use Rattle.std.specs.Prelude.{◌≡◌, ◌≢◌, map, IfSome, IfNone};
ghost use Rattle.std.specs.String.{string_bytes};
ghost use Rattle.command_words.specs.Table as spec;
ghost use Rattle.command_words.specs.Names.{is_among};
ghost use Rattle.command_words.specs.Asked.{parts_in};

#[derive(Clone, Copy, Debug, PartialEq, Eq)]
pub enum Command {
    Check,
    Run,
    Allowed,
    Generalize,
    ExtractInterface,
    PullUp,
    InferTypeArguments,
    Workload,
}

/// What a command's own word has to be.
#[derive(Clone, Copy, Debug, PartialEq, Eq)]
pub enum Role {
    /// A number of steps.
    Count,
    /// A number above 0.
    Number,
    /// The folder of the outputs.
    Out,
    /// A user file.
    File,
    /// The name of a type that there is.
    Identifier,
    /// The name of a new type.
    NewName,
    /// One of the methods or members that are named.
    Member,
    /// Any word.
    Free,
}

impl Command {
    /// The command that a word names.
    pub fn named(word: &str) -> Option<Command>
        ensures some { IfSome result (λ c. word.now ≡ spec.word_of c) }
        ensures none { IfNone result ((c : Command) → word.now ≢ spec.word_of c) }
    {
        match word {
            "check" => Some(Command::Check),
            "run" => Some(Command::Run),
            "allowed" => Some(Command::Allowed),
            "generalize" => Some(Command::Generalize),
            "extract-interface" => Some(Command::ExtractInterface),
            "pull-up" => Some(Command::PullUp),
            "infer-type-arguments" => Some(Command::InferTypeArguments),
            "workload" => Some(Command::Workload),
            _ => None,
        }
    }

    /// The own words that each use of the command has.
    pub fn first_roles(self) -> &'static [Role]
        ensures { result.now ≡ spec.first_roles self }
    {
        match self {
            Command::Check => &[],
            Command::Run => &[Role::Count, Role::Identifier],
            Command::Allowed => &[Role::File, Role::Number, Role::Number],
            Command::Generalize => &[
                Role::Out,
                Role::File,
                Role::Number,
                Role::Number,
                Role::Identifier,
            ],
            Command::ExtractInterface => {
                &[Role::Out, Role::Identifier, Role::NewName, Role::Member]
            }
            Command::PullUp => &[Role::Out, Role::Identifier, Role::Identifier, Role::Member],
            Command::InferTypeArguments => &[Role::Out],
            Command::Workload => &[Role::Number],
        }
    }

    /// What each further own word is, where there may be some.
    pub fn more_role(self) -> Option<Role>
        ensures { result ≡ spec.more_role self }
    {
        match self {
            Command::Run => Some(Role::Free),
            Command::ExtractInterface | Command::PullUp => Some(Role::Member),
            _ => None,
        }
    }

    /// What the own word at a place is.
    pub fn role(self, at: usize) -> Role
        ensures { result ≡ spec.role_of self at }
    {
        match self.first_roles().get(at) {
            Some(role) => *role,
            None => self.more_role().unwrap_or(Role::Free),
        }
    }

    /// Whether files stand behind the own words.
    pub fn takes_files(self) -> bool
        ensures { result ≡ spec.takes_files self }
    {
        self != Command::Workload
    }
}

/// The words behind that of the command.
#[derive(Clone, Copy)]
pub struct Sections<'a> {
    pub own: &'a [String],
    pub dashed: bool,
    pub users: &'a [String],
    pub libs: &'a [String],
}

/// Words, cut at the first one that equals a mark.
#[derive(Clone, Copy)]
pub struct Cut<'a> {
    pub front: &'a [String],
    pub back: &'a [String],
    pub found: bool,
}

/// The words before the first one that equals the mark, or all where none does, and those behind it.
pub fn split_at_mark<'a>(words: &'a [String], mark: &str) -> Cut<'a>
    ensures found { result.found ≡ is_among mark.now (map string_bytes words.now) }
    ensures front { map string_bytes result.front.now ≡ spec.before mark.now (map string_bytes words.now) }
    ensures back { map string_bytes result.back.now ≡ spec.behind mark.now (map string_bytes words.now) }
{
    for (at, word) in words.iter().enumerate() {
        if word.as_str() == mark {
            return Cut {
                front: &words[..at],
                back: &words[at + 1..],
                found: true,
            };
        }
    }
    Cut {
        front: words,
        back: &words[words.len()..],
        found: false,
    }
}

impl<'a> Sections<'a> {
    pub fn of(words: &'a [String]) -> Sections<'a>
        ensures { parts_in result ≡ spec.parts_of (map string_bytes words.now) }
    {
        let files = split_at_mark(words, "--");
        let names = split_at_mark(files.back, "+");
        Sections {
            own: files.front,
            dashed: files.found,
            users: names.front,
            libs: names.back,
        }
    }
}
