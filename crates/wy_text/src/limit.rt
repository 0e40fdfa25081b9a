ghost use Rattle.std.specs.Prelude.{◌≡◌};
ghost use Rattle.wy_text.specs.LimitName.{limit_text, limit_number};

/// The most bytes of a file.
pub const MOST_FILE_BYTES: usize = 1_048_576;

/// The most bytes of a name.
pub const MOST_NAME_BYTES: usize = 64;

/// The most tokens of a file.
pub const MOST_TOKENS: usize = 262_144;

/// The most open widths of a file, but for 0.
pub const MOST_INDENTS: usize = 64;

/// The most marks of a line.
pub const MOST_MARKS: usize = 128;

/// The most atoms of a scope.
pub const MOST_ATOMS: usize = 512;

/// The most types that a scope reaches.
pub const MOST_REACHED_TYPES: usize = 1_024;

/// The most instances of a program.
pub const MOST_INSTANCES: usize = 1_024;

/// The most rows of a policy.
pub const MOST_POLICY_ROWS: usize = 4_096;

/// The limits of a program and its files (docs/LANGUAGE.md, "Limits").
#[derive(Clone, Copy, Debug, PartialEq, Eq)]
pub enum LimitName {
    Files,
    FileBytes,
    NameBytes,
    Tokens,
    Indents,
    Marks,
    Types,
    Modules,
    Grants,
    Methods,
    Fields,
    Parameters,
    Atoms,
    ReachedTypes,
    Instances,
    Bodies,
    Slots,
    ImageBytes,
    CertificateBytes,
    PolicyRows,
}

impl LimitName {
    /// The limit's name as it is printed, as `file bytes`. It takes no memory.
    pub fn name(&self) -> &'static str
        ensures { result.now ≡ limit_text self.now }
    {
        match self {
            LimitName::Files => "files",
            LimitName::FileBytes => "file bytes",
            LimitName::NameBytes => "name bytes",
            LimitName::Tokens => "tokens",
            LimitName::Indents => "indents",
            LimitName::Marks => "marks",
            LimitName::Types => "types",
            LimitName::Modules => "modules",
            LimitName::Grants => "grants",
            LimitName::Methods => "methods",
            LimitName::Fields => "fields",
            LimitName::Parameters => "parameters",
            LimitName::Atoms => "atoms",
            LimitName::ReachedTypes => "reached types",
            LimitName::Instances => "instances",
            LimitName::Bodies => "bodies",
            LimitName::Slots => "slots",
            LimitName::ImageBytes => "image bytes",
            LimitName::CertificateBytes => "certificate bytes",
            LimitName::PolicyRows => "policy rows",
        }
    }

    /// The greatest number that is within the limit. It takes no memory.
    pub fn number(&self) -> u64
        ensures { result ≡ limit_number self.now }
    {
        match self {
            LimitName::Files => 64,
            LimitName::FileBytes => MOST_FILE_BYTES as u64,
            LimitName::NameBytes => MOST_NAME_BYTES as u64,
            LimitName::Tokens => MOST_TOKENS as u64,
            LimitName::Indents => MOST_INDENTS as u64,
            LimitName::Marks => MOST_MARKS as u64,
            LimitName::Types => 1_024,
            LimitName::Modules => 256,
            LimitName::Grants => 64,
            LimitName::Methods => 128,
            LimitName::Fields => 128,
            LimitName::Parameters => 16,
            LimitName::Atoms => MOST_ATOMS as u64,
            LimitName::ReachedTypes => MOST_REACHED_TYPES as u64,
            LimitName::Instances => MOST_INSTANCES as u64,
            LimitName::Bodies => 16_384,
            LimitName::Slots => 256,
            LimitName::ImageBytes => 16_777_216,
            LimitName::CertificateBytes => 67_108_864,
            LimitName::PolicyRows => MOST_POLICY_ROWS as u64,
        }
    }
}
