use wy_device::operation::OpName;
use wy_machine::run_end::TrapKind;
use wy_proving::CertTest;
use wy_text::fault::{AtomName, Fault, Place};
use wy_text::limit::LimitName;
use wy_text::text::Text;

/// What is wrong in a file without tokens or without a tree (docs/LANGUAGE.md, "What is refused in a file" and "Grammar").
#[derive(Clone, Copy)]
pub enum SyntaxKind {
    NotUtf8,
    TabIndent,
    BadDedent,
    BadCharacter,
    OpenText,
    BadEscape,
    NumberTooLarge,
    Unexpected,
}

/// How a call of the program ended (docs/LANGUAGE.md, "Statuses").
#[derive(Drop)]
pub enum Status {
    /// The command was done. If a program was run, it came to its end.
    Ended,
    /// The arguments are invalid.
    Usage,
    /// A file could not be read. Its number among the file arguments counts from 1.
    Unread(u16),
    /// A file has no tokens or no tree. It is the first such file, and the place is that of its first fault.
    Syntax {
        place: Place,
        kind: SyntaxKind,
    },
    /// A name in the texts is refused, or their program is.
    Refused(Fault),
    /// A limit is exceeded.
    Limit(LimitName),
    /// The program that was run trapped at a place.
    Trap {
        kind: TrapKind,
        place: Place,
    },
    /// One call more on an object was made than may be open at once.
    TooDeep,
    /// The run took all the steps that it may take.
    Spent,
    /// An operation on a grant failed.
    DeviceFailed {
        grant: Text,
        op: OpName,
    },
    /// The report, or what the command writes, could not be written whole.
    Unwritten,
    /// Memory ran out.
    Memory,
    /// The first file is not a certificate. This many of its bytes can begin one; one byte more cannot.
    BadCert {
        at: u64,
    },
    /// The first file is a certificate that does not prove the program. The scope is the first in which a test fails, and the test
    /// is the first that fails there. The index is the number of the type, pair, rule or node at which it fails, from 0. Both
    /// numbers are 0 if the certificate does not have one part for each scope.
    Unproved {
        scope: u32,
        test: CertTest,
        index: u64,
    },
    /// The program does not keep to its policy. The instance, or `main`, is the first that may do more than the policy allows. The
    /// line is that of the row that applies to it; 0 if no row does. The atom is the first of its authority that the row does not
    /// allow.
    Denied {
        line: u32,
        instance: Text,
        atom: AtomName,
    },
    /// A line of a policy is neither blank nor a comment nor a row. It is the first such line. Lines count from 1.
    BadPolicy {
        line: u32,
    },
}

impl Status {
    ghost use Rattle.std.specs.Prelude.{◌≡◌};
    ghost use Rattle.wy_engine.specs.StatusNumber.{number_of};

    /// Returns the number with which the program ends, from 0 to 17. It takes no memory.
    pub fn number(&self) -> u8
        ensures { result ≡ number_of self.now }
    {
        match self {
            Status::Ended => 0,
            Status::Usage => 1,
            Status::Unread(_) => 2,
            Status::Syntax { .. } => 3,
            Status::Refused(_) => 4,
            Status::Limit(_) => 5,
            Status::Trap { .. } => 6,
            Status::TooDeep => 7,
            Status::Spent => 8,
            Status::DeviceFailed { .. } => 9,
            Status::Unwritten => 10,
            Status::Memory => 11,
            Status::BadCert { .. } => 14,
            Status::Unproved { .. } => 15,
            Status::Denied { .. } => 16,
            Status::BadPolicy { .. } => 17,
        }
    }
}
