ghost use Rattle.std.specs.Prelude.{◌≡◌};
ghost use Rattle.wy_text.specs.RuleName.{rule_text};

use crate::text::Text;

/// A place in the source: the file's number among the file words, its line, and one more than the
/// number of bytes before it in the line. All three count from 1. A place is less than another where it stands before it: files
/// come in order, then lines, then columns.
#[derive(Clone, Copy, Debug, PartialEq, Eq, PartialOrd, Ord)]
pub struct Place {
    pub file: u16,
    pub line: u32,
    pub column: u32,
}

/// An effect's name: a grant, an instance, a used module or a parameter, and one of its abstract members.
#[derive(Debug, Drop, PartialEq, Eq, Hash)]
pub struct AtomName {
    pub owner: Text,
    pub member: Text,
}

/// The rules that a refusal names: those of typing (docs/LANGUAGE.md, "Rules") and those of names ("Names").
#[derive(Clone, Copy, Debug, PartialEq, Eq)]
pub enum RuleName {
    TLit,
    TVar,
    TThis,
    TCall,
    TNew,
    TIf,
    TSeq,
    TVal,
    TSet,
    TOp,
    TAsc,
    TBody,
    TSub,
    MPure,
    MAscribe,
    MUse,
    MInst,
    MImport,
    IImport,
    NUnknown,
    NTwice,
    NCycle,
    NNoProgram,
    NTwoPrograms,
    NMemberUndefined,
    NMemberUnknown,
}

impl RuleName {
    /// The rule's name as it is printed, as `T-Body`. It takes no memory.
    pub fn text(self) -> &'static str
        ensures { result.now ≡ rule_text self }
    {
        match self {
            RuleName::TLit => "T-Lit",
            RuleName::TVar => "T-Var",
            RuleName::TThis => "T-This",
            RuleName::TCall => "T-Call",
            RuleName::TNew => "T-New",
            RuleName::TIf => "T-If",
            RuleName::TSeq => "T-Seq",
            RuleName::TVal => "T-Val",
            RuleName::TSet => "T-Set",
            RuleName::TOp => "T-Op",
            RuleName::TAsc => "T-Asc",
            RuleName::TBody => "T-Body",
            RuleName::TSub => "T-Sub",
            RuleName::MPure => "M-Pure",
            RuleName::MAscribe => "M-Ascribe",
            RuleName::MUse => "M-Use",
            RuleName::MInst => "M-Inst",
            RuleName::MImport => "M-Import",
            RuleName::IImport => "I-Import",
            RuleName::NUnknown => "N-Unknown",
            RuleName::NTwice => "N-Twice",
            RuleName::NCycle => "N-Cycle",
            RuleName::NNoProgram => "N-NoProgram",
            RuleName::NTwoPrograms => "N-TwoPrograms",
            RuleName::NMemberUndefined => "N-MemberUndefined",
            RuleName::NMemberUnknown => "N-MemberUnknown",
        }
    }
}

/// Why a program is refused: the place, the rule, which of the rule's premises is false, counted
/// from 1, and the effect that is missing, where the premise is about effects.
#[derive(Debug, Drop, PartialEq, Eq)]
pub struct Fault {
    pub place: Place,
    pub rule: RuleName,
    pub premise: u8,
    pub atom: Option<AtomName>,
}
