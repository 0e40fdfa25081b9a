use wy_text::fault::AtomName;
use wy_text::limit::LimitName;
use wy_text::list::Items;
use wy_text::text::Text;

/// The names of instances that a row is for: one name, or all that begin so.
#[derive(Drop)]
pub enum Pattern {
    /// This name.
    Whole(Text),
    /// Any name that begins with these bytes, which are written with a star behind them.
    Front(Text),
}

/// Which members of a grant an entry allows: all of them, which is written as a star, or one.
#[derive(Drop)]
pub enum Member {
    Every,
    Named(Text),
}

/// What a row allows of one grant. A grant or a member that a program has not got means nothing.
#[derive(Drop)]
pub struct Entry {
    pub grant: Text,
    pub member: Member,
}

/// A row of a policy, with the number of its line, which counts from 1.
#[derive(Drop)]
pub struct PolicyRow {
    pub line: u32,
    pub pattern: Pattern,
    pub allowed: Items<Entry>,
}

/// A policy: its rows in the order of their lines.
#[derive(Drop)]
pub struct Policy {
    pub rows: Items<PolicyRow>,
}

/// Why text is not taken for a policy (docs/LANGUAGE.md, "Policies").
#[derive(Clone, Copy, PartialEq, Eq)]
pub enum PolicyRefusal {
    /// A limit is passed, `FileBytes` or `PolicyRows`, whatever the lines are. It comes before all others.
    Limit(LimitName),
    /// The line of this number, which counts from 1, is neither blank nor a comment nor a row. It is the first such line.
    BadPolicy(u32),
    /// Memory was wanting.
    Memory,
}

/// What a policy says of a program's authority.
#[derive(Drop)]
pub enum Judgement {
    /// Each instance, and the program itself, may do no more than its row allows.
    Allowed,
    /// An instance, or `main`, is the first that may do more. It goes by the row of this line, 0 where there is none, and
    /// the atom is the first of its authority that the row does not allow.
    Denied {
        line: u32,
        instance: Text,
        atom: AtomName,
    },
}
