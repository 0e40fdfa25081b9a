/// A test of a certificate against a program, in the order in which they are made (docs/LANGUAGE.md, "Certificates").
#[derive(Clone, Copy, Debug, PartialEq, Eq)]
pub enum CertTest {
    /// There is one part for each scope. It is made once, the others for each scope.
    Scopes,
    /// The types that are listed can stand in the scope.
    Types,
    /// Each annotated pair is closed in the list of these.
    Pairs,
    /// Each plain pair is closed in the list of these, with no regard to effects.
    Plain,
    /// The rules for the module and its lines hold, each subtyping that they ask being a pair of a list.
    Lines,
    /// The nodes are those of derivations of the scope's bodies, and each T-Sub has its pair.
    Nodes,
}
