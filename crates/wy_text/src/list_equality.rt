use crate::list::Items;

impl<X: PartialEq> PartialEq for Items<X> {
    ghost use Rattle.std.specs.Cmp.Lexicographic.{pointwise};
    ghost use Rattle.std.proofs.Common.{rules};
    ghost use Rattle.std.specs.Cmp.Rules.{comparing};

    ghost eq = { pointwise X.eq };

    ghost laws = { Prim.search (comparing, rules) };

    fn eq(&self, other: &Items<X>) -> bool {
        self.as_slice() == other.as_slice()
    }
}

impl<X: Eq> Eq for Items<X> {
    ghost use Rattle.std.proofs.Common.{rules};
    ghost use Rattle.std.specs.Cmp.Rules.{comparing};

    ghost laws = { Prim.search (comparing, rules) };
}
