//! Operators with their symbols.

ghost use Rattle.std.specs.Prelude.{◌≡◌, ◌↔◌, IsTrue, Some};
ghost use Rattle.std.specs.List.{Contains};
ghost use Rattle.ls_ops.specs.declared.kinds.Op.{Op};
ghost use Rattle.ls_ops.specs.Symbols.{are_distinct, entries, first_with};

use crate::Op;

/// The number of operators.
pub(crate) const OPERATORS: usize = 24;

/// Operators with their symbols, of which no two are the same.
#[derive(Drop)]
pub(crate) struct OpTable<const N: usize> {
    pub(crate) rows: [(Op, &'static str); N],
    ghost distinct: { IsTrue (are_distinct rows) },
}

impl OpTable<OPERATORS> {
    /// The operator that stands beside a symbol.
    pub(crate) fn find(&self, symbol: &str) -> Option<Op>
        ensures { (op : Op) → (result ≡ Some op) ↔ Contains (entries self.now.rows) (op, symbol.now) }
    {
        self.first(symbol)
    }

    fn first(&self, symbol: &str) -> Option<Op>
        ensures { result ≡ first_with self.now.rows symbol.now }
    {
        self.rows
            .iter()
            .find(|row| row.1 == symbol)
            .map(|row| row.0)
    }
}
