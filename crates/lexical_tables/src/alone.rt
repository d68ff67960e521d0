//! Columns that are read without the others.

ghost use Rattle.std.specs.Prelude.{ℕ, List, Option};
ghost use Rattle.lexical_tables.specs.OneColumn.{IsReadAlone};
ghost use Rattle.lexical_tables.specs.Targets.{TargetView};

use crate::dialect::Dialect;

/// The law of columns: each gets the same values if a table is read one column at a time, up to the first wrong cell of
/// all columns. If no cell is wrong, the answers are the same too.
///
/// The call does nothing. A proof that needs the law makes it, and has its clause.
pub fn columns_alone()
    ensures { (targets : List (Option TargetView)) (dialect : Dialect) (rows : ℕ) (text : List ℕ)
        (column : ℕ) → IsReadAlone targets dialect rows text column }
{}
