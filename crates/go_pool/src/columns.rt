//! All passes of a pool as a table: a row for each caller, with its passes to the parts, and so a column for each part.
ghost use Rattle.std.specs.Prelude.{◌≡◌, ℕ, ◌<◌, cond, length};
ghost use Rattle.go_pool.specs.Parts.{cell};
ghost use Rattle.go_pool.specs.Tables.{IsSquare, KeepsRows, crosses, is_corner};

use crate::pass::PoolPass;
use std::mem;

// Lets the two passes change places that stand at this row and column, and at this column and row.
fn swap_corner<N>(passes: &mut [PoolPass<N>], row: usize, column: usize)
    requires order { column < row }
    requires row { row < length passes.old }
    requires square { IsSquare passes.old }
    ensures { KeepsRows passes.old passes.new × ((i j : ℕ) → cell passes.new i j ≡ cond (is_corner row column i j) (cell passes.old j i) (cell passes.old i j)) }
{
    let (low, high) = passes.split_at_mut(row);
    mem::swap(&mut low[column].parts[row], &mut high[0].parts[column]);
}

// The same for a row as far as the diagonal, and the column with its number.
fn swap_row<N>(passes: &mut [PoolPass<N>], row: usize)
    requires row { row < length passes.old }
    requires square { IsSquare passes.old }
    ensures rows { KeepsRows passes.old passes.new }
    ensures cells { (i j : ℕ) → cell passes.new i j ≡ cond (crosses row row i j) (cell passes.old j i) (cell passes.old i j) }
{
    for column in 0..row {
        swap_corner(passes, row, column);
    }
}

/// Lets rows and columns change places: what a row has is then a column, and again a row where it is done twice. There are as many rows as
/// columns, so it takes no memory.
pub(crate) fn transpose<N>(passes: &mut [PoolPass<N>])
    requires square { IsSquare passes.old }
    ensures rows { KeepsRows passes.old passes.new }
    ensures cells { (i j : ℕ) → cell passes.new i j ≡ cell passes.old j i }
{
    for row in 0..passes.len() {
        swap_row(passes, row);
    }
}
