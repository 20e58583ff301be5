// The cells of two monomials, row by row: the pair of classes of each.
#![tactic(auto)]

ghost use Rattle.std.specs.Prelude.{◌≡◌, ◌*◌, ◌<◌, get_or};
ghost use Rattle.spec.specs.Action.{cell_pairs};
ghost use Rattle.cells.specs.Cells.{with, sides_of, Sides};

use monomial_terms::class_at;
use numbers::size_u64;

// A cell's pair of classes.
#[derive(Clone, Copy)]
pub struct Place {
    pub left: usize,
    pub right: usize,
}

// The pair of cell k of the monomials' cells.
pub fn cell(left: &[u64], rows: usize, right: &[u64], cols: usize, k: usize) -> Place
    requires { Sides left.now rows right.now cols × (k < rows * cols) }
    ensures { with result.left result.right ≡ get_or (cell_pairs (sides_of left.now rows right.now cols)) k (0, 0) }
{
    let a = size_u64(class_at(left, k / cols));
    let b = size_u64(class_at(right, k % cols));
    Place { left: a, right: b }
}
