//! The table of connection costs.
ghost use Rattle.std.specs.Prelude.{◌≡◌, ◌<◌, ◌+◌, ◌*◌, pos, replicate, slice_set, IsTrue, IfOk};
ghost use Rattle.mj_model.specs.Connection.{AreMatrixSizes, is_pair};
ghost use Rattle.matrix_def.specs.Costs.{CostTable, IsMatrix, cell_at, matrix_cost};

use mj_model::MatrixSizes;
use std::alloc::{AllocError, Global};
use std::marker::Model;

/// A table of connection costs, by the right id of a word and the left id of the following word.
#[derive(Drop)]
pub struct Matrix {
    sizes: MatrixSizes,
    costs: Vec<i16>,
}

impl Model for Matrix {
    ghost Value = { CostTable };

    ghost view = { λ m. record { sizes = m.sizes; costs = m.costs.items } };

    ghost invariant = { λ m. IsMatrix (record { sizes = m.sizes; costs = m.costs.items }) };
}

impl Matrix {
    /// Returns a table in which all costs are 0.
    pub(crate) fn empty(alloc: Global, sizes: MatrixSizes) -> Result<Matrix, AllocError>
        requires { AreMatrixSizes sizes }
        ensures value { IfOk result (λ m. m
            ≡ record { sizes = sizes; costs = replicate (sizes.right * sizes.left) (pos 0) }) }
        ensures formed { IfOk result (λ m. IsMatrix m) }
    {
        let costs = Vec::from_elem(alloc, 0, sizes.right as usize * sizes.left as usize)?;
        Ok(Matrix { sizes, costs })
    }

    /// Returns the number of right ids and of left ids.
    pub fn sizes(&self) -> MatrixSizes
        ensures sizes { result ≡ self.now.sizes }
        ensures formed { IsMatrix self.now }
    {
        self.sizes
    }

    /// Returns whether both ids lie within the sizes.
    pub fn is_valid(&self, left: u16, right: u16) -> bool
        ensures { result ≡ is_pair self.now.sizes right left }
    {
        self.sizes.contains(right, left)
    }

    /// Returns the cost of connecting a word with right id `prev_right` to a following word with
    /// left id `next_left`. Lower costs are preferred. (MeCab, `matrix.def`)
    pub fn cost(&self, prev_right: u16, next_left: u16) -> i16
        requires { IsTrue (is_pair self.now.sizes prev_right next_left) }
        ensures { result ≡ matrix_cost self.now prev_right next_left }
    {
        self.costs[cell(self.sizes, prev_right, next_left)]
    }

    /// Returns all costs, ordered by right id and then by left id.
    pub fn costs(&self) -> &[i16]
        ensures costs { result.now ≡ self.now.costs }
        ensures formed { IsMatrix self.now }
    {
        &self.costs
    }

    /// Sets the cost of connecting a word with right id `right` to a following word with left id
    /// `left`.
    pub(crate) fn set(&mut self, right: u16, left: u16, cost: i16)
        requires { IsTrue (is_pair self.old.sizes right left) }
        ensures value { self.new
            ≡ record self.old {
              costs = slice_set self.old.costs (cell_at self.old right left) cost;
            } }
        ensures formed { IsMatrix self.new }
    {
        let at = cell(self.sizes, right, left);
        self.costs[at] = cost;
    }
}

/// Returns the index of the cost of a pair of ids.
fn cell(sizes: MatrixSizes, right: u16, left: u16) -> usize
    ensures { result ≡ right * sizes.left + left }
{
    usize::from(right) * sizes.left as usize + usize::from(left)
}
