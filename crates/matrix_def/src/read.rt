//! Reading of a `matrix.def` that is one slice.
ghost use Rattle.std.specs.Prelude.{◌≡◌, Err, IfOk, IfErr};
ghost use Rattle.mj_model.specs.FirstFault.{IsMemoryOr};
ghost use Rattle.mj_model.specs.Connection.{connection_of};
ghost use Rattle.matrix_def.specs.Costs.{IsTableIn};

use crate::matrix::Matrix;
use crate::reader::MatrixReader;
use mj_model::SourceFault;
use std::alloc::Global;

/// Reads the connection costs of a `matrix.def`.
///
/// A pair of ids that is not listed has cost 0, and a repeated pair has the cost of its last row.
/// (MeCab, `matrix.def`; what it leaves open is this project's own choice)
pub fn read_matrix(alloc: Global, bytes: &[u8]) -> Result<Matrix, SourceFault>
    ensures accepted { IfOk result (IsTableIn bytes.now) }
    ensures rejected { IfErr result (λ fault. IsMemoryOr fault
        (connection_of bytes.now ≡ Err fault)) }
{
    MatrixReader::new(alloc).read(bytes)?.finish()
}
