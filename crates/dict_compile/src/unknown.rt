//! Reading of the unknown entries.

ghost use Rattle.std.specs.Prelude.{◌≡◌, [], length, Ok, Err, IfOk, IfErr};
ghost use Rattle.mj_model.specs.FirstFault.{IsMemoryOr};
ghost use Rattle.char_def.specs.Outside.{all_lines_outside};
ghost use Rattle.mj_model.specs.UnkDef.{IsUnkWithin};

use char_def::{CharTable, UnkTable, read_unk};
use mj_model::{MatrixSizes, SourceFault, SourceKind, UNK_FILE};
use std::alloc::Global;

/// Reads `unk.def`. Returns `IdOutside` if an id is outside `sizes`.
pub(crate) fn read_unknown<'a>(
    alloc: Global,
    bytes: &'a [u8],
    chars: &CharTable,
    sizes: MatrixSizes,
) -> Result<UnkTable<'a>, SourceFault>
    ensures accepted { IfOk result (λ unk. IsUnkWithin sizes chars.now.categories bytes.now
        (Ok unk)) }
    ensures count { IfOk result (λ unk. length unk ≡ length chars.now.categories) }
    ensures within { IfOk result (λ unk. all_lines_outside sizes unk ≡ []) }
    ensures rejected { IfErr result (λ fault. IsMemoryOr fault
        (IsUnkWithin sizes chars.now.categories bytes.now (Err fault))) }
{
    let unknown = read_unk(alloc, bytes, chars)?;
    match unknown.first_line_outside(sizes) {
        Some(line) => Err(SourceKind::IdOutside.at(UNK_FILE, line)),
        None => Ok(unknown),
    }
}
