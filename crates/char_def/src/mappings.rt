//! The mappings of `char.def`.
ghost use Rattle.std.specs.Prelude.{◌≡◌, ◌≤◌, map, length, None, Some, IfOk, IfErr};
ghost use Rattle.char_def.specs.Results.{IsInfoOfNames};
ghost use Rattle.mj_model.specs.declared.limits.TheConstants.{CATEGORIES_MAX as CategoriesMax};
ghost use Rattle.mj_model.specs.FirstFault.{IsMemoryOr};
ghost use Rattle.char_def.specs.CharLines.{all_range_categories, first_undefined, mappings_are};
ghost use Rattle.char_def.specs.Definitions.{definitions_are};
ghost use Rattle.char_def.specs.Mapped.{range_categories_by};

use crate::char_lines::NumberedMapping;
use crate::definitions::{Definition, number_of};
use crate::line_words::LineWords;
use crate::mapped::MappedRange;
use mj_model::{CHAR_FILE, CharInfo, SourceFault, SourceKind};
use std::alloc::Global;

/// Returns the categories that the mappings give to code points. A mapping with an undefined
/// category is an error.
pub(crate) fn look_up(
    alloc: Global,
    mappings: Vec<NumberedMapping>,
    definitions: &[Definition],
) -> Result<Vec<MappedRange>, SourceFault>
    requires { length definitions.now ≤ CategoriesMax }
    ensures accepted { IfOk result (λ mapped. first_undefined (definitions_are definitions.now)
        (mappings_are mappings.entry.items) ≡ None) }
    ensures mapped { IfOk result (λ mapped. map range_categories_by mapped.items
        ≡ all_range_categories (definitions_are definitions.now)
        (mappings_are mappings.entry.items)) }
    ensures rejected { IfErr result (λ fault. IsMemoryOr fault
        (first_undefined (definitions_are definitions.now)
        (mappings_are mappings.entry.items) ≡ Some fault)) }
{
    let mut mapped = Vec::with_capacity(alloc, mappings.len())?;
    for NumberedMapping { number, mapping } in mappings {
        let Some(info) = info_of(definitions, mapping.first, mapping.others) else {
            return Err(SourceKind::UndefinedCategory.at(CHAR_FILE, number));
        };
        mapped.push(MappedRange {
            range: mapping.range,
            info,
        })?;
    }
    Ok(mapped)
}

/// Returns the categories with these names, or `None` if one is undefined.
fn info_of(definitions: &[Definition], first: &[u8], others: LineWords) -> Option<CharInfo>
    requires { length definitions.now ≤ CategoriesMax }
    ensures { IsInfoOfNames (definitions_are definitions.now) first.now others.entry result }
{
    let head = number_of(definitions, first)?;
    let mut bits = 1 << head;
    for name in others {
        bits |= 1 << number_of(definitions, name)?;
    }
    Some(CharInfo {
        bits,
        head: head as u8,
    })
}
