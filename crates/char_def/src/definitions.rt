//! The categories that `char.def` defines.
ghost use Rattle.std.specs.Prelude.{◌≡◌, ◌≤◌, ◌++◌, ◌∷◌, [], length, None, IfErr, OnOk};
ghost use Rattle.char_def.specs.Results.{IsDefinitionError, IsNumberOf};
ghost use Rattle.mj_model.specs.declared.limits.TheConstants.{CATEGORIES_MAX as CategoriesMax};
ghost use Rattle.mj_model.specs.CharDef.{Defines, line_fault};
ghost use Rattle.char_def.specs.CharLines.{category_is};
ghost use Rattle.char_def.specs.Definitions.{definitions_are};

use crate::line::CategoryLine;
use mj_model::{CATEGORIES_MAX, Category, SourceKind};
use std::alloc::Global;
use std::string::String;

/// A category with its name.
#[derive(Drop)]
pub struct Definition {
    pub name: String,
    pub category: Category,
}

/// Adds the category that a line defines.
pub(crate) fn define(
    alloc: Global,
    line: CategoryLine,
    definitions: &mut Vec<Definition>,
) -> Result<(), SourceKind>
    requires few { length definitions.old.items ≤ CategoriesMax }
    ensures fits { OnOk result (line_fault (definitions_are definitions.old.items)
        (Defines (category_is line.entry)) ≡ None) }
    ensures added { OnOk result (definitions_are definitions.new.items
        ≡ definitions_are definitions.old.items ++ category_is line.entry ∷ []) }
    ensures few { OnOk result (length definitions.new.items ≤ CategoriesMax) }
    ensures rejected { IfErr result (IsDefinitionError (definitions_are definitions.old.items)
        (Defines (category_is line.entry))) }
{
    if number_of(definitions, line.name.as_bytes()).is_some() {
        return Err(SourceKind::Twice);
    }
    if definitions.len() >= CATEGORIES_MAX {
        return Err(SourceKind::TooManyCategories);
    }
    definitions.push(Definition {
        name: String::from_str(alloc, line.name)?,
        category: line.category,
    })?;
    Ok(())
}

/// Returns the number of the category with this name.
pub(crate) fn number_of(definitions: &[Definition], name: &[u8]) -> Option<usize>
    ensures { IsNumberOf (definitions_are definitions.now) name.now result }
{
    for (number, definition) in definitions.iter().enumerate() {
        if definition.name.as_bytes() == name {
            return Some(number);
        }
    }
    None
}
