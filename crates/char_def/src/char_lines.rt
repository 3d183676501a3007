//! The lines of `char.def`, each read once.
ghost use Rattle.std.specs.Prelude.{◌≡◌, ◌≤◌, ◌++◌, [], length, None, Some, IfOk, IfErr, OnOk};
ghost use Rattle.char_def.specs.Results.{IsDefinitionError};
ghost use Rattle.mj_model.specs.declared.limits.TheConstants.{CATEGORIES_MAX as CategoriesMax};
ghost use Rattle.mj_model.specs.CharDef.{char_line, defined_by, line_fault, first_bad_line, source_from};
ghost use Rattle.mj_model.specs.FirstFault.{IsMemoryOr};
ghost use Rattle.mj_model.specs.Lines.{numbered_lines};
ghost use Rattle.char_def.specs.CharLines.{mapped_in, mappings_are, numbered_mappings};
ghost use Rattle.char_def.specs.Definitions.{definitions_are};

use crate::definitions::{Definition, define};
use crate::line::{CharLine, MappingLine, read_line};
use lex_source::lines;
use mj_model::{CHAR_FILE, SourceFault, SourceKind};
use std::alloc::Global;

/// A mapping line with its number.
#[derive(Drop)]
pub(crate) struct NumberedMapping<'a> {
    pub(crate) number: u64,
    pub(crate) mapping: MappingLine<'a>,
}

/// The categories and the mapping lines. A mapping may name a category that a later line defines.
#[derive(Drop)]
pub(crate) struct CharLines<'a> {
    pub(crate) definitions: Vec<Definition>,
    pub(crate) mappings: Vec<NumberedMapping<'a>>,
}

/// Reads the lines up to the first one that is invalid whatever categories are defined after it.
pub(crate) fn read_lines(alloc: Global, bytes: &[u8]) -> Result<CharLines<'_>, SourceFault>
    ensures accepted { IfOk result (λ read. first_bad_line [] (numbered_lines bytes.now) ≡ None) }
    ensures categories { IfOk result (λ read. definitions_are read.definitions.items
        ≡ (source_from (numbered_lines bytes.now)).categories) }
    ensures few { IfOk result (λ read. length read.definitions.items ≤ CategoriesMax) }
    ensures mappings { IfOk result (λ read. mappings_are read.mappings.items
        ≡ numbered_mappings (numbered_lines bytes.now)) }
    ensures rejected { IfErr result (λ fault. IsMemoryOr fault
        (first_bad_line [] (numbered_lines bytes.now) ≡ Some fault)) }
{
    let mut read = CharLines {
        definitions: Vec::new(alloc),
        mappings: Vec::new(alloc),
    };
    for (number, line) in lines(bytes) {
        if let Err(kind) = add_line(alloc, number, line, &mut read) {
            return Err(kind.at(CHAR_FILE, number));
        }
    }
    Ok(read)
}

/// Adds the category or the mapping of a line.
fn add_line<'a>(
    alloc: Global,
    number: u64,
    line: &'a [u8],
    read: &mut CharLines<'a>,
) -> Result<(), SourceKind>
    requires few { length read.old.definitions.items ≤ CategoriesMax }
    ensures fits { OnOk result (line_fault (definitions_are read.old.definitions.items)
        (char_line line.now) ≡ None) }
    ensures defined { OnOk result (definitions_are read.new.definitions.items
        ≡ definitions_are read.old.definitions.items ++ defined_by (char_line line.now)) }
    ensures few { OnOk result (length read.new.definitions.items ≤ CategoriesMax) }
    ensures mapped { OnOk result (mappings_are read.new.mappings.items
        ≡ mappings_are read.old.mappings.items ++ mapped_in (number, line.now)) }
    ensures rejected { IfErr result (IsDefinitionError
        (definitions_are read.old.definitions.items) (char_line line.now)) }
{
    match read_line(line)? {
        CharLine::Nothing => Ok(()),
        CharLine::Category(category) => define(alloc, category, &mut read.definitions),
        CharLine::Mapping(mapping) => {
            read.mappings.push(NumberedMapping { number, mapping })?;
            Ok(())
        }
    }
}
