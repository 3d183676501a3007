//! The parts of a lexicon line.
ghost use Rattle.std.specs.Prelude.{MatchOption};
ghost use Rattle.lex_source.specs.Results.{IsPartsResult};
ghost use Rattle.lex_source.specs.Spelled.{HasParts, HasFewFields};

use crate::bytes::is_blank_line;
use crate::raw_field::RawField;
use mj_model::SourceKind;

/// The first four fields of a line, and the remainder after the fourth comma.
#[derive(Clone, Copy)]
pub(crate) struct LineParts<'a> {
    pub(crate) surface: RawField<'a>,
    pub(crate) left: RawField<'a>,
    pub(crate) right: RawField<'a>,
    pub(crate) cost: RawField<'a>,
    pub(crate) feature: &'a str,
}

/// Returns the parts of a line, or `None` if the line is blank.
pub(crate) fn split_line(line: &[u8]) -> Result<Option<LineParts<'_>>, SourceKind>
    ensures { IsPartsResult line.now result }
{
    if is_blank_line(line) {
        return Ok(None);
    }
    let Ok(text) = simdutf8::compat::from_utf8(line) else {
        return Err(SourceKind::NotUtf8);
    };
    let Some(parts) = line_parts(text) else {
        return Err(SourceKind::TooFewFields);
    };
    Ok(Some(parts))
}

/// Returns the parts of a line, or `None` if no comma ends its fourth field.
pub(crate) fn line_parts(text: &str) -> Option<LineParts<'_>>
    ensures { MatchOption result (HasFewFields text.now) (HasParts text.now) }
{
    let surface = RawField::first(text);
    let left = RawField::first(surface.rest?);
    let right = RawField::first(left.rest?);
    let cost = RawField::first(right.rest?);
    Some(LineParts {
        surface,
        left,
        right,
        cost,
        feature: cost.rest?,
    })
}
