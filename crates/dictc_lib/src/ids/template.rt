//! A part of speech as a template for the first fields of a feature.

ghost use Rattle.std.specs.Prelude.{◌↔◌, IfOk, IsTrue};
ghost use Rattle.mj_model.specs.Fields.{AreFields};
ghost use Rattle.dictc_lib.specs.Templates.{Fits, FitsField, IsAny, fields_of};

use lex_source::{append_field, field};
use std::alloc::{AllocError, Global};
use std::string::String;

/// A template for the first fields of features. An empty field or `*` fits any field. (This
/// project's own choice)
#[derive(Drop)]
pub struct Template {
    fields: Vec<String>,
}

impl Template {
    /// Parses a template. Its fields are written as those of a feature, with or without quotes.
    pub fn of(alloc: Global, text: &str) -> Result<Template, AllocError>
        ensures { IfOk result (λ template. AreFields text.now (fields_of template)) }
    {
        let mut fields = Vec::new(alloc);
        for n in 0..usize::MAX {
            match field(alloc, text, n)? {
                Some(found) => fields.push(found)?,
                None => return Ok(Template { fields }),
            }
        }
        // No memory holds so many fields.
        Err(AllocError)
    }

    /// Returns whether the first fields of `feature` fit. `room` is a buffer for a field without
    /// its quotes.
    pub fn fits(&self, feature: &str, room: &mut Vec<u8>) -> Result<bool, AllocError>
        ensures { IfOk result (λ fits. IsTrue fits ↔ Fits (fields_of self.now) feature.now) }
    {
        for (n, wanted) in self.fields.iter().enumerate() {
            if !fits_field(feature, n, wanted.as_str(), room)? {
                return Ok(false);
            }
        }
        Ok(true)
    }
}

/// Returns whether field `n` of `feature` fits the field `wanted` of a template.
fn fits_field(feature: &str, n: usize, wanted: &str, room: &mut Vec<u8>) -> Result<bool, AllocError>
    ensures { IfOk result (λ fits. IsTrue fits ↔ FitsField n wanted.now feature.now) }
{
    if is_any(wanted) {
        return Ok(true);
    }
    room.clear();
    let is_there = append_field(room, feature, n)?;
    Ok(is_there && room.as_slice() == wanted.as_bytes())
}

/// Returns whether the field of a template fits any field.
fn is_any(wanted: &str) -> bool
    ensures { IsTrue result ↔ IsAny wanted.now }
{
    wanted.is_empty() || wanted == "*"
}
