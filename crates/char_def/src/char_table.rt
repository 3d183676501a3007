//! The categories of all code points.
ghost use Rattle.std.specs.Prelude.{◌≡◌, ◌≤◌, ◌<◌, length, Ok, Err, Some, None, IfOk, IfErr};
ghost use Rattle.char_def.specs.Results.{IsInfoResult, IsNumberOf, IsTableIn};
ghost use Rattle.mj_model.specs.declared.limits.TheConstants.{CATEGORIES_MAX as CategoriesMax};
ghost use Rattle.mj_model.specs.FirstFault.{IsMemoryOr};
ghost use Rattle.mj_model.specs.CharDef.{char_source, code_point_max};
ghost use Rattle.char_def.specs.Categories.{IsCategoryTable, table_info, category_at};
ghost use Rattle.char_def.specs.Definitions.{definitions_are};
ghost use Rattle.char_def.specs.InfoRanges.{AreRangesOf};

use crate::char_lines::{CharLines, read_lines};
use crate::coverage::coverage;
use crate::definitions::{Definition, number_of};
use crate::info_range::{CategoryRange, push_range};
use crate::mappings::look_up;
use crate::overlay::{CategoryStep, find_step};
use mj_model::{CHAR_FILE, Category, CharInfo, SourceFault, SourceKind};
use std::alloc::{AllocError, Global};
use std::marker::Model;

/// The categories, and the categories of each code point. (MeCab, `char.def`)
#[derive(Drop)]
pub struct CharTable {
    definitions: Vec<Definition>,
    /// The categories of code points without a mapping.
    default: CharInfo,
    /// The categories of mapped code points.
    steps: Vec<CategoryStep>,
}

impl Model for CharTable {
    ghost use Rattle.std.specs.Prelude.{◌≡◌};
    ghost use Rattle.char_def.specs.Categories.{CharCategories, IsCategoryTable, default_info};
    ghost use Rattle.char_def.specs.Definitions.{definitions_are};
    ghost use Rattle.char_def.specs.Steps.{AreRising};

    ghost Value = { CharCategories };

    ghost view = { λ t. record {
      categories = definitions_are t.definitions.items;
      steps = t.steps.items;
    } };

    ghost invariant = { λ t. record {
      default_is : t.default ≡ default_info (definitions_are t.definitions.items);
      rising : AreRising 0 t.steps.items;
      formed : IsCategoryTable (record {
        categories = definitions_are t.definitions.items;
        steps = t.steps.items;
      });
    } };
}

impl CharTable {
    /// Returns the categories of the code point `code`, which may be a surrogate, by a binary
    /// search.
    pub fn info(&self, code: u32) -> CharInfo
        requires { code ≤ code_point_max }
        ensures info { result ≡ table_info self.now code }
        ensures head { result.head < length self.now.categories }
    {
        match find_step(&self.steps, code) {
            Some(info) => info,
            None => self.default,
        }
    }

    /// Returns the number of categories. The categories of each code point are among them.
    pub fn count(&self) -> usize
        ensures count { result ≡ length self.now.categories }
        ensures formed { IsCategoryTable self.now }
    {
        self.definitions.len()
    }

    /// Returns the ranges of code points with equal categories, in ascending order.
    pub fn ranges(&self, alloc: Global) -> Result<Vec<CategoryRange>, AllocError>
        ensures { IfOk result (λ ranges. AreRangesOf self.now ranges.items) }
    {
        let mut ranges = Vec::with_capacity(alloc, self.steps.len() + 1)?;
        ranges.push(CategoryRange {
            first: 0,
            info: self.info(0),
        })?;
        for step in &self.steps {
            push_range(&mut ranges, step.first, step.info.unwrap_or(self.default))?;
        }
        Ok(ranges)
    }

    /// Returns the number of the category with this name.
    pub(crate) fn number_of(&self, name: &[u8]) -> Option<usize>
        ensures { IsNumberOf self.now.categories name.now result }
    {
        number_of(&self.definitions, name)
    }

    /// Returns the name of category `i`.
    pub fn name(&self, i: usize) -> &str
        requires { i < length self.now.categories }
        ensures { result.now ≡ (category_at self.now i).name }
    {
        self.definitions[i].name.as_str()
    }

    /// Returns category `i`.
    pub fn category(&self, i: usize) -> Category
        requires { i < length self.now.categories }
        ensures { result ≡ (category_at self.now i).category }
    {
        self.definitions[i].category
    }
}

/// Reads the categories of a `char.def` and its mappings from code points to categories.
///
/// A code point has the categories of the last mapping that covers it, or DEFAULT if there is none.
/// (MeCab, `char.def`; what it leaves open is this project's own choice)
pub fn read_chars(alloc: Global, bytes: &[u8]) -> Result<CharTable, SourceFault>
    ensures accepted { IfOk result (IsTableIn bytes.now) }
    ensures rejected { IfErr result
        (λ fault. IsMemoryOr fault (char_source bytes.now ≡ Err fault)) }
{
    let CharLines {
        definitions,
        mappings,
    } = read_lines(alloc, bytes)?;
    let default = set_of_one(&definitions, "DEFAULT", SourceKind::NoDefault)?;
    let _ = set_of_one(&definitions, "SPACE", SourceKind::NoSpace)?;
    let mapped = look_up(alloc, mappings, &definitions)?;
    let steps = coverage(alloc, &mapped)?;
    Ok(CharTable {
        definitions,
        default,
        steps,
    })
}

/// Returns the set of only the category `name`, or an error of this kind if `char.def` does not
/// define it.
fn set_of_one(
    definitions: &[Definition],
    name: &str,
    kind: SourceKind,
) -> Result<CharInfo, SourceFault>
    requires { length definitions.now ≤ CategoriesMax }
    ensures { IsInfoResult (definitions_are definitions.now) name.now kind result }
{
    match number_of(definitions, name.as_bytes()) {
        Some(number) => Ok(CharInfo {
            bits: 1 << number,
            head: number as u8,
        }),
        None => Err(kind.at(CHAR_FILE, 0)),
    }
}
