//! Lexicons of a few lines, their images, and the sections of an image.
ghost use Rattle.std.specs.Prelude.{◌≡◌, IfOk};

use char_def::{read_chars, read_unk};
use image_format::{HEADER_LENGTH, read_header, section_ends};
use image_writer::{write_system, write_user};
use lex_source::{SortedLexicon, SourceLexicon};
use matrix_def::read_matrix;
use mj_model::{MatrixSizes, Sources, sample};
use std::alloc::Global;
use std::test::Fail;

/// The lines of the sample's lexicon.
pub const SAMPLE: &str = "\
すもも,1,1,100,名詞,すもも
も,1,1,20,助詞,も
もも,1,1,30,名詞,もも
";

/// Returns the sorted lexicon of `lines`, whose ids must be below `sizes`.
fn sorted(alloc: Global, sizes: MatrixSizes, lines: &str) -> Result<SortedLexicon, Fail>
    ensures { IfOk result (λ lexicon. lexicon.sizes ≡ sizes) }
{
    let mut lexicon = SourceLexicon::new(alloc, sizes);
    lexicon.add(alloc, lines.as_bytes(), 0)?;
    Ok(lexicon.sorted()?)
}

/// Returns the user image of `lines`, whose ids must be below `sizes`.
pub fn user_image(alloc: Global, sizes: MatrixSizes, lines: &str) -> Result<Vec<u8>, Fail> {
    if !sizes.are_allowed() {
        return Err("a connection table may have the sizes")?;
    }
    let lexicon = sorted(alloc, sizes, lines)?;
    Ok(write_user(alloc, lexicon)?)
}

/// Returns the system image of `sources` and `lines`. Fails if an unknown entry has an id out of
/// range.
pub fn system_image(alloc: Global, sources: &Sources<'_>, lines: &str) -> Result<Vec<u8>, Fail> {
    let matrix = read_matrix(alloc, sources.matrix)?;
    let chars = read_chars(alloc, sources.chars)?;
    let unknown = read_unk(alloc, sources.unk, &chars)?;
    if unknown.first_line_outside(matrix.sizes()).is_some() {
        return Err("the ids of the unknown entries lie within the sizes")?;
    }
    let lexicon = sorted(alloc, matrix.sizes(), lines)?;
    Ok(write_system(alloc, &matrix, &chars, &unknown, lexicon)?)
}

/// Returns the image of the sample's sources.
pub fn sample_image(alloc: Global) -> Result<Vec<u8>, Fail> {
    system_image(alloc, &sample(), SAMPLE)
}

/// Returns section `k` of an image, counted from 1. Returns nothing if `image` is not an image.
pub fn section(image: &[u8], k: usize) -> &[u8] {
    let empty = b"".as_slice();
    if image.len() < HEADER_LENGTH || k == 0 || k > 8 {
        return empty;
    }
    match section_ends(&read_header(image)) {
        Some(ends) => image.get(ends[k - 1]..ends[k]).unwrap_or(empty),
        None => empty,
    }
}
