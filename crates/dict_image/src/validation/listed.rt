//! Tests of the listed keys of layout 1: each lies in the section, is UTF-8, and is greater than
//! the key before it.
ghost use Rattle.std.specs.Prelude.{◌≡◌, MatchOption, MatchResult};
ghost use Rattle.image_format.specs.OlderSections.{StartWithKey, first_key_in};
ghost use Rattle.image_format.specs.declared.layout.KeyForm.TheVariants.{Listed};
ghost use Rattle.image_format.specs.ImageFaults.{key_tests};
ghost use Rattle.dict_image.specs.Validation.Checks.{PassAt, MemoryOrFault};
ghost use Rattle.dict_image.specs.Validation.KeyPlaces.{IsKeyAbove};

use image_format::u16_at;
use mj_model::ImageFault;
use simdutf8::is_utf8;
use std::alloc::Global;

/// Returns the start of each key in the section, as a byte offset, or the first error.
pub(crate) fn starts_of(alloc: Global, groups: u32, keys: &[u8]) -> Result<Vec<usize>, ImageFault>
    ensures { MatchResult result (λ starts. PassAt groups keys.now starts.items)
        (MemoryOrFault (key_tests Listed groups keys.now)) }
{
    let mut starts = Vec::new(alloc);
    let mut at = 0;
    let mut before: &[u8] = &[];
    for group in 0..groups {
        let Some(key) = key_above(&keys[at..], before) else {
            return Err(ImageFault::BadKey(group));
        };
        starts.push(at)?;
        at += 2 + key.len();
        before = key;
    }
    if at == keys.len() {
        Ok(starts)
    } else {
        Err(ImageFault::BadSection(5))
    }
}

/// Returns the key at the start of `bytes`, or None if there is none that is greater than `before`.
fn key_above<'a>(bytes: &'a [u8], before: &[u8]) -> Option<&'a [u8]>
    ensures { MatchOption result (IsKeyAbove bytes.now before.now → ⊥)
        (λ key. IsKeyAbove bytes.now before.now × (key.now ≡ first_key_in bytes.now)) }
{
    let key = key_at(bytes)?;
    if before.cmp(key).is_lt() {
        Some(key)
    } else {
        None
    }
}

/// Returns the key at the start of `bytes`, after its length, or None if there is none.
fn key_at(bytes: &[u8]) -> Option<&[u8]>
    ensures { MatchOption result (StartWithKey bytes.now → ⊥)
        (λ key. StartWithKey bytes.now × (key.now ≡ first_key_in bytes.now)) }
{
    if bytes.len() < 2 {
        return None;
    }
    let end = 2 + u16_at(bytes, 0) as usize;
    if end == 2 || end > bytes.len() || !is_utf8(&bytes[2..end]) {
        return None;
    }
    Some(&bytes[2..end])
}
