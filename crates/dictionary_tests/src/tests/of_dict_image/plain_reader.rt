//! A second reader of user images, slow and simple, which the loader is compared with.
//!
//! It makes the checks of the format in their order, each on the whole bytes. Of system images it
//! knows only the header and section 1. That is enough for user images with a changed kind, which
//! have no costs.
use mj_model::ImageFault::{
    self, BadKey, BadLayout, BadMagic, BadSection, BadText, BadToken, Truncated,
};
use std::alloc::{AllocError, Global};
use std::str::from_utf8;

/// Returns the first error of a user image of layout 1 or 2, or `None` if it is valid. The checksum
/// of layout 3 is not checked.
pub(crate) fn first_fault(alloc: Global, bytes: &[u8]) -> Result<Option<ImageFault>, AllocError> {
    if let Some(fault) = front_fault(bytes) {
        return Ok(Some(fault));
    }
    let keys = if number_at(bytes, 8, 4) == 1 {
        listed_fault(bytes)
    } else {
        cells_fault(alloc, bytes)?
    };
    match keys {
        Some(fault) => Ok(Some(fault)),
        None => Ok(lexicon_fault(bytes)),
    }
}

/// Checks the header and sections 1 to 4.
fn front_fault(bytes: &[u8]) -> Option<ImageFault> {
    if let Some(fault) = frame_fault(bytes) {
        return Some(fault);
    }
    match header_fault(bytes) {
        Some(fault) => Some(fault),
        None => system_fault(bytes),
    }
}

/// Checks sections 6 to 8.
fn lexicon_fault(bytes: &[u8]) -> Option<ImageFault> {
    match groups_fault(bytes) {
        Some(fault) => Some(fault),
        None => tokens_fault(bytes),
    }
}

/// Returns the little-endian number in `size` bytes from position `at` on.
pub(crate) fn number_at(bytes: &[u8], at: usize, size: usize) -> u64 {
    let mut number = 0_u64;
    let mut weight = 1_u64;
    for byte in bytes.iter().skip(at).take(size) {
        number = number.wrapping_add(weight.wrapping_mul(u64::from(*byte)));
        weight = weight.wrapping_mul(256);
    }
    number
}

/// Returns the number in 4 bytes.
fn u32_at(bytes: &[u8], at: usize) -> u32 {
    u32::try_from(number_at(bytes, at, 4)).unwrap_or(u32::MAX)
}

/// Returns the signed number in 4 bytes.
fn signed_at(bytes: &[u8], at: usize) -> i64 {
    let number = i64::from(u32_at(bytes, at));
    if number < 1 << 31 {
        number
    } else {
        number.wrapping_sub(1 << 32)
    }
}

/// Returns the end of the header and the first `sections` sections.
fn end_of(bytes: &[u8], sections: usize) -> Option<u64> {
    let mut end = 104_u64;
    for at in [40, 48, 56, 64, 72, 80, 88, 96].iter().take(sections) {
        end = end.checked_add(number_at(bytes, *at, 8))?;
    }
    Some(end)
}

/// Returns the bytes of section `k`, or nothing if it lies out of range.
pub(crate) fn section(bytes: &[u8], k: usize) -> &[u8] {
    let start = end_of(bytes, k.saturating_sub(1)).unwrap_or(0);
    let end = end_of(bytes, k).unwrap_or(0);
    bytes.get(start as usize..end as usize).unwrap_or(b"")
}

/// Returns the end of the header, the sections and a checksum of `digest` bytes.
fn total_with(bytes: &[u8], digest: u64) -> Option<u64> {
    end_of(bytes, 8)?.checked_add(digest)
}

/// Checks the length of the header, the magic, the layout and the total length.
pub(crate) fn frame_fault(bytes: &[u8]) -> Option<ImageFault> {
    if bytes.len() < 104 {
        return Some(Truncated);
    }
    if !bytes.starts_with(b"\x4d\x4a\x44\x49\x43\x54\x0d\x0a") {
        return Some(BadMagic);
    }
    let layout = u32_at(bytes, 8);
    if layout < 1 || layout > 3 {
        return Some(BadLayout(layout));
    }
    let digest = if layout == 3 { 32 } else { 0 };
    let length = bytes.len() as u64;
    match total_with(bytes, digest) {
        Some(total) if total == length => None,
        Some(total) if total < length => Some(BadSection(9)),
        _ => Some(Truncated),
    }
}

/// Checks the header fields.
fn header_fault(bytes: &[u8]) -> Option<ImageFault> {
    let kind = number_at(bytes, 12, 4);
    let right = number_at(bytes, 16, 4);
    let left = number_at(bytes, 20, 4);
    let categories = number_at(bytes, 24, 4);
    let groups = number_at(bytes, 28, 4);
    let tokens = number_at(bytes, 32, 4);
    let unknown = number_at(bytes, 36, 4);
    let sizes = 1 <= right
        && right <= 65_535
        && 1 <= left
        && left <= 65_535
        && right.wrapping_mul(left) <= 1 << 30;
    let counts = match kind {
        0 => 1 <= categories && categories <= 18,
        1 => categories == 0 && unknown == 0,
        _ => false,
    };
    let few = groups <= tokens && tokens <= 1 << 28 && unknown <= 1 << 28;
    if sizes && counts && few {
        None
    } else {
        Some(BadSection(0))
    }
}

/// Checks sections 1 to 4, which are empty in a user image. A system image has costs.
fn system_fault(bytes: &[u8]) -> Option<ImageFault> {
    let pairs = number_at(bytes, 16, 4).wrapping_mul(number_at(bytes, 20, 4));
    let costs = if number_at(bytes, 12, 4) == 0 {
        pairs.wrapping_mul(2)
    } else {
        0
    };
    if number_at(bytes, 40, 8) != costs {
        return Some(BadSection(1));
    }
    for (at, k) in [(48, 2), (56, 3), (64, 4)] {
        if number_at(bytes, at, 8) != 0 {
            return Some(BadSection(k));
        }
    }
    None
}

/// Checks section 5 of layout 1: each key, and then the end of the section.
fn listed_fault(bytes: &[u8]) -> Option<ImageFault> {
    let mut rest = section(bytes, 5);
    let mut before = b"".as_slice();
    for group in 0..u32_at(bytes, 28) {
        let end = (number_at(rest, 0, 2) as usize).saturating_add(2);
        let key = rest.get(2..end).unwrap_or(b"");
        if from_utf8(key).is_err() || !before.cmp(key).is_lt() {
            return Some(BadKey(group));
        }
        before = key;
        rest = rest.get(end..).unwrap_or(b"");
    }
    if rest.is_empty() {
        None
    } else {
        Some(BadSection(5))
    }
}

/// Returns base and check of cell `number`, or `None` if it does not exist.
pub(crate) fn cell(cells: &[u8], number: i64) -> Option<(i64, i64)> {
    let at = usize::try_from(number).ok()?.checked_mul(8)?;
    if at >= cells.len() {
        return None;
    }
    Some((signed_at(cells, at), signed_at(cells, at.saturating_add(4))))
}

/// Returns whether a cell after the root is free or a child of its check, and has a valid value.
fn is_cell(cells: &[u8], groups: i64, number: i64) -> bool {
    let Some((base, check)) = cell(cells, number) else {
        return false;
    };
    if (base, check) == (0, -1) {
        return true;
    }
    let Some((parent, _)) = cell(cells, check) else {
        return false;
    };
    let code = number.wrapping_sub(parent);
    match code {
        0 => parent >= 1 && base < 0 && base.wrapping_neg() <= groups,
        1..=256 => parent >= 1 && base >= 1,
        _ => false,
    }
}

/// Returns the base of cell `number`, if it exists.
fn base_of(cells: &[u8], number: i64) -> Option<i64> {
    let (base, _) = cell(cells, number)?;
    Some(base)
}

/// Returns the check of cell `number`, if it exists.
fn check_of(cells: &[u8], number: i64) -> Option<i64> {
    let (_, check) = cell(cells, number)?;
    Some(check)
}

/// Returns how many cells hold `value`, and the last of them.
fn value_cells(cells: &[u8], value: i64) -> (usize, i64) {
    let mut count = 0_usize;
    let mut place = 0;
    for number in 1..(cells.len() / 8) as i64 {
        if base_of(cells, number) == Some((-1_i64).wrapping_sub(value)) {
            count = count.saturating_add(1);
            place = number;
        }
    }
    (count, place)
}

/// Returns whether the root and all other cells are valid.
fn are_cells(cells: &[u8], groups: i64) -> bool {
    base_of(cells, 0).unwrap_or(-1) >= 0
        && check_of(cells, 0) == Some(-2)
        && cells.len() % 8 == 0
        && cells.len() / 8 <= 1 << 30
        && are_cells_after_root(cells, groups)
}

/// Returns whether all cells after the root are valid.
fn are_cells_after_root(cells: &[u8], groups: i64) -> bool {
    for number in 1..(cells.len() / 8) as i64 {
        if !is_cell(cells, groups, number) {
            return false;
        }
    }
    true
}

/// Returns the key of the value in cell `place`, last byte first, or `None` if the checks don't
/// lead to the root.
fn key_back(alloc: Global, cells: &[u8], place: i64) -> Result<Option<Vec<u8>>, AllocError> {
    let mut key = Vec::new(alloc);
    let mut state = check_of(cells, place).unwrap_or(-1);
    for _ in 0..cells.len() {
        if state == 0 {
            return Ok(Some(key));
        }
        let check = check_of(cells, state).unwrap_or(-1);
        let base = base_of(cells, check).unwrap_or(0);
        let byte = state.wrapping_sub(base).wrapping_sub(1);
        key.push(u8::try_from(byte).unwrap_or(0xff))?;
        state = check;
    }
    Ok(None)
}

/// Returns whether the value in cell `place` has a valid key: UTF-8 of 1 to 65,535 bytes.
fn has_key(alloc: Global, cells: &[u8], place: i64) -> Result<bool, AllocError> {
    let Some(mut key) = key_back(alloc, cells, place)? else {
        return Ok(false);
    };
    key.reverse();
    Ok(!key.is_empty() && key.len() <= 65_535 && from_utf8(&key).is_ok())
}

/// Returns whether each value below `groups` is in exactly one cell.
fn appear_once(cells: &[u8], groups: u32) -> bool {
    for value in 0..groups {
        if value_cells(cells, i64::from(value)).0 != 1 {
            return false;
        }
    }
    true
}

/// Checks section 5 of layout 2: the cells, each value in one of them, and then the keys.
fn cells_fault(alloc: Global, bytes: &[u8]) -> Result<Option<ImageFault>, AllocError> {
    let cells = section(bytes, 5);
    let groups = u32_at(bytes, 28);
    if !are_cells(cells, i64::from(groups)) || !appear_once(cells, groups) {
        return Ok(Some(BadSection(5)));
    }
    for value in 0..groups {
        if !has_key(alloc, cells, value_cells(cells, i64::from(value)).1)? {
            return Ok(Some(BadKey(value)));
        }
    }
    Ok(None)
}

/// Returns entry `i` of section 6.
fn entry_at(index: &[u8], i: usize) -> u32 {
    u32_at(index, i.saturating_mul(4))
}

/// Returns whether the first `groups` entries of section 6 are each below the next one.
fn rises(index: &[u8], groups: usize) -> bool {
    for i in 0..groups {
        if entry_at(index, i) >= entry_at(index, i.saturating_add(1)) {
            return false;
        }
    }
    true
}

/// Checks section 6, which rises from 0 to the number of tokens.
fn groups_fault(bytes: &[u8]) -> Option<ImageFault> {
    let index = section(bytes, 6);
    let groups = u32_at(bytes, 28) as usize;
    let fills = index.len() == groups.saturating_add(1).saturating_mul(4);
    let last = entry_at(index, groups);
    if fills && rises(index, groups) && entry_at(index, 0) == 0 && last == u32_at(bytes, 32) {
        None
    } else {
        Some(BadSection(6))
    }
}

/// Checks sections 7 and 8: the tokens, and then their features.
fn tokens_fault(bytes: &[u8]) -> Option<ImageFault> {
    let tokens = section(bytes, 7);
    let count = u32_at(bytes, 32).saturating_add(u32_at(bytes, 36));
    if tokens.len() != (count as usize).saturating_mul(16) {
        return Some(BadSection(7));
    }
    for token in 0..count {
        if !fits_sizes(bytes, token) {
            return Some(BadToken(token));
        }
    }
    features_fault(bytes, count)
}

/// Checks section 8: the features of the first `count` tokens.
fn features_fault(bytes: &[u8], count: u32) -> Option<ImageFault> {
    for token in 0..count {
        if !has_feature(bytes, token) {
            return Some(BadText(token));
        }
    }
    None
}

/// Returns whether the ids of a token are below the sizes, and its spare bytes are 0.
fn fits_sizes(bytes: &[u8], token: u32) -> bool {
    let tokens = section(bytes, 7);
    let at = (token as usize).saturating_mul(16);
    number_at(tokens, at, 2) < number_at(bytes, 20, 4)
        && number_at(tokens, at.saturating_add(2), 2) < number_at(bytes, 16, 4)
        && number_at(tokens, at.saturating_add(6), 2) == 0
}

/// Returns whether the feature of a token lies in section 8 and is UTF-8.
fn has_feature(bytes: &[u8], token: u32) -> bool {
    let at = (token as usize).saturating_mul(16);
    let start = u32_at(section(bytes, 7), at.saturating_add(8)) as usize;
    let length = u32_at(section(bytes, 7), at.saturating_add(12)) as usize;
    match section(bytes, 8).get(start..start.saturating_add(length)) {
        Some(feature) => from_utf8(feature).is_ok(),
        None => false,
    }
}
