//! Limits. All are this project's own choice, except for the greatest code point, which is
//! Unicode's.

/// The maximum length of a line of text in bytes, without its LF.
pub const SENTENCE_MAX: usize = 1_048_576;

/// The maximum length of a surface in bytes.
pub const SURFACE_MAX: usize = 65_535;

/// The maximum number of right ids, and of left ids, of a connection table.
pub const MATRIX_SIZE_MAX: u32 = 65_535;

/// The maximum number of cells of a connection table, which is the product of its sizes.
pub const MATRIX_CELLS_MAX: u64 = 1 << 30;

/// The maximum number of entries of a dictionary, and of lines of an `unk.def`.
pub const ENTRIES_MAX: usize = 1 << 28;

/// The maximum number of categories of a `char.def`.
pub const CATEGORIES_MAX: usize = 18;

/// The maximum length of a category's name in bytes.
pub const CATEGORY_NAME_MAX: usize = 255;

/// The greatest LENGTH of a category.
pub const CATEGORY_LENGTH_MAX: u8 = 15;

/// The greatest code point.
pub const CODE_POINT_MAX: u32 = 0x10_FFFF;

/// The maximum number of reads in one run over a text.
pub const READS_MAX: u64 = 1 << 40;

/// The default of the grouping limit, which is the number of characters that may follow the first
/// one of a grouped word.
pub const GROUPING_DEFAULT: u16 = 24;

/// The greatest grouping limit that can be set, in characters after the first one of a grouped
/// word.
pub const GROUPING_MAX: u16 = 1_000;
