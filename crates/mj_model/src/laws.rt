//! Laws of the definitions: facts about every source and every image.

ghost use Rattle.std.specs.Prelude.{◌≡◌, ◌^◌, ◌-◌};
ghost use Rattle.mj_model.specs.Fields.{HasOneFirstField};
ghost use Rattle.mj_model.specs.Lexicon.{HasOneReading};
ghost use Rattle.mj_model.specs.UnkDef.{HasOneUnkDef};
ghost use Rattle.mj_model.specs.declared.limits.TheConstants as limits;
ghost use Rattle.mj_model.specs.declared.source_fault.TheConstants as files;

/// Each line has exactly one first field, followed by exactly one remainder.
pub fn field_split_is_unique()
    ensures { HasOneFirstField }
{}

/// Each lexicon has exactly one reading.
pub fn one_reading()
    ensures { HasOneReading }
{}

/// Each `unk.def` has exactly one reading for given sizes of the matrix and given categories.
pub fn one_unk_reading()
    ensures { HasOneUnkDef }
{}

/// The values of the limits that definitions name.
pub fn limits()
    ensures line { limits.SENTENCE_MAX ≡ 1048576 }
    ensures surface { limits.SURFACE_MAX ≡ 65535 }
    ensures matrix_size { limits.MATRIX_SIZE_MAX ≡ 65535 }
    ensures matrix_cells { limits.MATRIX_CELLS_MAX ≡ 2 ^ 30 }
    ensures entries { limits.ENTRIES_MAX ≡ 2 ^ 28 }
    ensures categories { limits.CATEGORIES_MAX ≡ 18 }
    ensures category_name { limits.CATEGORY_NAME_MAX ≡ 255 }
    ensures category_length { limits.CATEGORY_LENGTH_MAX ≡ 15 }
    ensures code_point { limits.CODE_POINT_MAX ≡ 1114111 }
    ensures reads { limits.READS_MAX ≡ 2 ^ 40 }
    ensures grouping_default { limits.GROUPING_DEFAULT ≡ 24 }
    ensures grouping { limits.GROUPING_MAX ≡ 1000 }
{}

/// The values of the file numbers in errors of sources.
pub fn file_numbers()
    ensures matrix { files.MATRIX_FILE ≡ 0 }
    ensures chars { files.CHAR_FILE ≡ 1 }
    ensures unk { files.UNK_FILE ≡ 2 }
    ensures first_lexicon { files.FIRST_LEXICON_FILE ≡ 3 }
    ensures last_lexicon { files.LAST_LEXICON_FILE ≡ 2 ^ 32 - 2 }
    ensures none { files.NO_FILE ≡ 2 ^ 32 - 1 }
{}
