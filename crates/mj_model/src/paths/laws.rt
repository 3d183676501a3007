//! Laws of words and paths: facts about every source of words and about every text.

ghost use Rattle.mj_model.specs.Best.{HasOneBest, KeepsOrder};
ghost use Rattle.mj_model.specs.Laws.{OnlyBlanksRemain, WordsJoin, WordsKeepPlaces};
ghost use Rattle.mj_model.specs.PathLaws.{TextsAreCovered};
ghost use Rattle.mj_model.specs.Pruned.{PruningKeepsBest};

/// There is exactly one best path.
pub fn one_best_path()
    ensures { HasOneBest }
{}

/// Appending the same words to two chains that end in the same word keeps their order.
///
/// So a search needs to keep only the best chain to each word.
pub fn extension_keeps_order()
    ensures { KeepsOrder }
{}

/// Pruning keeps the best path: the best path of the kept words is the best of all paths.
///
/// Each chain needs one of kept words in its stead, to the same position and with the same right
/// id. That chain costs less, or as much and is the same chain or wins the tie.
pub fn pruning_keeps_best()
    ensures { PruningKeepsBest }
{}

/// The words of a text meet the requirements of the search. Each is listed at its position, is not
/// empty, ends at the start of a character or at the end of the text, and is listed once.
pub fn words_keep_places()
    ensures { WordsKeepPlaces }
{}

/// Only blanks remain after the last word of a path.
pub fn only_blanks_remain()
    ensures { OnlyBlanksRemain }
{}

/// The blanks and surfaces of a path's words, followed by the remainder, are the text.
pub fn words_join_to_the_line()
    ensures { WordsJoin }
{}

/// Some dictionaries cover every text: those whose surfaces are UTF-8 and that have an unknown
/// entry for each code point. Each text then has exactly one best path, and only blanks remain
/// after it.
pub fn texts_are_covered()
    ensures { TextsAreCovered }
{}
