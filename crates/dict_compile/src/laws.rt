//! Laws of all sources.

ghost use Rattle.dict_compile.specs.CoveredTexts.{SourcesCoverAll, SourcesCoverTexts, SourcesHaveWords};
ghost use Rattle.mj_model.specs.SourceTables.{HaveOneMeaning};

/// States that all tables of the same sources agree on each code point.
pub fn sources_have_one_meaning()
    ensures { HaveOneMeaning }
{}

/// States that a dictionary of accepted sources segments every text, with or without user
/// dictionaries, for every grouping.
pub fn sources_cover_texts()
    ensures words { SourcesHaveWords }
    ensures entries { SourcesCoverAll }
    ensures texts { SourcesCoverTexts }
{}
