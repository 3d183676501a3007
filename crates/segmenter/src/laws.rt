//! Laws of outputs, which hold for all texts.

ghost use Rattle.segmenter.specs.JoinedTexts.{OutputStops, OutputsJoin};
ghost use Rattle.segmenter.specs.OneOutput.{HasOneOutput};

/// With dictionaries that cover every text, each text has exactly one output in a format: its
/// bytes, and its first invalid line or none.
pub fn one_output()
    ensures { HasOneOutput }
{}

/// Lines are segmented independently, so a text may be split after any line. The output of two
/// texts is the concatenation of their outputs, up to the first invalid line.
pub fn outputs_join()
    ensures joined { OutputsJoin }
    ensures stopped { OutputStops }
{}
