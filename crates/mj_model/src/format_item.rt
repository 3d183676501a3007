//! The items of an output format.

/// An item of a format, which prints a property of a word or of its line. (MeCab, format.html)
///
/// Offsets and lengths are in bytes. A field of the feature that starts with `*` prints nothing, as
/// in MeCab. A missing field prints nothing either, which is this project's own choice, since
/// MeCab's run ends there.
#[derive(Clone, Copy, Debug, PartialEq, Eq, Drop)]
pub enum FormatItem {
    /// `%m`: the surface
    Surface,
    /// `%M`: the surface with the blanks before it
    SurfaceWithBlanks,
    /// `%pS`: the blanks before the surface
    Blanks,
    /// `%H`: the feature
    Feature,
    /// `%f[n]`: field n of the feature, counted from 0
    Field(u16),
    /// `%c`: the word cost
    WordCost,
    /// `%s`: 0 for a known word, 1 for an unknown one
    IsUnknown,
    /// `%S`: the line
    Sentence,
    /// `%L`: the length of the line
    SentenceLength,
    /// `%phl`: the left id
    LeftId,
    /// `%phr`: the right id
    RightId,
    /// `%pC`: the connection cost with the preceding word
    ConnectionCost,
    /// `%pn`: the sum of the connection cost and the word cost
    CostHere,
    /// `%pc`: the cost of the path up to and including this word; at the end of the sentence, of
    /// the whole path
    CostSoFar,
    /// `%pl`: the length of the surface
    SurfaceLength,
    /// `%pL`: the length of the surface with the blanks before it
    LengthWithBlanks,
    /// `%ps`: the start of the surface
    Start,
    /// `%pe`: the end of the surface
    End,
    /// `%t`: the number of the first category of the surface's first character
    CharacterCategory,
    /// `%%`: a percent sign
    Percent,
}
