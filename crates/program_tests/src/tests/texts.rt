//! Texts for the tests of command lines. The programs' own texts are in `messages`, and `tests/cli`
//! tests them, so that a change of a text does not prove these tests again.

use command_lines::{Explanation, Texts};

/// Returns the texts: a version and explanations. No option has help, and there are no hints.
pub(crate) fn texts<'a>(explanations: &'a [&'static [Explanation]]) -> Texts<'a> {
    Texts {
        version: "1.2.3\nimage layouts read: 1, 2, 3; written: 3",
        help: &[],
        hints: &[],
        explanations,
    }
}

/// Returns the explanations, in one subject.
pub(crate) fn subjects() -> [&'static [Explanation]; 1] {
    [&EXPLANATIONS]
}

/// An explanation without a code and a name.
const EMPTY: Explanation = Explanation {
    code: "",
    name: "",
    meaning: "what it is",
    cause: "what causes it",
    cure: "what to do",
};

#[rattlefmt::skip]
static EXPLANATIONS: [Explanation; 10] = [
    Explanation { code: "S1", name: "NotUtf8", ..EMPTY },
    Explanation { code: "C4", name: "NoSuchCategory", ..EMPTY },
    Explanation { code: "U1", name: "NoSuchCategory", ..EMPTY },
    Explanation { code: "L4", name: "BadSection", ..EMPTY },
    Explanation { code: "G3", name: "NotUtf8", ..EMPTY },
    Explanation { code: "G4", name: "TooLong", ..EMPTY },
    Explanation { code: "Memory", name: "Memory", ..EMPTY },
    Explanation { code: "K1", name: "LineFeed", ..EMPTY },
    Explanation { code: "K7", name: "ShortBuffer", ..EMPTY },
    Explanation { code: "K10", name: "NoField", ..EMPTY },
];
