//! A small sample dictionary, to try the programs on.

ghost use Rattle.std.specs.Prelude.{◌≡◌, ◌∷◌, [], map};
ghost use Rattle.mj_model.specs.Sample.{matrix_text, chars_text, unk_text, lexicon_text};

use crate::sources::Sources;

const MATRIX: &str = "2 2\n0 0 0\n0 1 10\n1 0 5\n1 1 7\n";

const CHARS: &str = "\
DEFAULT 0 1 0
SPACE 0 1 0
ALPHA 1 1 0
KATAKANA 1 1 2
KANJI 0 0 2
HIRAGANA 0 1 2
0x0020 SPACE
0x0041..0x005A ALPHA
0x0061..0x007A ALPHA
0x3041..0x309F HIRAGANA
0x30A1..0x30FF KATAKANA
0x4E00..0x9FFF KANJI
";

const UNK: &str = "\
DEFAULT,1,1,1000,未知
SPACE,1,1,1000,未知
ALPHA,1,1,1000,未知
KATAKANA,1,1,1000,未知
KANJI,1,1,1000,未知
HIRAGANA,1,1,1000,未知
";

/// The lines of すもも, も and もも, in UTF-8.
const LEXICON: &[u8] = b"\
\xe3\x81\x99\xe3\x82\x82\xe3\x82\x82,1,1,100,\xe5\x90\x8d\xe8\xa9\x9e,\xe3\x81\x99\xe3\x82\x82\xe3\x82\x82
\xe3\x82\x82,1,1,20,\xe5\x8a\xa9\xe8\xa9\x9e,\xe3\x82\x82
\xe3\x82\x82\xe3\x82\x82,1,1,30,\xe5\x90\x8d\xe8\xa9\x9e,\xe3\x82\x82\xe3\x82\x82
";

/// Returns the sources of a sample dictionary whose three words segment the line すもももも. (This
/// project's own choice)
pub fn sample() -> Sources<'static>
    ensures matrix { result.matrix.now ≡ matrix_text }
    ensures chars { result.chars.now ≡ chars_text }
    ensures unk { result.unk.now ≡ unk_text }
    ensures lexicons { map (λ lexicon. lexicon.now) result.lexicons.now ≡ lexicon_text ∷ [] }
{
    Sources {
        matrix: MATRIX.as_bytes(),
        chars: CHARS.as_bytes(),
        unk: UNK.as_bytes(),
        lexicons: &[LEXICON],
    }
}
