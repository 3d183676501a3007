//! The sources of a dictionary.

/// The bytes of MeCab's source files: `matrix.def`, `char.def`, `unk.def`, and the lexicons in the
/// order in which they are read.
#[derive(Clone, Copy, Debug)]
pub struct Sources<'a> {
    pub matrix: &'a [u8],
    pub chars: &'a [u8],
    pub unk: &'a [u8],
    pub lexicons: &'a [&'a [u8]],
}
