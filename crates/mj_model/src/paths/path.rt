//! A path through the words of a text.

use crate::Word;

/// The words of a path with their total cost. Each word is one of those at the end of the word
/// before it.
///
/// `total` is the sum of the word costs and of the connection costs, those from BOS and to EOS
/// included. (MeCab)
#[derive(Debug, Drop)]
pub struct Path {
    pub words: Vec<Word>,
    pub total: i64,
}
