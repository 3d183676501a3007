//! The words at a position and the paths of a text: their types, the source of a path's words, and
//! the laws of both.

mod entry_list;
pub mod laws;
mod path;
mod surface;
mod word_stream;

pub use entry_list::EntryList;
pub use path::Path;
pub use surface::Surface;
pub use word_stream::{StoredWords, WordStream};
