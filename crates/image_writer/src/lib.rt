//! Writes the images of system and user dictionaries: the header, the sections compiled from the
//! sources, and the SHA-256. Use it after the sources have been parsed; `dict_compile` does both.
//! The images are compact: each distinct feature is stored once, and there are as few ranges of
//! code points as possible.
//!
//! Example:
//!
//! ```text
//! let sizes = MatrixSizes { right: 2, left: 2 };
//! let mut lexicon = SourceLexicon::new(alloc, sizes);
//! lexicon.add(alloc, "もも,1,1,1,X\n".as_bytes(), 0)?;
//! let image = image_writer::write_user(alloc, lexicon.sorted()?)?;   // section 8 is b"X"
//! ```
//! The test `sections_of_lexicons` of `crates/dictionary_tests` runs it.
#![tactic(auto)]

mod categories;
mod cell_bytes;
mod costs;
mod feature_place;
mod feature_use;
mod features;
mod first_uses;
mod frame;
mod group_bytes;
mod groups;
mod header;
mod keys;
mod lexicon;
mod lexicon_bytes;
mod mark;
mod ranges;
mod system;
mod token_bytes;
mod tokens;
mod unknown_index;
mod user;

pub use frame::write_image;
pub use system::write_system;
pub use user::write_user;
