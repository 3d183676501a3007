//! What the tests of words, formats and runs share: dictionaries of the sample's sources with
//! changes, images of older layouts, runs over texts in memory, and retries after an allocation
//! failure.
//!
//! Only tests use this module, and its functions have no contracts.

mod dicts;
mod images;
mod layouts;
mod overlays;
mod rejected;
mod runs;
mod segmentations;

pub use dicts::{letters, system, system_dict, system_in, user};
pub use images::{chars_with, image, loaded, loaded_in, user_image};
pub use layouts::{SURFACES, in_layout};
pub use overlays::{TestDictionary, TwoDicts, overlay};
pub use rejected::{dict_again, letters_again};
pub use runs::{Outcome, run, run_in};
pub use segmentations::segment_text;
