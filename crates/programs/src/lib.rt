//! Parts that the programs `dictc` and `jseg` share: reading and writing whole files, loading
//! images, finding images by name, and reporting errors and progress. Use this crate for a
//! command-line program that works on dictionaries. Libraries take bytes, and need none of it.
//!
//! Example:
//!
//! ```text
//! let prefix = prefix_of("/opt/k/bin/dictc");   // Some("/opt/k")
//! let path = image_in(alloc, "/usr/share/kumquatsieve", "ipadic")?;
//! // "/usr/share/kumquatsieve/ipadic.img"
//! ```
//! The test `prefixes` of `crates/program_tests` runs it.
#![tactic(auto)]

mod environment;
mod excerpt;
mod fault;
mod file_error;
mod folder_names;
mod image_dirs;
mod image_head;
mod image_pieces;
mod image_reading;
mod images;
mod named_image;
mod output;
mod prefix_read;
mod program;
mod progress;
mod reading;
mod reporter;
mod reporting;
mod row_of_image;
mod searched_dirs;
mod source_files;
mod stage;
mod termination;
mod test_record;
mod whole_file;
mod writing;

pub use command_lines::{EscapedLine, arguments};
pub use environment::{Environment, prefix_of};
pub use excerpt::Excerpt;
pub use fault::Fault;
pub use file_error::FileError;
pub use folder_names::{image_names, in_byte_order};
pub use image_dirs::image_in;
pub use image_reading::{ImageReadFault, ImageReading, ReadImage, read_image};
pub use images::{
    ImageFile, dictionaries_at, dictionary_at, image_at, image_from, load_dictionary,
};
pub use named_image::image_path;
pub use output::{TextWriter, write_whole};
pub use program::run_program;
pub use progress::{Progress, ReadProgress};
pub use reading::{ByteSink, ReadFault, read_into, read_whole};
pub use reporter::Reporter;
pub use reporting::report;
pub use row_of_image::image_row;
pub use searched_dirs::{log_image_dirs, name_list};
pub use source_files::{SourceFiles, lexicon_path};
pub use stage::Stage;
pub use termination::Termination;
pub use whole_file::{WholeFile, read_files, texts};
pub use writing::{write_file, write_file_as};
