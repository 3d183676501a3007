//! The shares of the sections of an image.

use image_format::{HEADER_LENGTH, read_header};
use programs::{Reporter, Stage};

/// Contents of sections 1 to 8.
const SECTIONS: [&str; 8] = [
    "connection costs",
    "categories",
    "categories of code points",
    "unknown index",
    "keys",
    "group index",
    "tokens",
    "features",
];

/// Logs the size of each section in bytes, and its share of the image in percent.
pub fn log_shares(reporter: &Reporter<'_>, image: &[u8]) {
    if image.len() < HEADER_LENGTH {
        return;
    }
    let lengths = read_header(image).lengths;
    for (section, length) in SECTIONS.iter().zip(lengths.iter()) {
        reporter.log(Stage::Share {
            section: *section,
            bytes: *length,
            percent: u128::from(*length) * 100 / image.len() as u128,
        });
    }
}
