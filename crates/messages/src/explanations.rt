//! The explanations of error codes.

mod calls;
mod images;
mod runs;
mod sources;

use command_lines::Explanation;

/// Returns the explanations of the errors of both programs and of the C library's calls, grouped by
/// subject.
pub fn subjects() -> [&'static [Explanation]; 12] {
    [
        sources::of_matrix(),
        sources::of_lines(),
        sources::of_categories(),
        sources::of_unknown(),
        sources::of_dictionary(),
        images::of_bytes(),
        images::of_overlays(),
        images::of_files(),
        runs::of_text(),
        runs::of_formats(),
        runs::of_memory(),
        calls::of_calls(),
    ]
}
