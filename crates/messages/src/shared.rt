//! Texts that both programs have.

use command_lines::{Explanation, Texts};

/// Returns the texts of a program with this help and these hints, each after its key, and with these
/// explanations of error codes.
pub fn texts<'a>(
    help: &'static [(&'static str, &'static str)],
    hints: &'static [(&'static str, &'static str)],
    explanations: &'a [&'static [Explanation]],
) -> Texts<'a> {
    Texts {
        version: VERSION,
        help,
        hints,
        explanations,
    }
}

/// Version of the programs, and the layouts of the images that they read and write.
pub(crate) const VERSION: &str = "0.1.0\nimage layouts read: 1, 2, 3; written: 3";

/// Help of `--explain`.
pub(crate) const EXPLAIN: (&str, &str) = (
    "explain",
    "Explain the error with this code or name, such as L4; without a value, list all codes",
);

/// Help of `-v`.
pub(crate) const VERBOSE: (&str, &str) = (
    "verbose",
    "Print progress and the causes of errors to standard error",
);

/// Help of `--skip-digest`.
pub(crate) const SKIP_DIGEST: (&str, &str) = (
    "skip-digest",
    "Skip verifying the checksums (SHA-256) of images, which takes most of their load time",
);
