//! The parts of `Segmenter` that C does not see: positions and numbers in errors, their texts, and
//! a format without a part for unknown words. All else is tested through the C library
//! (`tests/capi/c`).

mod faults;
mod formats;
mod rejected;
mod samples;
mod words;
