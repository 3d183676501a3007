//! Tests of the public calls, grouped by crate.
mod of_line_segmenter;
mod of_line_stream;
mod of_out_format;
mod of_segmenter;
