//! Tests of the public calls, grouped by crate.
mod of_dict_compile;
mod of_dict_image;
mod of_image_writer;
mod samples;
