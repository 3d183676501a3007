//! Tests of the public calls, grouped by crate.
mod faults;
mod of_cells;
mod of_char_def;
mod of_double_array;
mod of_lex_source;
mod of_matrix_def;
mod of_mj_model;
