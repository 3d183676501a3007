//! Sources and texts with their output, and readers and writers that fail.

mod devices;
mod failing;
mod faults;
mod growths;
mod long_output;
mod older_images;
mod older_systems;
mod out_of_memory;
mod rejected;
mod rows;
mod users;
