//! Small images and their sections.
mod faults;
mod frame;
mod samples;
mod system;
mod tables;
mod user;
