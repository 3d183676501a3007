//! Small sources and their images, sources that are rejected, changed images, and progress reports.
mod damaged;
mod lexicons;
mod out_of_memory;
mod rejected;
mod sources;
mod user;
mod watched;
