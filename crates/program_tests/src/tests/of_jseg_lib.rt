//! Source directories, and invalid images.

mod directories;
mod user_images;
