//! Bytes of an image, either owned by the program or borrowed from another owner for good.

mod borrowed_bytes;
mod image_data;
mod loan;

pub use borrowed_bytes::BorrowedBytes;
pub use image_data::ImageBytes;
pub use loan::BorrowedParts;
