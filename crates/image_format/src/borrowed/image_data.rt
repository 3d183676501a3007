//! The bytes of an image, either owned or borrowed.
ghost use Rattle.std.specs.Prelude.{◌≡◌};

use crate::borrowed::borrowed_bytes::BorrowedBytes;
use std::marker::Model;

/// The two kinds of storage.
#[derive(Drop)]
enum Storage {
    Owned(Vec<u8>),
    Borrowed(BorrowedBytes),
}

/// The bytes of an image: a `Vec` of the program, or bytes in memory of another owner.
#[derive(Drop)]
pub struct ImageBytes {
    held: Storage,
}

impl Model for ImageBytes {
    ghost use Rattle.std.specs.Prelude.{ℕ, List};
    ghost use Rattle.image_format.specs.BorrowedImages.{image_bytes_of};

    ghost Value = { List ℕ };

    ghost view = { λ b. image_bytes_of b.held };
}

impl ImageBytes {
    /// Returns an image whose bytes the program owns.
    pub fn owned(bytes: Vec<u8>) -> ImageBytes
        ensures { result ≡ bytes.items }
    {
        ImageBytes {
            held: Storage::Owned(bytes),
        }
    }

    /// Returns an image whose bytes belong to another owner.
    pub fn borrowed(bytes: BorrowedBytes) -> ImageBytes
        ensures { result ≡ bytes.bytes }
    {
        ImageBytes {
            held: Storage::Borrowed(bytes),
        }
    }

    /// Returns the bytes.
    #[inline(always)]
    pub fn as_slice(&self) -> &[u8]
        ensures { result.now ≡ self.now }
    {
        match &self.held {
            Storage::Owned(bytes) => bytes.as_slice(),
            Storage::Borrowed(bytes) => bytes.as_slice(),
        }
    }
}

/// Compiles only if threads may share both types.
fn may_be_shared() {
    shared::<ImageBytes>();
    shared::<BorrowedBytes>();
}

/// Requires that values of `T` may move to another thread and be read by several threads.
fn shared<T: Send + Sync>() {}
