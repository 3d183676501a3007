//! Laws of the definitions of an image.

ghost use Rattle.std.specs.Prelude.{◌≡◌, ◌^◌, ◌∷◌, []};
ghost use Rattle.image_format.specs.declared.header.TheConstants as image;
ghost use Rattle.image_format.specs.declared.layout.TheConstants as layout;
ghost use Rattle.image_format.specs.ImageFaults.{ImagesHaveOneFault, IntactIsWellFormedWithDigest};

/// States that image bytes are accepted or have exactly one first error.
pub fn one_image_fault()
    ensures { ImagesHaveOneFault }
{}

/// States that image bytes are intact if and only if they are well formed and have the right
/// SHA-256.
pub fn intact_images()
    ensures { IntactIsWellFormedWithDigest }
{}

/// States the values of the constants that definitions of `specs` name.
pub fn constants()
    ensures magic { image.MAGIC ≡ 77 ∷ 74 ∷ 68 ∷ 73 ∷ 67 ∷ 84 ∷ 13 ∷ 10 ∷ [] }
    ensures layout { layout.LAYOUT ≡ 3 }
    ensures entries { layout.OWN_ENTRIES ≡ 65535 }
    ensures header { image.HEADER_LENGTH ≡ 104 }
    ensures digest { image.DIGEST_LENGTH ≡ 32 }
    ensures features { image.FEATURE_BYTES_END ≡ 2 ^ 32 }
{}
