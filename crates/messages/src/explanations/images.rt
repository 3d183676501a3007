//! Errors of images and of files.

use command_lines::Explanation;

/// Returns the explanations of errors in the bytes of an image.
pub(super) fn of_bytes() -> &'static [Explanation] {
    &BYTES
}

/// Returns the explanations of errors of system and user dictionaries that don't fit together.
pub(super) fn of_overlays() -> &'static [Explanation] {
    &OVERLAYS
}

/// Returns the explanations of errors of files.
pub(super) fn of_files() -> &'static [Explanation] {
    &FILES
}

static BYTES: [Explanation; 8] = [
    Explanation {
        code: "L1",
        name: "Truncated",
        meaning: "The image has fewer bytes than a header, or than its header specifies.",
        cause: "A copy is incomplete, or the file is not an image.",
        cure: "Copy the image again, or compile it again with dictc.",
    },
    Explanation {
        code: "L2",
        name: "BadMagic",
        meaning: "The file does not start with the magic number of an image.",
        cause: "It is another kind of file, such as MeCab's sys.dic or a source file.",
        cure: "Compile the sources of the dictionary with dictc or kumquatsieve-import, and use that image.",
    },
    Explanation {
        code: "L3",
        name: "BadLayout",
        meaning: "The image has this layout, but only the layouts 1, 2 and 3 are known.",
        cause: "A later version of dictc wrote it.",
        cure: "Compile it again with this version, or install the later version.",
    },
    Explanation {
        code: "L4",
        name: "BadSection",
        meaning: "The section with this number is invalid. Number 0 is the header, 9 is data after section 8.",
        cause: "The image was changed after it was written, or another program wrote it.",
        cure: "Copy the image again, or compile it again with dictc.",
    },
    Explanation {
        code: "L5",
        name: "BadKey",
        meaning: "The key of the group with this number, counted from 0, is not 1 to 65,535 bytes of UTF-8, or is not in order (layout 1).",
        cause: "The image was changed after it was written, or another program wrote it.",
        cure: "Copy the image again, or compile it again with dictc.",
    },
    Explanation {
        code: "L6",
        name: "BadToken",
        meaning: "The token with this number, counted from 0, has an id outside the matrix sizes, or padding that is not 0.",
        cause: "The image was changed after it was written, or another program wrote it.",
        cure: "Copy the image again, or compile it again with dictc.",
    },
    Explanation {
        code: "L7",
        name: "BadText",
        meaning: "The feature of the token with this number, counted from 0, is outside the features section or is not UTF-8.",
        cause: "The image was changed after it was written, or another program wrote it.",
        cure: "Copy the image again, or compile it again with dictc.",
    },
    Explanation {
        code: "L8",
        name: "Digest",
        meaning: "The checksum (SHA-256) at the end of the image does not match its bytes.",
        cause: "The image was damaged by a copy or a disk.",
        cure: "Copy the image again, or compile it again with dictc.",
    },
];

static OVERLAYS: [Explanation; 3] = [
    Explanation {
        code: "O1",
        name: "NotSystem",
        meaning: "The image is not a system dictionary.",
        cause: "A user dictionary was given with -d or --dic.",
        cure: "Give a system dictionary there, and the user dictionary with jseg -u.",
    },
    Explanation {
        code: "O2",
        name: "NotUser",
        meaning: "The user image with this number, counted from 0 in the order given, is not a user dictionary.",
        cause: "A system dictionary was given with -u.",
        cure: "Give it with -d, or compile its lexicon with dictc user.",
    },
    Explanation {
        code: "O3",
        name: "OtherSizes",
        meaning: "The user image with this number, counted from 0, was compiled for other matrix sizes than those of the system dictionary.",
        cause: "It was compiled for another system dictionary, or for an older version of it.",
        cure: "Compile it again for this system dictionary with dictc user.",
    },
];

static FILES: [Explanation; 2] = [
    Explanation {
        code: "F1",
        name: "File",
        meaning: "The file or directory cannot be read or written, or does not end within 2^40 reads, or a file name in the directory is not UTF-8.",
        cause: "It does not exist, it is a directory, or the permission is missing. -v prints which of these.",
        cure: "Correct the path or the permissions.",
    },
    Explanation {
        code: "F2",
        name: "Output",
        meaning: "Standard output failed while dictc printed its counts, or while help was printed.",
        cause: "The disk is full, or the program that reads the output ended.",
        cure: "Free disk space, or let the reading program run to the end. The image was written.",
    },
];
