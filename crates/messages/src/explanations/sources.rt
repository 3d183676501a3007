//! Errors of the sources of dictionaries.

use command_lines::Explanation;

/// Returns the explanations of errors of `matrix.def`.
pub(super) fn of_matrix() -> &'static [Explanation] {
    &MATRIX
}

/// Returns the explanations of errors of source lines, and of the lexicons as a whole.
pub(super) fn of_lines() -> &'static [Explanation] {
    &LINES
}

/// Returns the explanations of errors of `char.def`.
pub(super) fn of_categories() -> &'static [Explanation] {
    &CATEGORIES
}

/// Returns the explanations of errors of `unk.def`.
pub(super) fn of_unknown() -> &'static [Explanation] {
    &UNKNOWN
}

/// Returns the explanations of errors of the sources as a whole.
pub(super) fn of_dictionary() -> &'static [Explanation] {
    &DICTIONARY
}

static MATRIX: [Explanation; 4] = [
    Explanation {
        code: "M1",
        name: "BadHeader",
        meaning: "The first line of matrix.def that is not blank does not have two sizes from 1 to 65,535. Line 0 means that there is no such line.",
        cause: "The file is another one, it is empty, or it starts with a byte order mark.",
        cure: "Use the matrix.def of the dictionary, as UTF-8 without a byte order mark.",
    },
    Explanation {
        code: "M2",
        name: "BadRow",
        meaning: "A line of matrix.def does not have two ids from 0 to 65,535 and a cost from -32,768 to 32,767.",
        cause: "The line is incomplete, or its cost does not fit 16 bits.",
        cure: "Correct the line, or copy the file from the dictionary again.",
    },
    Explanation {
        code: "M3",
        name: "PairOutside",
        meaning: "The ids on a line of matrix.def are outside the sizes on its first line.",
        cause: "Lines were added without changing the sizes.",
        cure: "Raise the sizes on the first line, or remove the line.",
    },
    Explanation {
        code: "M4",
        name: "TooLarge",
        meaning: "The product of the sizes of matrix.def is above 2^30.",
        cause: "The first line is wrong.",
        cure: "Write the number of right ids and the number of left ids on the first line.",
    },
];

static LINES: [Explanation; 5] = [
    Explanation {
        code: "S1",
        name: "NotUtf8",
        meaning: "A line of a source file is not UTF-8.",
        cause: "Most dictionaries of MeCab are in EUC-JP or Shift_JIS.",
        cure: "Convert the sources with kumquatsieve-import, or with iconv -f EUC-JP -t UTF-8.",
    },
    Explanation {
        code: "S2",
        name: "TooFewFields",
        meaning: "A line of a lexicon or of unk.def has no comma after its fourth field.",
        cause: "An id or the cost is missing, or a quote is not closed.",
        cure: "Write surface,left id,right id,cost,feature. Quote a surface that contains a comma.",
    },
    Explanation {
        code: "S3",
        name: "BadNumber",
        meaning: "An id is not a number from 0 to 65,535, or the cost is not a number from -32,768 to 32,767.",
        cause: "The numbers were left empty for MeCab to assign, or a surface with a comma is not quoted.",
        cure: "Write the numbers: 'dictc ids --dic IMG FEATURE' prints those of similar entries. kumquatsieve-import omits and reports lines whose numbers are empty.",
    },
    Explanation {
        code: "S4",
        name: "SurfaceTooLong",
        meaning: "A surface has more than 65,535 bytes.",
        cause: "A quote is not closed, so the rest of the line belongs to the surface.",
        cure: "Close the quote, or shorten the surface.",
    },
    Explanation {
        code: "S5",
        name: "TooMany",
        meaning: "The lexicons have more than 2^28 entries.",
        cause: "A lexicon was given many times.",
        cure: "Give fewer lexicons.",
    },
];

static CATEGORIES: [Explanation; 7] = [
    Explanation {
        code: "C1",
        name: "BadLine",
        meaning: "A line of char.def has too few words, an invalid number, or a name that is not 1 to 255 bytes of UTF-8.",
        cause: "The line is incomplete, or the file starts with a byte order mark.",
        cure: "Write NAME INVOKE GROUP LENGTH (0 or 1, 0 or 1, 0 to 15), or 0xLOW..0xHIGH CATEGORY.",
    },
    Explanation {
        code: "C2",
        name: "BadRange",
        meaning: "A range of char.def is not hexadecimal, its low end is above its high end, or its high end is above U+10FFFF.",
        cause: "The ends are exchanged, or a digit is not hexadecimal.",
        cure: "Write 0xHEX or 0xLOW..0xHIGH.",
    },
    Explanation {
        code: "C3",
        name: "Twice",
        meaning: "char.def defines a category twice.",
        cause: "Two files were joined.",
        cure: "Remove one of the two lines.",
    },
    Explanation {
        code: "C4",
        name: "NoSuchCategory",
        meaning: "A mapping of char.def uses a category that no line defines.",
        cause: "The name is misspelt, or there are blanks around the dots of a range.",
        cure: "Define the category, or correct the line.",
    },
    Explanation {
        code: "C5",
        name: "TooMany",
        meaning: "char.def defines more than 18 categories.",
        cause: "Categories were added.",
        cure: "Combine categories that are treated alike.",
    },
    Explanation {
        code: "C6",
        name: "NoDefault",
        meaning: "char.def does not define the category DEFAULT.",
        cause: "The file is another one, or the line was removed.",
        cure: "Add a line such as: DEFAULT 0 1 0",
    },
    Explanation {
        code: "C7",
        name: "NoSpace",
        meaning: "char.def does not define the category SPACE.",
        cause: "The file is another one, or the line was removed.",
        cure: "Add a line such as: SPACE 0 1 0",
    },
];

static UNKNOWN: [Explanation; 2] = [
    Explanation {
        code: "U1",
        name: "NoSuchCategory",
        meaning: "A line of unk.def uses a category that char.def does not define.",
        cause: "The two files belong to different dictionaries, or the name is misspelt.",
        cure: "Use the unk.def and the char.def of the same dictionary.",
    },
    Explanation {
        code: "U2",
        name: "MissingCategory",
        meaning: "The category with this number, counted from 0 in the order of char.def, has no line in unk.def.",
        cause: "A category was added to char.def only.",
        cure: "Add a line for it to unk.def.",
    },
];

static DICTIONARY: [Explanation; 3] = [
    Explanation {
        code: "I1",
        name: "IdOutside",
        meaning: "An id of an entry, or of a line of unk.def, is outside the sizes of matrix.def.",
        cause: "The lexicon was written for another dictionary.",
        cure: "Use ids of the dictionary: 'dictc ids --dic IMG FEATURE' prints those of the entries of a part of speech.",
    },
    Explanation {
        code: "I2",
        name: "ArrayFull",
        meaning: "The index of the surfaces needs more than 2^30 cells.",
        cause: "The lexicons have many millions of long surfaces.",
        cure: "Use fewer entries, or move some to a user dictionary.",
    },
    Explanation {
        code: "I3",
        name: "FeaturesTooLarge",
        meaning: "The features of the image have 2^32 bytes or more.",
        cause: "The lexicons have many millions of long features.",
        cure: "Shorten the features, or move some entries to a user dictionary.",
    },
];
