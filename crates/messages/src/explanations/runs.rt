//! Errors of formats, of the text, of its output, and of memory.

use command_lines::Explanation;

/// Returns the explanations of errors of the text and of its output.
pub(super) fn of_text() -> &'static [Explanation] {
    &TEXT
}

/// Returns the explanations of errors of formats.
pub(super) fn of_formats() -> &'static [Explanation] {
    &FORMATS
}

/// Returns the explanation of allocation failures.
pub(super) fn of_memory() -> &'static [Explanation] {
    &MEMORY
}

static TEXT: [Explanation; 5] = [
    Explanation {
        code: "G1",
        name: "Read",
        meaning: "Reading this line from standard input failed.",
        cause: "Standard input is closed or a directory, or its device failed.",
        cure: "Check where the text comes from. The lines before this one were written.",
    },
    Explanation {
        code: "G2",
        name: "Write",
        meaning: "A write to standard output failed after this number of bytes.",
        cause: "The disk is full, or the program that reads the output ended, as head does.",
        cure: "Free disk space, or let the reading program run to the end.",
    },
    Explanation {
        code: "G3",
        name: "NotUtf8",
        meaning: "This line of the text is not UTF-8.",
        cause: "The text is in EUC-JP or Shift_JIS, or it is damaged.",
        cure: "Convert it, for example with iconv -f EUC-JP -t UTF-8. The lines before this one were written.",
    },
    Explanation {
        code: "G4",
        name: "TooLong",
        meaning: "This line of the text has more than 1,048,576 bytes.",
        cause: "The text has no line feeds.",
        cure: "Split it into lines, for example after each sentence. The lines before this one were written.",
    },
    Explanation {
        code: "G5",
        name: "InputTooLong",
        meaning: "Standard input did not end within 2^40 reads.",
        cause: "The input is a device without an end.",
        cure: "Split the text into files.",
    },
];

static FORMATS: [Explanation; 3] = [
    Explanation {
        code: "P1",
        name: "BadEscape",
        meaning: "At this byte of a format, counted from 0, a backslash starts no known escape.",
        cause: "The backslash is meant literally, or for the shell.",
        cure: "Write \\\\ for a backslash. The escapes are \\0 \\a \\b \\t \\n \\v \\f \\r \\s \\\\.",
    },
    Explanation {
        code: "P2",
        name: "BadItem",
        meaning: "At this byte of a format, counted from 0, a % starts no item that this format may have.",
        cause: "The item exists only in MeCab, such as %F, or it is an item of words in -B or -E.",
        cure: "Write %% for a percent sign. jseg(1) lists the items.",
    },
    Explanation {
        code: "P3",
        name: "BadIndex",
        meaning: "At this byte of a format, counted from 0, %f is not followed by one index in brackets, of 1 to 5 digits and at most 65,535.",
        cause: "The index is missing, or there are several, as in MeCab's %f[0,1].",
        cure: "Write an item for each field, such as %f[0]-%f[1].",
    },
];

static MEMORY: [Explanation; 1] = [Explanation {
    code: "Memory",
    name: "Memory",
    meaning: "An allocation failed.",
    cause: "The machine has too little memory, or a limit is set. Loading an image needs its size in memory, dictc several times as much.",
    cure: "Raise the limit (ulimit -v), or use a machine with more memory.",
}];
