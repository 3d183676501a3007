//! Errors of calls of the C library, which the programs never report.

use command_lines::Explanation;

/// Returns the explanations of errors of calls.
pub(super) fn of_calls() -> &'static [Explanation] {
    &CALLS
}

static CALLS: [Explanation; 10] = [
    Explanation {
        code: "K1",
        name: "LineFeed",
        meaning: "The line contains a line feed, at this byte, counted from 0.",
        cause: "A text of several lines was passed to a call that takes one line.",
        cure: "Call kumquatsieve_segment_text, or use the flag KUMQUATSIEVE_WHOLE.",
    },
    Explanation {
        code: "K2",
        name: "NothingSegmented",
        meaning: "The segmenter has no segmented line whose words it could return.",
        cause: "No line was segmented yet, or the last line was rejected.",
        cure: "Call kumquatsieve_segment first, and check the code that it returns.",
    },
    Explanation {
        code: "K3",
        name: "Shared",
        meaning: "The segmenter shares its dictionaries with another segmenter.",
        cause: "A user dictionary was added after a segmenter was opened over the dictionaries.",
        cure: "Pass all user dictionaries to kumquatsieve_dictionary_open.",
    },
    Explanation {
        code: "K4",
        name: "BadGrouping",
        meaning: "The maximum grouping size is above 1,000 characters.",
        cause: "The number is meant for another setting, or it was negative.",
        cure: "Use a number from 0 to 1,000. MeCab's default is 24.",
    },
    Explanation {
        code: "K5",
        name: "EmptySegmenter",
        meaning: "The segmenter or dictionary is empty.",
        cause: "Loading its image failed, or it was freed.",
        cure: "Load an image first, and check the code that the call returns.",
    },
    Explanation {
        code: "K6",
        name: "FullSegmenter",
        meaning: "The segmenter is not empty.",
        cause: "It was loaded before, and was not freed since.",
        cure: "Free it first, or use another segmenter.",
    },
    Explanation {
        code: "K7",
        name: "ShortBuffer",
        meaning: "The buffer is too short for the text.",
        cause: "The text is longer than the caller expected.",
        cure: "Allocate a buffer of as many bytes as the call reports, and call again.",
    },
    Explanation {
        code: "K8",
        name: "NoWord",
        meaning: "The line has no word with this number.",
        cause: "The number is not below the number of words.",
        cure: "Words are numbered from 0. Use numbers below the count that kumquatsieve_segment returns.",
    },
    Explanation {
        code: "K9",
        name: "BadArgument",
        meaning: "An argument is NULL where an address is required, a flag is unknown, or a number is out of range.",
        cause: "The call was made with arguments in the wrong order.",
        cure: "Compare the call with its comment in kumquatsieve.h.",
    },
    Explanation {
        code: "K10",
        name: "NoField",
        meaning: "The dictionary has no field of this name.",
        cause: "The name is misspelled, or no file NAME.fields lies beside the image.",
        cure: "kumquatsieve_dictionary_info has the names. kumquatsieve_field takes a number.",
    },
];
