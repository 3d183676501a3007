//! Command lines whose arguments can't be read.

use command_lines::OptionsFault;
use std::io::{Error, ErrorKind};
use std::test::Fail;

#[rattlefmt::skip]
static WORDS_THAT_CANNOT_BE_HAD: [(&str, ErrorKind, Option<&str>); 2] = [
    // (what, kind of the error, text for an invalid command line)
    ("not UTF-8", ErrorKind::InvalidData, Some("jseg: an argument is not UTF-8\n")),
    ("no memory", ErrorKind::OutOfMemory, None),
];

#[test]
fn words_that_cannot_be_had(rt: HostRuntime) -> Result<(), Fail> {
    for (what, kind, wanted) in &WORDS_THAT_CANNOT_BE_HAD {
        match &OptionsFault::of_words(rt.alloc(), "jseg", &Error::from(*kind)) {
            OptionsFault::Bad(text) => assert!(rt; *wanted == Some(text.as_str()), "{what}"),
            OptionsFault::Memory => assert!(rt; *wanted == None, "{what}"),
            OptionsFault::Help(_) => assert!(rt; false, "{what}"),
        }
    }
    Ok(())
}
