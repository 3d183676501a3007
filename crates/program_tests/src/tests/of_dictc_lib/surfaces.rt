//! The longest surfaces of lexicons, and the surfaces with the most entries.

use dictc_lib::{Repeated, Surface, longest_surface, most_repeated};
use std::test::Fail;

/// The length of a surface in bytes, the number of its lexicon, and its line.
type Longest = Option<(usize, usize, u64)>;

#[rattlefmt::skip]
static LONGEST: [(&str, &[&str], Longest); 9] = [
    // (what, lexicons, the longest surface)
    ("none",                    &[],                                       None),
    ("no lines",                &["", "\n"],                              None),
    ("no accepted line",        &[",1,1,1,X\n"],                          None),
    ("one",                     &["もも,1,1,1,X\n"],                      Some((6, 0, 1))),
    ("the last",                &["も,1,1,1,X\n\nもも,1,1,1,X"],         Some((6, 0, 3))),
    ("the first of two",        &["もも,1,1,1,X\nabcdef,1,1,1,X\n"],     Some((6, 0, 1))),
    ("of the second lexicon",   &["a,1,1,1,X\n", "b,1,1,1,X\nab,1,1,1,X\n"], Some((2, 1, 2))),
    ("the first of two of two", &["\nab,1,1,1,X\n", "ab,1,1,1,X\n"],    Some((2, 0, 2))),
    ("between quotes",          &["\"a\"\",\"\"b\",1,1,1,X\n"],     Some((5, 0, 1))),
];

#[test]
fn longest_surfaces(rt: HostRuntime) -> Result<(), Fail> {
    for (what, lexicons, wanted) in &LONGEST {
        let mut texts = Vec::new(rt.alloc());
        for lexicon in *lexicons {
            texts.push(lexicon.as_bytes())?;
        }
        let wanted = wanted.map(|(bytes, lexicon, line)| Surface {
            bytes,
            lexicon,
            line,
        });
        assert!(rt; longest_surface(rt.alloc(), &texts) == Ok(wanted), "{what}");
    }
    Ok(())
}

#[rattlefmt::skip]
static REPEATED: [(&str, &[&str], Option<Repeated<'static>>); 6] = [
    // (what, sorted surfaces, the one with the most entries)
    ("none",             &[],                        None),
    ("one",              &["も"],                    Some(Repeated { surface: "も", entries: 1 })),
    ("the first",        &["a", "a", "b"],           Some(Repeated { surface: "a", entries: 2 })),
    ("the last",         &["a", "ab", "ab"],         Some(Repeated { surface: "ab", entries: 2 })),
    ("the first of two", &["", "", "a", "b", "b"],   Some(Repeated { surface: "", entries: 2 })),
    ("in the middle",    &["a", "b", "b", "b", "c"], Some(Repeated { surface: "b", entries: 3 })),
];

#[test]
fn repeated_surfaces(rt: HostRuntime) {
    for (what, surfaces, most) in &REPEATED {
        assert!(rt; most_repeated(surfaces) == *most, "{what}");
    }
}
