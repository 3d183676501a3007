//! Dictionaries that are compiled and loaded again after an allocation failure.
//!
//! Allocations fail under `tests/out_of_memory/run.py`, which expects the line `refused` on
//! standard error.

use crate::again;
use dict_compile::compile;
use dict_image::{Dict, load};
use mj_model::{Sources, sample};
use std::alloc::{Alloc, Global};
use std::io::Eprint;
use std::test::Fail;

/// Returns the image compiled from `sources`, with one retry.
fn image_again(
    rt: &(impl Alloc<A = Global> + Eprint),
    sources: &Sources<'_>,
) -> Result<Vec<u8>, Fail> {
    let compiled = again!(rt, Err(_), compile(rt.alloc(), sources))?;
    Ok(compiled.image)
}

/// Returns the dictionary of the sample's sources with `lexicons`, with one retry.
pub fn dict_again(
    rt: &(impl Alloc<A = Global> + Eprint),
    lexicons: &[&[u8]],
) -> Result<Dict, Fail> {
    let sources = Sources {
        lexicons,
        ..sample()
    };
    match load(rt.alloc(), image_again(rt, &sources)?) {
        Ok(dict) => Ok(dict),
        Err(_error) => {
            rt.eprintln("refused")?;
            Ok(load(rt.alloc(), image_again(rt, &sources)?)?)
        }
    }
}

/// Returns the dictionary of the words `a`, `b` and `ab`, with one retry.
pub fn letters_again(rt: &(impl Alloc<A = Global> + Eprint)) -> Result<Dict, Fail> {
    dict_again(rt, &["a,1,1,10,X\nb,1,1,10,X\nab,1,1,27,X\n".as_bytes()])
}
