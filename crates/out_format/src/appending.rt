//! Appends bytes, numbers and fields to an output. On an error a part of them may remain there.

ghost use Rattle.std.specs.Prelude.{◌≡◌, ◌++◌, take, vec_len, OnOk};
ghost use Rattle.std.specs.Fmt.{decimal, signed_decimal};
ghost use Rattle.out_format.specs.Results.{GrowsByField};

use itoa::Buffer;
use lex_source::FieldCache;
use std::alloc::AllocError;

/// Appends `bytes` unchanged.
pub fn append_bytes(bytes: &[u8], out: &mut Vec<u8>) -> Result<(), AllocError>
    ensures appended { OnOk result (out.new.items ≡ out.old.items ++ bytes.now) }
    ensures unchanged { take (vec_len out.old) out.new.items ≡ out.old.items }
{
    out.extend_from_slice(bytes)
}

/// Appends `run`, the bytes between two items of a format. Most runs are one byte, a blank or a
/// tab, which is pushed without a call of a copy.
pub fn append_run(run: &[u8], out: &mut Vec<u8>) -> Result<(), AllocError>
    ensures appended { OnOk result (out.new.items ≡ out.old.items ++ run.now) }
    ensures unchanged { take (vec_len out.old) out.new.items ≡ out.old.items }
{
    if run.len() == 1 {
        out.push(run[0])?;
        Ok(())
    } else {
        append_bytes(run, out)
    }
}

/// Appends `count` in decimal: a number of bytes, an offset, an id or the number of a category.
pub fn append_count(count: usize, out: &mut Vec<u8>) -> Result<(), AllocError>
    ensures appended { OnOk result (out.new.items ≡ out.old.items ++ decimal count) }
    ensures unchanged { take (vec_len out.old) out.new.items ≡ out.old.items }
{
    append_bytes(Buffer::new().format(count).as_bytes(), out)
}

/// Appends `cost` in decimal, with a minus sign if it is negative.
pub fn append_cost(cost: i64, out: &mut Vec<u8>) -> Result<(), AllocError>
    ensures appended { OnOk result (out.new.items ≡ out.old.items ++ signed_decimal cost) }
    ensures unchanged { take (vec_len out.old) out.new.items ≡ out.old.items }
{
    append_bytes(Buffer::new().format(cost).as_bytes(), out)
}

/// Appends field `n` of `feature`, counted from 0. Appends nothing if the field is missing or
/// starts with `*`.
pub fn append_printed_field(
    feature: &FieldCache<'_>,
    n: u16,
    out: &mut Vec<u8>,
) -> Result<(), AllocError>
    ensures appended { OnOk result (GrowsByField feature.now n out.old.items out.new.items) }
    ensures unchanged { take (vec_len out.old) out.new.items ≡ out.old.items }
{
    let count = out.len();
    let _found = feature.append_to(usize::from(n), out)?;
    if out.len() > count && out[count] == b'*' {
        out.truncate(count);
    }
    Ok(())
}
