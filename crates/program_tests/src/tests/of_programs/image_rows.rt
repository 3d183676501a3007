//! Rows of a list of images.

use programs::image_row;
use std::test::Fail;

#[rattlefmt::skip]
static ROWS_OF_IMAGES: [(&str, u64, &str, &str, &str); 3] = [
    // (name, bytes, entries or error, path, row)
    ("ipadic", 52_998_233, "392126", "/v/ipadic.img", "ipadic\t52998233\t392126\t/v/ipadic.img\n"),
    ("bad", 0, "L1 Truncated", "/v/bad.img", "bad\t0\tL1 Truncated\t/v/bad.img\n"),
    ("も é", u64::MAX, "0", "", "も é\t18446744073709551615\t0\t\n"),
];

#[test]
fn rows_of_images(rt: HostRuntime) -> Result<(), Fail> {
    for (name, bytes, entries, path, wanted) in &ROWS_OF_IMAGES {
        let row = image_row(rt.alloc(), name, *bytes, entries, path)?;
        assert!(rt; row.as_str() == *wanted, "{wanted}");
    }
    Ok(())
}
