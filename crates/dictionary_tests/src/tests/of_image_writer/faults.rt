//! The codes and names of the errors that `image_writer` returns.
use mj_model::NamedFault;
use mj_model::SourceKind::{self, ArrayFull, FeaturesTooLarge, Memory};

/// Errors with their codes and names.
#[rattlefmt::skip]
static FAULTS: [(SourceKind, &str, &str); 3] = [
    // (error, code, name)
    (ArrayFull,        "I2",     "ArrayFull"),
    (FeaturesTooLarge, "I3",     "FeaturesTooLarge"),
    (Memory,           "Memory", "Memory"),
];

#[test]
fn codes_and_names(rt: HostRuntime) {
    for (fault, code, name) in &FAULTS {
        assert!(rt; fault.code() == *code && fault.name() == *name, "{name}");
    }
}
