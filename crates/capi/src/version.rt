//! The version of the library.

ghost use Rattle.std.specs.Prelude.{◌≡◌};

/// Version 0.1.0 as a number: 10,000 times the first number, plus 100 times the second, plus the
/// third.
pub const VERSION_NUMBER: u32 = 100;

/// Returns the version of the running library, which may differ from the header's.
#[unsafe(no_mangle)]
pub extern "C" fn kumquatsieve_version() -> u32
    ensures { result ≡ 100 }
{
    VERSION_NUMBER
}
