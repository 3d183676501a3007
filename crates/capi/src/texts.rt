//! The texts of error codes.

ghost use Rattle.std.specs.Prelude.{◌≡◌};
ghost use Rattle.capi.specs.Codes.{call_code};
ghost use Rattle.capi.specs.Texts.{fault_text, text_at};
ghost use Rattle.capi.specs.declared.fault.CallFault.{CallFault as FaultOf};

/// Each error's code has its text: letter, number and name.
pub fn texts_of_faults()
    ensures { (fault : FaultOf) → text_at (call_code fault) ≡ fault_text fault }
{}

/// Returns letter, number and name of the error with this code, or an empty text if no error has
/// it.
pub fn text_of_code(code: u32) -> &'static str
    ensures { result.now ≡ text_at code }
{
    match code {
        0x0001 => "Memory",
        0x4c01 => "L1 Truncated",
        0x4c02 => "L2 BadMagic",
        0x4c03 => "L3 BadLayout",
        0x4c04 => "L4 BadSection",
        0x4c05 => "L5 BadKey",
        0x4c06 => "L6 BadToken",
        0x4c07 => "L7 BadText",
        0x4c08 => "L8 Digest",
        0x4f01 => "O1 NotSystem",
        0x4f02 => "O2 NotUser",
        0x4f03 => "O3 OtherSizes",
        0x5001 => "P1 BadEscape",
        0x5002 => "P2 BadItem",
        0x5003 => "P3 BadIndex",
        0x4703 => "G3 NotUtf8",
        0x4704 => "G4 TooLong",
        0x4b01 => "K1 LineFeed",
        0x4b02 => "K2 NothingSegmented",
        0x4b03 => "K3 Shared",
        0x4b04 => "K4 BadGrouping",
        0x4b05 => "K5 EmptySegmenter",
        0x4b06 => "K6 FullSegmenter",
        0x4b07 => "K7 ShortBuffer",
        0x4b08 => "K8 NoWord",
        _ => "",
    }
}
