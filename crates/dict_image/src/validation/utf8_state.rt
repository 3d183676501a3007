//! A decoder state for UTF-8.
ghost use Rattle.dict_image.specs.Validation.Utf8States.{Accepts, IsAfter, ByteThen};
ghost use Rattle.dict_image.specs.declared.validation.utf8_state.Utf8State.TheVariants.{Between};
ghost use Rattle.std.specs.Prelude.{◌↔◌, ℕ, List, ◌∷◌};

/// The state of a UTF-8 decoder: between characters, or inside one. (RFC 3629, section 4)
#[derive(Clone, Copy)]
pub(crate) enum Utf8State {
    /// Between characters.
    Between,
    /// One tail byte, 80 to BF, must follow.
    OneTail,
    /// Two tail bytes must follow.
    TwoTails,
    /// Three tail bytes must follow.
    ThreeTails,
    /// After E0: A0 to BF and a tail byte must follow.
    AfterE0,
    /// After ED: 80 to 9F and a tail byte must follow, because surrogates are not characters.
    AfterEd,
    /// After F0: 90 to BF and two tail bytes must follow.
    AfterF0,
    /// After F4: 80 to 8F and two tail bytes must follow, up to U+10FFFF.
    AfterF4,
    /// The bytes are not a prefix of any UTF-8 text.
    Broken,
}

impl Utf8State {
    /// Returns the state after one more byte.
    pub(crate) fn after(self, byte: u8) -> Utf8State
        ensures { IsAfter self byte result }
    {
        match self {
            Utf8State::Between => after_lead_byte(byte),
            Utf8State::OneTail => after_tail(byte, 0x80, 0xBF, Utf8State::Between),
            Utf8State::TwoTails => after_tail(byte, 0x80, 0xBF, Utf8State::OneTail),
            Utf8State::ThreeTails => after_tail(byte, 0x80, 0xBF, Utf8State::TwoTails),
            Utf8State::AfterE0 => after_tail(byte, 0xA0, 0xBF, Utf8State::OneTail),
            Utf8State::AfterEd => after_tail(byte, 0x80, 0x9F, Utf8State::OneTail),
            Utf8State::AfterF0 => after_tail(byte, 0x90, 0xBF, Utf8State::TwoTails),
            Utf8State::AfterF4 => after_tail(byte, 0x80, 0x8F, Utf8State::TwoTails),
            Utf8State::Broken => Utf8State::Broken,
        }
    }
}

/// Returns the state after the first byte of a character.
fn after_lead_byte(byte: u8) -> Utf8State
    ensures { IsAfter Between byte result }
{
    match byte {
        0x00..=0x7F => Utf8State::Between,
        0x80..=0xC1 => Utf8State::Broken,
        0xC2..=0xDF => Utf8State::OneTail,
        0xE0 => Utf8State::AfterE0,
        0xE1..=0xEC => Utf8State::TwoTails,
        0xED => Utf8State::AfterEd,
        0xEE..=0xEF => Utf8State::TwoTails,
        0xF0 => Utf8State::AfterF0,
        0xF1..=0xF3 => Utf8State::ThreeTails,
        0xF4 => Utf8State::AfterF4,
        0xF5..=0xFF => Utf8State::Broken,
    }
}

/// Returns `next` if `byte` is from `least` to `most`, otherwise `Broken`.
fn after_tail(byte: u8, least: u8, most: u8, next: Utf8State) -> Utf8State
    ensures { (more : List ℕ)
        → ByteThen least most (Accepts next) (byte ∷ more) ↔ Accepts result more }
{
    if least <= byte && byte <= most {
        next
    } else {
        Utf8State::Broken
    }
}
