//! Splitting a text after its first byte.

ghost use Rattle.std.specs.Prelude.{◌≡◌, [], ◌∷◌, MatchOption};

/// Returns the first byte of `text` and the remainder, or `None` if `text` is empty.
pub fn first_byte(text: &[u8]) -> Option<(u8, &[u8])>
    ensures { MatchOption result (text.now ≡ []) (λ parts. text.now ≡ parts.0 ∷ parts.1.now) }
{
    let (byte, rest) = text.split_first()?;
    Some((*byte, rest))
}
