//! The lines of a text.
ghost use Rattle.std.specs.Prelude.{◌≡◌, ◌<◌, ◌∷◌, [], ◌==◌, length, IfSome, IfNone};
ghost use Rattle.std.specs.List.{position, slice_split};

// The place of the first line feed.
fn line_feed(text: &[u8]) -> Option<usize>
    ensures { result ≡ position (λ b. b == 10) text.now }
{
    text.iter().position(|b| *b == b'\n')
}

/// The bytes before the first line feed, and those behind it, if there is one.
pub fn split_line(text: &[u8]) -> (&[u8], Option<&[u8]>)
    ensures last { IfNone result.1 (slice_split (λ b. b == 10) text.now ≡ result.0.now ∷ []) }
    ensures more { IfSome result.1 (λ rest. slice_split (λ b. b == 10) text.now ≡ result.0.now ∷ slice_split (λ b. b == 10) rest.now) }
    ensures shorter { IfSome result.1 (λ rest. length rest.now < length text.now) }
{
    match line_feed(text) {
        Some(at) => (&text[..at], Some(&text[at + 1..])),
        None => (text, None),
    }
}
