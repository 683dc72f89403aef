//! The pieces of a line.
ghost use Rattle.std.specs.Prelude.{◌≡◌, ◌<◌, ◌∷◌, [], length, IfSome, IfNone};
ghost use Rattle.std.specs.List.{position};
ghost use Rattle.mx_plans.specs.Files.{pieces_in, is_gap};

/// The place of the first gap.
fn gap(line: &[u8]) -> Option<usize>
    ensures { result ≡ position is_gap line.now }
{
    line.iter()
        .position(|b| *b == b' ' || *b == b'\t' || *b == b'\r')
}

/// The bytes before the first gap, and those behind it, if there is one.
pub fn first_piece(line: &[u8]) -> (&[u8], Option<&[u8]>)
    ensures last { IfNone result.1 (pieces_in line.now ≡ result.0.now ∷ []) }
    ensures more { IfSome result.1 (λ rest. pieces_in line.now ≡ result.0.now ∷ pieces_in rest.now) }
    ensures shorter { IfSome result.1 (λ rest. length rest.now < length line.now) }
{
    match gap(line) {
        Some(at) => (&line[..at], Some(&line[at + 1..])),
        None => (line, None),
    }
}
