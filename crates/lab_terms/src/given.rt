//! What a source is given.
ghost use Rattle.std.specs.Prelude.{◌≡◌};
ghost use Rattle.std.specs.Option.{option_copied};
ghost use Rattle.mx_source.specs.Meaning.{given};

use mx_source::Source;

/// The input that a source is given, if it has one.
pub fn given_to<'a>(source: &Source, bytes: &'a [u8]) -> Option<&'a [u8]>
    ensures { option_copied result ≡ given source.now.input bytes.entry.now }
{
    match source.input() {
        Some(_) => Some(bytes),
        None => None,
    }
}
