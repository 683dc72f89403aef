//! What a call of the program asks for.
ghost use Rattle.std.specs.Prelude.{◌≡◌, map, string_bytes};
ghost use Rattle.mx_serve.specs.Serving.{command_in};

use lab_request::WorkbenchCommand;

/// The command that the first argument names.
pub fn command_of(words: &[String]) -> Option<WorkbenchCommand>
    ensures { result ≡ command_in (map string_bytes words.now) }
{
    match words.first() {
        Some(word) => WorkbenchCommand::named(word.as_str()),
        None => None,
    }
}
