//! The words of the command.
ghost use Rattle.std.specs.Prelude.{◌≢◌, [], IfOk, IfSome};

use std::alloc::{AllocError, Global};

/// How many items are executed at most, where the words do not say so.
const STEPS: u64 = 1_000_000_000;

/// What the words ask for: the files that are read, in order, the input, if it is not empty, and how many items are executed at
/// most.
#[derive(Drop)]
pub(crate) struct Asked<'a> {
    pub files: Vec<&'a str>,
    pub input: Option<&'a str>,
    pub steps: u64,
}

/// An option whose value is the next word.
#[derive(Clone, Copy)]
enum Expected {
    Nothing,
    Input,
    Steps,
}

/// The option that a word names, if it names none that there is.
fn expected_behind(word: &str) -> Option<Expected> {
    match word.as_bytes() {
        b"--input" => Some(Expected::Input),
        b"--steps" => Some(Expected::Steps),
        [b'-', ..] => None,
        _ => Some(Expected::Nothing),
    }
}

impl<'a> Asked<'a> {
    /// Takes a word that follows what is expected. Answers what is expected of the next one, if this one is good.
    fn take(&mut self, expected: Expected, word: &'a str) -> Result<Option<Expected>, AllocError> {
        match expected {
            Expected::Input => {
                self.input = Some(word);
                Ok(Some(Expected::Nothing))
            }
            Expected::Steps => match word.parse::<u64>() {
                Ok(steps) => {
                    self.steps = steps;
                    Ok(Some(Expected::Nothing))
                }
                Err(_) => Ok(None),
            },
            Expected::Nothing => self.take_first(word),
        }
    }

    /// Takes a word that is a file or an option.
    fn take_first(&mut self, word: &'a str) -> Result<Option<Expected>, AllocError> {
        let next = expected_behind(word);
        if let Some(Expected::Nothing) = next {
            self.files.push(word)?;
        }
        Ok(next)
    }
}

/// What the words ask for, or nothing where they ask for no run.
pub(crate) fn asked_by(alloc: Global, words: &[String]) -> Result<Option<Asked<'_>>, AllocError>
    ensures files { IfOk result (λ r. IfSome r (λ asked. asked.files.items ≢ [])) }
{
    let mut asked = Asked {
        files: Vec::new(alloc),
        input: None,
        steps: STEPS,
    };
    let mut expected = Expected::Nothing;
    for word in words {
        match asked.take(expected, word.as_str())? {
            Some(next) => expected = next,
            None => return Ok(None),
        }
    }
    match expected {
        Expected::Nothing if !asked.files.is_empty() => Ok(Some(asked)),
        _ => Ok(None),
    }
}
