//! The words of the command.
ghost use Rattle.std.specs.Prelude.{◌≢◌, [], IfOk, IfSome};

use std::alloc::{AllocError, Global};

/// What the words ask for: the files that are read, in order, and the one that is written, if it is not standard output.
#[derive(Drop)]
pub(crate) struct Asked<'a> {
    pub files: Vec<&'a str>,
    pub target: Option<&'a str>,
}

/// What the words ask for, or nothing where they ask for no translation.
pub(crate) fn asked_by(alloc: Global, words: &[String]) -> Result<Option<Asked<'_>>, AllocError>
    ensures files { IfOk result (λ r. IfSome r (λ asked. asked.files.items ≢ [])) }
{
    let mut files = Vec::new(alloc);
    let mut target = None;
    let mut names_target = false;
    for word in words {
        let word = word.as_str();
        if names_target {
            target = Some(word);
            names_target = false;
        } else if word == "-o" {
            names_target = true;
        } else if word.as_bytes().first() == Some(&b'-') {
            return Ok(None);
        } else {
            files.push(word)?;
        }
    }
    if names_target || files.is_empty() {
        return Ok(None);
    }
    Ok(Some(Asked { files, target }))
}
