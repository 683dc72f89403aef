//! The top call.
ghost use Rattle.std.specs.Prelude.{◌≡◌, ◌≢◌, ℕ, List, IfOk, MatchOption};
ghost use Rattle.cmd_answer.specs.declared.status.Status.TheVariants.{Done, Refused};
ghost use Rattle.cmd_answer.specs.Answer.{Answer, prints, writes};
ghost use Rattle.cmd_answer.specs.Delivery.{HasStatus, Delivered};
ghost use Rattle.cmd_answer.specs.Replies.{reply_answer, IfAnswered, OnAnswer};
ghost use Rattle.cc_command.specs.Translated.{HandsOut, IsTranslated};
ghost use Rattle.cc_fits.specs.Translations.{IsTranslation};

use crate::message::message;
use crate::words::{Asked, asked_by};
use cc_translate::translate;
use cmd_answer::{Failure, FileKind, Reply, Status, finish, line_reply, read_file, replied};
use mx_io::{Memory, Shelf, Sink};
use std::alloc::{AllocError, Global};

/// What is said where the words ask for nothing that there is.
const USAGE: &str = "usage: mx_cc FILE.s .. [-o OUT.s]";

/// The texts of files, or the reply to the first that is not read.
fn texts_of<S: Shelf>(alloc: Global, shelf: &mut S, names: &[&str]) -> Result<Vec<Vec<u8>>, Failure>
    ensures told_stays { S.told shelf.new ≡ S.told shelf.old }
    ensures fault { IfAnswered result HasStatus }
    ensures untranslated { IfAnswered result IsTranslated }
{
    let mut texts = Vec::new(alloc);
    let mut number = 0u32;
    for name in names {
        number = number.saturating_add(1);
        let text = read_file(alloc, shelf, FileKind::Module(number), *name)?;
        if texts.push(text).is_err() {
            return Err(Failure::Memory);
        }
    }
    Ok(texts)
}

/// The texts as slices.
fn slices_of(alloc: Global, texts: &[Vec<u8>]) -> Result<Vec<&[u8]>, AllocError> {
    let mut slices = Vec::new(alloc);
    for text in texts {
        slices.push(text.as_slice())?;
    }
    Ok(slices)
}

/// The reply that hands out a source: to a file, or to standard output.
fn source_reply(alloc: Global, target: Option<&str>, output: Vec<u8>) -> Result<Reply, Failure>
    ensures source { IfOk result (λ r. MatchOption target.entry
        (reply_answer r ≡ prints Done output.items)
        (λ name. reply_answer r ≡ writes name.now output.items)) }
    ensures status { OnAnswer result HasStatus }
    ensures translated { IsTranslation output.items → OnAnswer result IsTranslated }
{
    match target {
        Some(name) => Ok(Reply::Writes {
            name: String::from_str(alloc, name)?,
            bytes: output,
        }),
        None => Ok(Reply::Prints {
            status: Status::Done,
            output,
        }),
    }
}

/// The reply to texts that are not translated.
fn refused_reply(output: Result<Vec<u8>, AllocError>) -> Result<Reply, Failure>
    ensures line { IfOk result (λ r. IfOk output (λ v. reply_answer r ≡ prints Refused v.items)) }
    ensures status { OnAnswer result HasStatus }
    ensures translated { OnAnswer result IsTranslated }
{
    Ok(Reply::Prints {
        status: Status::Refused,
        output: output?,
    })
}

/// The reply to the texts of these files.
fn texts_reply(alloc: Global, asked: &Asked, texts: &[Vec<u8>]) -> Result<Reply, Failure>
    ensures status { OnAnswer result HasStatus }
    ensures translated { OnAnswer result IsTranslated }
{
    let slices = slices_of(alloc, texts)?;
    match translate(alloc, &slices) {
        Ok(output) => source_reply(alloc, asked.target, output),
        Err(error) => refused_reply(message(alloc, &asked.files, &slices, &error)),
    }
}

/// The reply to what is asked for.
fn asked_reply<S: Shelf>(alloc: Global, shelf: &mut S, asked: &Asked) -> Result<Reply, Failure>
    ensures told_stays { S.told shelf.new ≡ S.told shelf.old }
    ensures status { OnAnswer result HasStatus }
    ensures translated { OnAnswer result IsTranslated }
{
    let texts = texts_of(alloc, shelf, &asked.files)?;
    texts_reply(alloc, asked, &texts)
}

/// The reply to the words.
fn reply_to<S: Shelf>(alloc: Global, words: &[String], shelf: &mut S) -> Result<Reply, Memory>
    ensures told_stays { S.told shelf.new ≡ S.told shelf.old }
    ensures status { IfOk result (λ r. HasStatus (reply_answer r)) }
    ensures translated { IfOk result (λ r. IsTranslated (reply_answer r)) }
{
    let Ok(asked) = asked_by(alloc, words) else {
        return Err(Memory);
    };
    match asked {
        Some(asked) => replied(asked_reply(alloc, shelf, &asked)),
        None => line_reply(alloc, Status::Usage, USAGE),
    }
}

/// Translates the files that the words name, those after the program's name, to the file behind `-o` or to standard output,
/// and answers how it ended. If it is done, what is printed or written is a translation, whose lines and data fit the language; otherwise no
/// file is written.
pub fn cc<S: Shelf, W: Sink>(alloc: Global, words: &[String], shelf: &mut S, out: &mut W) -> Status
    ensures unwritten { result ≢ Status.Done → (S.told shelf.new).wrote ≡ (S.told shelf.old).wrote }
    ensures translated { result ≡ Status.Done → (text : List ℕ) × IsTranslation text × (answer : Answer) × HandsOut text answer
        × Delivered answer result (S.told shelf.old) (S.told shelf.new) (W.written out.old) (W.written out.new) }
{
    let Ok(reply) = reply_to(alloc, words, shelf) else {
        return Status::Memory;
    };
    finish(reply, shelf, out)
}
