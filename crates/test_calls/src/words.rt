//! Words of a command with two options and one name, and numbers.
use crate::same::same_for;
use cmd_line::{Read, Shape, number_within, read_words};
use std::alloc::{AllocError, Global};
use std::test::Fail;

const RUN: Shape<'static> = Shape {
    options: &["budget", "trace"],
    fewest: 1,
    most: 1,
};

const BARE: Shape<'static> = Shape {
    options: &[],
    fewest: 1,
    most: 1,
};

fn words(alloc: Global, texts: &[&str]) -> Result<Vec<String>, AllocError> {
    let mut all = Vec::new(alloc);
    for text in texts {
        all.push(String::from_str(alloc, text)?)?;
    }
    Ok(all)
}

/// The value of each option behind a `=`, or a `-`, and then each name behind a `/`.
fn read_text(alloc: Global, read: &Read) -> Result<String, AllocError> {
    let mut text = String::new(alloc);
    for value in read.values.iter() {
        match value {
            Some(value) => {
                text.push('=')?;
                text.push_str(value)?;
            }
            None => text.push('-')?,
        }
    }
    for name in read.names.iter() {
        text.push('/')?;
        text.push_str(name)?;
    }
    Ok(text)
}

/// What words say that were read.
fn told(alloc: Global, read: Option<Read>) -> Result<String, AllocError> {
    match read {
        Some(read) => read_text(alloc, &read),
        None => String::from_str(alloc, "refused"),
    }
}

/// What these words say of the first shape, and of the second one.
fn of_run(alloc: Global, texts: &[&str]) -> Result<String, Fail> {
    let given = words(alloc, texts)?;
    Ok(told(alloc, read_words(alloc, &RUN, &given)?)?)
}

fn of_bare(alloc: Global, texts: &[&str]) -> Result<String, Fail> {
    let given = words(alloc, texts)?;
    Ok(told(alloc, read_words(alloc, &BARE, &given)?)?)
}

// Options before and after the name, and what is refused.
static OF_RUN: [(&[&str], &str); 11] = [
    (&["--budget=12", "row1"], "=12-/row1"),
    (&["row1", "--budget", "+12"], "=+12-/row1"),
    (&["--", "row1"], "--/row1"),
    (&["--budget=", "--", "row1"], "=-/row1"),
    (&[], "refused"),
    (&["--budget"], "refused"),
    (&["row1", "--budget", "--"], "refused"),
    (&["row1", "--budget=1", "--budget", "2"], "refused"),
    (&["row1", "--steps=1"], "refused"),
    (&["row1", "-x"], "refused"),
    (&["row1", "row2"], "refused"),
];

#[test]
fn options_stand_before_or_after_names(rt: HostRuntime) -> Result<(), Fail> {
    for (texts, wanted) in OF_RUN.iter() {
        same_for(&rt, texts, &of_run(rt.alloc(), texts)?.as_str(), wanted);
    }
    Ok(())
}

static NAMES: [(&[&str], &str); 3] = [(&["-"], "/-"), (&[""], "/"), (&["--", "-x"], "/-x")];

#[test]
fn one_dash_the_empty_word_and_all_after_two_dashes_are_names(rt: HostRuntime) -> Result<(), Fail> {
    for (texts, wanted) in NAMES.iter() {
        same_for(&rt, texts, &of_bare(rt.alloc(), texts)?.as_str(), wanted);
    }
    Ok(())
}

static NUMBERS: [(&str, Option<u32>); 9] = [
    ("12", Some(12)),
    ("+0012", Some(12)),
    ("13", None),
    ("", None),
    ("+", None),
    ("++1", None),
    ("-1", None),
    ("1 ", None),
    ("4294967296", None),
];

#[test]
fn numbers_are_digits_with_at_most_one_plus(rt: HostRuntime) {
    for (text, number) in NUMBERS.iter() {
        same_for(&rt, text, &number_within(text, 0, 12), number);
    }
}
