//! What is told of a run.
ghost use Rattle.std.specs.Prelude.{◌≡◌, ◌++◌, codes, OnOk, IfOk};
ghost use Rattle.mx_text.specs.Text.{count_line};
ghost use Rattle.mx_code.specs.NoOps.{noops_in};
ghost use Rattle.mx_report.specs.Report.{words_text};
ghost use Rattle.cmd_soak.specs.Soak.{soaked_text};

use mx_io::Memory;
use mx_link::Linked;
use mx_report::{Driven, push_counts};
use mx_text::push_count;
use std::alloc::{AllocError, Global};

// Appends the counts of the code words.
fn push_words(alloc: Global, text: &mut Vec<u8>, linked: &Linked) -> Result<(), AllocError>
    requires { linked.now.noops ≡ noops_in linked.now.image.code.items }
    ensures { OnOk result (text.new.items ≡ text.old.items ++ words_text linked.now.image.code.items) }
{
    push_count(alloc, text, "words", linked.image.code.len() as u64)?;
    push_count(alloc, text, "noops", u64::from(linked.noops))
}

// Appends all.
#[tactic(auto, unfolding(crate::specs::Soak::soaked_text))]
fn push_all(
    alloc: Global,
    text: &mut Vec<u8>,
    steps: u32,
    driven: &Driven,
    linked: &Linked,
) -> Result<(), AllocError>
    requires { linked.now.noops ≡ noops_in linked.now.image.code.items }
    ensures { OnOk result (text.new.items ≡ text.old.items ++ soaked_text steps driven.now.counts driven.now.console.items linked.now.image.code.items) }
{
    push_count(alloc, text, "steps", u64::from(steps))?;
    push_counts(alloc, text, &driven.counts)?;
    push_words(alloc, text, linked)?;
    push_count(alloc, text, "bytes", driven.console.len() as u64)
}

/// The text of a run.
pub(crate) fn text_of(
    alloc: Global,
    steps: u32,
    driven: &Driven,
    linked: &Linked,
) -> Result<Vec<u8>, Memory>
    requires { linked.now.noops ≡ noops_in linked.now.image.code.items }
    ensures { IfOk result (λ text. text.items ≡ soaked_text steps driven.now.counts driven.now.console.items linked.now.image.code.items) }
{
    let mut text = Vec::new(alloc);
    match push_all(alloc, &mut text, steps, driven, linked) {
        Ok(()) => Ok(text),
        Err(_) => Err(Memory),
    }
}
