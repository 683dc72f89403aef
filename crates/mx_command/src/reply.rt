//! The reply of each command, before anything is put out.
ghost use Rattle.std.specs.Prelude.{◌≡◌, ◌≤◌, ◌⊎◌, IfOk, OnOk, List, ℕ, Some, None, map, string_bytes};
ghost use Rattle.mx_command.specs.Terms.{printed, generated, soak_text, prints, usage, Performed, reply_answer, seen_command, IsAllowed, command_of};
ghost use Rattle.mx_command.specs.Terms.{IsScheduler, Layouts, protocol_of, IsReplied, IsWithin, Performs, Counts, OnAnswer};

use crate::debug::debug_reply;
use crate::from_image::{exec_reply, migrate_reply};
use crate::from_source::{best_reply, build_reply, list_reply, run_reply, told_reply};
use crate::join::join_reply;
use crate::share::share_reply;
use cmd_answer::{Failure, Reply, Status, line_reply, replied};
use cmd_soak::soak;
use cmd_table::{Command, read_command};
use mx_gen::generate;
use mx_io::{Memory, Shelf};
use std::alloc::Global;

/// The reply to `gen SEED COUNT`.
fn gen_reply(alloc: Global, seed: u32, count: u32) -> Result<Reply, Failure>
    requires { count ≤ 4000 }
    ensures { OnAnswer result (λ answer. answer ≡ prints Status.Done (printed (generated seed count))) }
{
    let source = generate(alloc, seed, count)?;
    let output = source.print(alloc)?;
    let status = Status::Done;
    Ok(Reply::Prints { status, output })
}

/// The reply to `soak SEED COUNT`.
fn soak_reply(alloc: Global, seed: u32, count: u32) -> Result<Reply, Failure>
    requires { count ≤ 4000 }
    ensures { (layout_of : Layouts) → IsScheduler layout_of
        → OnAnswer result (λ answer. answer ≡ prints Status.Done (soak_text layout_of seed count)) }
{
    let output = soak(alloc, seed, count)?;
    let status = Status::Done;
    Ok(Reply::Prints { status, output })
}

/// The reply to a command.
fn command_reply<S: Shelf>(alloc: Global, shelf: &mut S, asked: &Command) -> Result<Reply, Failure>
    requires { IsAllowed asked.now }
    ensures performed { Performs (λ layout_of. protocol_of layout_of (Some (seen_command asked.now)))
        result (S.told shelf.old) (S.counts shelf.old) (S.counts shelf.new) }
    ensures told_stays { S.told shelf.new ≡ S.told shelf.old }
    ensures writes_stay { S.write_faults shelf.new ≡ S.write_faults shelf.old }
{
    match *asked {
        Command::Run {
            source,
            ref files,
            ref limits,
        } => run_reply(alloc, shelf, source, files, limits),
        Command::Meaning {
            source,
            steps,
            input,
        } => told_reply(alloc, shelf, source, steps, input),
        Command::Build { source, target } => build_reply(alloc, shelf, source, target),
        Command::Exec {
            image,
            ref files,
            ref limits,
        } => exec_reply(alloc, shelf, image, files, limits),
        Command::Listing { source } => list_reply(alloc, shelf, source),
        Command::Best { source } => best_reply(alloc, shelf, source),
        Command::Gen { seed, count } => gen_reply(alloc, seed, count),
        Command::Soak { seed, count } => soak_reply(alloc, seed, count),
        Command::Migrate { image, target } => migrate_reply(alloc, shelf, image, target),
        Command::Share {
            first,
            second,
            interrupts,
            budget,
        } => share_reply(alloc, shelf, first, second, interrupts, budget),
        Command::Debug {
            source,
            label,
            ref files,
            ref limits,
        } => debug_reply(alloc, shelf, source, label, files, limits),
        Command::Join { ref names } => join_reply(alloc, shelf, names.as_slice()),
    }
}

/// The reply to words.
pub fn reply_to<S: Shelf>(alloc: Global, words: &[String], shelf: &mut S) -> Result<Reply, Memory>
    ensures performed { (layout_of : Layouts) → IsScheduler layout_of → IfOk result (λ r. Performed (S.told shelf.old)
        (protocol_of layout_of (command_of (map string_bytes words.now)))
        (S.counts shelf.old) (S.counts shelf.new) (reply_answer r)) }
    ensures replied { IfOk result (λ r. IsReplied (reply_answer r) ⊎ (command_of (map string_bytes words.now) ≡ None)) }
    ensures asks_nothing { command_of (map string_bytes words.now) ≡ None → IfOk result (λ r. reply_answer r ≡ usage) }
    ensures within { OnOk result (IsWithin (command_of (map string_bytes words.now))) }
    ensures told_stays { S.told shelf.new ≡ S.told shelf.old }
    ensures writes_stay { S.write_faults shelf.new ≡ S.write_faults shelf.old }
{
    match read_command(alloc, words)? {
        Some(asked) => replied(command_reply(alloc, shelf, &asked)),
        None => {
            let reply = line_reply(alloc, Status::Usage, "usage: mx_run COMMAND WORDS")?;
            Ok(reply)
        }
    }
}
