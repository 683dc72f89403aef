//! Steps of the sequential meaning.
ghost use Rattle.std.specs.Prelude.{◌≡◌, ◌≤◌, ◌++◌, ◌+◌, ◌≢◌, ℕ, List, OnOk, IfOk, IfSome};
ghost use Rattle.std.specs.Option.{option_to_list};
ghost use Rattle.mx_source.specs.Meaning.{Program, State, Mark, Going, Halted, Stuck, Run, step, run_step, run_for};
ghost use Rattle.mx_seq.specs.Seqs.{program_of, state_of};
ghost use Rattle.cmd_meaning.specs.Told.{went, steps_in};
ghost use Rattle.cmd_meaning.specs.Endings.{mark_of, mark_after};

use mx_seq::{Seq, Stepped};
use mx_source::Why;
use mx_text::push_byte;
use std::alloc::AllocError;

/// How a run stands after its steps.
#[derive(Clone, Copy, Debug, PartialEq, Eq)]
pub enum Ending {
    Running,
    Halted,
    Stuck(Why),
}

/// How a run went: the steps that went or halted, and how it stands.
#[derive(Clone, Copy, Debug, PartialEq, Eq)]
pub struct Progress {
    pub steps: u32,
    pub ending: Ending,
}

// One step of a program that goes on, and how it ended, if it did.
fn take_step(seq: &mut Seq, console: &mut Vec<u8>) -> Result<Option<Ending>, AllocError>
    requires { (state_of seq.old).mark ≡ Going }
    ensures run { OnOk result (record { state = state_of seq.new; console = console.new.items }
        ≡ run_step (program_of seq.old) (record { state = state_of seq.old; console = console.old.items })) }
    ensures program { program_of seq.new ≡ program_of seq.old }
    ensures mark { IfOk result (λ ending. (state_of seq.new).mark ≡ mark_after ending) }
    ensures ended { IfOk result (λ ending. IfSome ending (λ e. mark_of e ≢ Going)) }
{
    match seq.step() {
        Stepped::Went(byte) => {
            push_byte(console, byte)?;
            Ok(None)
        }
        Stepped::Halted => Ok(Some(Ending::Halted)),
        Stepped::Stuck(why) => Ok(Some(Ending::Stuck(why))),
    }
}

// The last step counts where it halted, and not where it got stuck.
fn counted(ending: &Ending) -> u32
    ensures count { result ≡ went Going (mark_of ending.now) }
    ensures within { result ≤ 1 }
{
    match ending {
        Ending::Stuck(_) => 0,
        _ => 1,
    }
}

/// Takes at most so many steps, until the program halts or is stuck.
pub fn run_steps(seq: &mut Seq, console: &mut Vec<u8>, steps: u32) -> Result<Progress, AllocError>
    requires { (state_of seq.old).mark ≡ Going }
    ensures run { OnOk result (record { state = state_of seq.new; console = console.new.items }
        ≡ run_for (program_of seq.old) steps (record { state = state_of seq.old; console = console.old.items })) }
    ensures program { program_of seq.new ≡ program_of seq.old }
    ensures steps { IfOk result (λ p. p.steps ≡ steps_in (program_of seq.old) steps (record { state = state_of seq.old; console = console.old.items })) }
    ensures ending { IfOk result (λ p. (state_of seq.new).mark ≡ mark_of p.ending) }
{
    for done in 0..steps {
        match take_step(seq, console)? {
            None => {}
            Some(ending) => {
                return Ok(Progress {
                    steps: done + counted(&ending),
                    ending,
                });
            }
        }
    }
    Ok(Progress {
        steps,
        ending: Ending::Running,
    })
}
