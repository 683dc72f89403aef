//! The top call on the files and the standard output of the system: the theorem of the program as it is shipped.
ghost use Rattle.std.specs.Prelude.{◌≡◌, ◌≢◌, ◌⊎◌, true, [], map, string_bytes};
ghost use Rattle.mx_command.specs.Terms.{log_of, wrote_of, told_of, handed_to, files_of, PutsPrefix, AreAsked, Agree, command_of, Held, command_protocol};
ghost use Rattle.mx_command.specs.Terms.{Promised, IsTaken, answer_on, Rose, faults_of, write_faults_of, writes_a_file};

use crate::command;
use cmd_answer::Status;
use mx_io::{RealShelf, RealSink};
use std::alloc::Global;
use std::rt::Files;

/// Runs the command that the words ask for, on a shelf and a sink of the system that nothing was asked of before.
pub fn command_on_system<R: Files + Print>(
    alloc: Global,
    words: &[String],
    shelf: &mut RealShelf<'_, R>,
    out: &mut RealSink<'_, R>,
) -> Status
    requires unread { log_of shelf.now ≡ [] }
    requires unwritten { wrote_of shelf.now ≡ [] }
    requires silent { handed_to out.now ≡ [] }

    // The system was asked for just the files that the words ask for, in order, the next by what it gave for the one before.
    ensures asked { result ≢ Status.Memory → AreAsked (command_protocol (command_of (map string_bytes words.now))) (log_of shelf.new) }

    // The status, the bytes that standard output took, and the files that were written are those of the answer by what it gave.
    ensures status { IsTaken result → result ≡ (answer_on (map string_bytes words.now) (log_of shelf.new)).status }
    ensures output { IsTaken result → handed_to out.new ≡ (answer_on (map string_bytes words.now) (log_of shelf.new)).output }
    ensures files { IsTaken result → wrote_of shelf.new ≡ files_of (answer_on (map string_bytes words.now) (log_of shelf.new)).file }

    // So all is promised of whatever the names hold that agrees with what it gave.
    ensures promised { IsTaken result → (held : Held) → Agree held (log_of shelf.new)
        → Promised (command_of (map string_bytes words.now)) held result (told_of shelf.old) (told_of shelf.new) [] (handed_to out.new) }

    // A write fault is one of the output, or of the files where the command writes a file, counted in this call.
    ensures write_fault { result ≡ Status.WriteFault → Rose (faults_of out.old) (faults_of out.new)
        ⊎ ((writes_a_file (command_of (map string_bytes words.now)) ≡ true) × Rose (write_faults_of shelf.old) (write_faults_of shelf.new)) }

    // Where the system refused to take more, it took a prefix of that output, where memory ran out no byte; and it took a
    // file only where the command is done.
    ensures prefix { result ≡ Status.WriteFault → PutsPrefix (answer_on (map string_bytes words.now) (log_of shelf.new)) [] (handed_to out.new) }
    ensures memory { result ≡ Status.Memory → handed_to out.new ≡ [] }
    ensures unwrote { result ≢ Status.Done → wrote_of shelf.new ≡ [] }
{
    command(alloc, words, shelf, out)
}
