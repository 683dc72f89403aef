//! The top call.
ghost use Rattle.std.specs.Prelude.{◌≡◌, ◌≢◌, ◌++◌, ◌⊎◌, true, false, map, string_bytes, List, ℕ, None};
ghost use Rattle.cmd_answer.specs.declared.FileKind.{FileKind};
ghost use Rattle.mx_command.specs.Terms.{Rose, Answer, failed_answer, resolved, Performed, Faulted, Read, answer_by, Agree, Made, Promised, Delivered};
ghost use Rattle.mx_command.specs.Terms.{PutsPrefix, command_of, command_protocol, Held, Accepted, AreQuiet, IsNoFault, Headline, writes_a_file};

use crate::reply::reply_to;
use cmd_answer::{Status, finish};
use mx_io::{Shelf, Sink};
use std::alloc::Global;

/// Runs the command that the words, those after the program's name, ask for. It reads files from
/// the shelf, puts all that it prints into the sink, and answers how it ended.
///
/// What it answers is said by the one greedy layout of each source (`greedy_layout_is`).
pub fn command<S: Shelf, W: Sink>(
    alloc: Global,
    words: &[String],
    shelf: &mut S,
    out: &mut W,
) -> Status
    // THE PROGRAM AS IT IS SHIPPED, and every shelf and sink. The reads that were made are just those that the words ask for, by
    // what came back from those before, and the answer by what they gave is what came out: its status, its bytes and its file.
    ensures exact { result ≢ Status.WriteFault → result ≢ Status.Memory
        → (reads : List Read)
        × Made (command_protocol (command_of (map string_bytes words.now))) (S.counts shelf.old) (S.counts shelf.new) reads
        × Delivered (answer_by (command_protocol (command_of (map string_bytes words.now))) reads) result
        (S.told shelf.old) (S.told shelf.new) (W.written out.old) (W.written out.new) }

    // So all is promised of whatever the names hold that agrees with what each read gave.
    ensures promised { result ≢ Status.WriteFault → result ≢ Status.Memory
        → (reads : List Read) × ((S.counts shelf.new).log ≡ (S.counts shelf.old).log ++ reads)
        × ((held : Held) → Agree held reads → Promised (command_of (map string_bytes words.now)) held result
        (S.told shelf.old) (S.told shelf.new) (W.written out.old) (W.written out.new)) }

    // Where a write was refused, a prefix of that answer's output came out, and no file was taken whole but where the command is done.
    ensures exact_prefix { result ≡ Status.WriteFault
        → (reads : List Read)
        × Made (command_protocol (command_of (map string_bytes words.now))) (S.counts shelf.old) (S.counts shelf.new) reads
        × PutsPrefix (answer_by (command_protocol (command_of (map string_bytes words.now))) reads) (W.written out.old) (W.written out.new) }
    ensures unwrote { result ≢ Status.Done → (S.told shelf.new).wrote ≡ (S.told shelf.old).wrote }

    // HEADLINE. Where the words ask for the run of a source that is accepted, the shelf tells what it holds, and no
    // fault was counted or is answered: all that `Headline` says, or memory ran out.
    ensures headline { (S.told shelf.old).tells ≡ true
        → AreQuiet (S.counts shelf.old) (S.counts shelf.new) (S.write_faults shelf.old) (S.write_faults shelf.new)
        (W.faults out.old) (W.faults out.new) ⊎ IsNoFault result
        → (accepted : Accepted (command_of (map string_bytes words.now)) (S.told shelf.old).held)
        → (result ≡ Status.Memory)
        ⊎ Headline (command_of (map string_bytes words.now)) (S.told shelf.old).held accepted result (W.written out.old) (W.written out.new) }

    // So, where the shelf tells what it holds, all is promised of that: of a run as above, and of two sources that share the machine, of
    // the stops of a source at a label, of the join of modules and of the lengths of plans what their headlines say.
    ensures promised_held { (S.told shelf.old).tells ≡ true
        → AreQuiet (S.counts shelf.old) (S.counts shelf.new) (S.write_faults shelf.old) (S.write_faults shelf.new)
        (W.faults out.old) (W.faults out.new) ⊎ IsNoFault result
        → (result ≡ Status.Memory)
        ⊎ Promised (command_of (map string_bytes words.now)) (S.told shelf.old).held result
        (S.told shelf.old) (S.told shelf.new) (W.written out.old) (W.written out.new) }

    // ANSWERS, of every command. Where the shelf tells what it holds and no count of faults rises, the answer is that
    // of the words and of what is held, or memory ran out.
    ensures complete { (S.told shelf.old).tells ≡ true
        → ¬ Rose (S.counts shelf.old).faults (S.counts shelf.new).faults → ¬ Rose (S.write_faults shelf.old) (S.write_faults shelf.new)
        → ¬ Rose (W.faults out.old) (W.faults out.new)
        → (result ≡ Status.Memory)
        ⊎ Delivered (resolved (command_protocol (command_of (map string_bytes words.now))) (S.told shelf.old).held) result
        (S.told shelf.old) (S.told shelf.new) (W.written out.old) (W.written out.new) }

    // Whatever the counts do, every other status than these three is that of the same answer.
    ensures sound { (S.told shelf.old).tells ≡ true → result ≢ Status.ReadFault → result ≢ Status.WriteFault → result ≢ Status.Memory
        → Delivered (resolved (command_protocol (command_of (map string_bytes words.now))) (S.told shelf.old).held) result
        (S.told shelf.old) (S.told shelf.new) (W.written out.old) (W.written out.new) }

    // Whatever the shelf tells, each file was read as it says, one read counted for each, and the answer is that of the last step.
    ensures performed { result ≢ Status.WriteFault → result ≢ Status.Memory
        → (answer : Answer)
        × Performed (S.told shelf.old) (command_protocol (command_of (map string_bytes words.now)))
        (S.counts shelf.old) (S.counts shelf.new) answer
        × (result ≡ answer.status) × (W.written out.new ≡ W.written out.old ++ answer.output) }

    // Usage comes exactly where the words ask for nothing.
    ensures usage { result ≡ Status.Usage → command_of (map string_bytes words.now) ≡ None }
    ensures asks_nothing { command_of (map string_bytes words.now) ≡ None
        → (result ≡ Status.Usage) ⊎ (result ≡ Status.WriteFault) ⊎ (result ≡ Status.Memory) }

    // What the names hold changes only where the command is done, and only `build` and `migrate` write.
    ensures kept { (S.told shelf.old).tells ≡ true → result ≢ Status.Done → (n : List ℕ) → (S.told shelf.new).held n ≡ (S.told shelf.old).held n }
    ensures unwritten { writes_a_file (command_of (map string_bytes words.now)) ≡ false → S.write_faults shelf.new ≡ S.write_faults shelf.old }

    // FAULTS. A read fault is that of one of the files, after one read of each file up to it, each counted from the
    // counts that the read before it left. Exactly its line is put out.
    ensures read_fault { result ≡ Status.ReadFault → (answer : Answer)
        × Faulted (S.told shelf.old) (command_protocol (command_of (map string_bytes words.now)))
        (S.counts shelf.old) (S.counts shelf.new) answer
        × (W.written out.new ≡ W.written out.old ++ answer.output) }

    // A write fault is one of the sink, or of the shelf where the command writes a file. What went out is a prefix of
    // the answer's output, or of the line of a read fault that was counted.
    ensures write_fault { result ≡ Status.WriteFault → Rose (W.faults out.old) (W.faults out.new)
        ⊎ ((writes_a_file (command_of (map string_bytes words.now)) ≡ true) × Rose (S.write_faults shelf.old) (S.write_faults shelf.new)) }
    ensures prefix { result ≡ Status.WriteFault → (S.told shelf.old).tells ≡ true
        → PutsPrefix (resolved (command_protocol (command_of (map string_bytes words.now))) (S.told shelf.old).held) (W.written out.old) (W.written out.new)
        ⊎ (Rose (S.counts shelf.old).faults (S.counts shelf.new).faults × (kind : FileKind)
        × PutsPrefix (failed_answer kind) (W.written out.old) (W.written out.new)) }

    // Want of memory comes before anything is put out.
    ensures memory { result ≡ Status.Memory → W.written out.new ≡ W.written out.old }
{
    let Ok(reply) = reply_to(alloc, words, shelf) else {
        return Status::Memory;
    };
    finish(reply, shelf, out)
}
