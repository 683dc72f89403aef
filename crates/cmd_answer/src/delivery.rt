//! Putting out what a command answers.
ghost use Rattle.std.specs.Prelude.{◌≡◌, ◌≢◌, ◌⊎◌, ◌≤◌, true, None, List, ℕ};
ghost use Rattle.mx_io.specs.Counts.{Rose};
ghost use Rattle.cmd_answer.specs.Delivery.{Delivered, PutsPrefix, FailsToWrite, HasStatus};
ghost use Rattle.cmd_answer.specs.Replies.{reply_answer};

use crate::{Reply, Status};
use mx_io::{Shelf, ShelfFault, Sink, put_all};

/// Puts out the output of a reply, or writes its file, and answers how the command ended.
pub fn finish<S: Shelf, W: Sink>(reply: Reply, shelf: &mut S, out: &mut W) -> Status
    requires { HasStatus (reply_answer reply) }
    ensures delivered { result ≢ Status.WriteFault → result ≢ Status.Memory
        → Delivered (reply_answer reply) result (S.told shelf.old) (S.told shelf.new) (W.written out.old) (W.written out.new) }
    ensures write_fault { result ≡ Status.WriteFault
        → FailsToWrite (reply_answer reply) (W.faults out.old) (W.faults out.new) (S.write_faults shelf.old) (S.write_faults shelf.new) }
    ensures prefix { result ≡ Status.WriteFault → PutsPrefix (reply_answer reply) (W.written out.old) (W.written out.new) }
    ensures memory { result ≡ Status.Memory → W.written out.new ≡ W.written out.old }
    ensures memory_for_a_file { (reply_answer reply).file ≡ None → result ≢ Status.Memory }
    ensures unwrote { (result ≡ Status.WriteFault) ⊎ (result ≡ Status.Memory) → (S.told shelf.new).wrote ≡ (S.told shelf.old).wrote }
    ensures kept { (result ≡ Status.WriteFault) ⊎ (result ≡ Status.Memory) → (S.told shelf.old).tells ≡ true → (n : List ℕ)
        → (S.told shelf.new).held n ≡ (S.told shelf.old).held n }
    ensures unread { S.counts shelf.new ≡ S.counts shelf.old }
    ensures unwritten { (reply_answer reply).file ≡ None → S.write_faults shelf.new ≡ S.write_faults shelf.old }
    ensures faults_grow { W.faults out.old ≤ W.faults out.new }
    ensures writes_grow { S.write_faults shelf.old ≤ S.write_faults shelf.new }
{
    match reply {
        Reply::Prints { status, output } => match put_all(out, output.as_slice()) {
            Ok(()) => status,
            Err(_) => Status::WriteFault,
        },
        Reply::Writes { name, bytes } => match shelf.write(name.as_str(), bytes.as_slice()) {
            Ok(()) => Status::Done,
            Err(ShelfFault::Memory) => Status::Memory,
            Err(_) => Status::WriteFault,
        },
    }
}
