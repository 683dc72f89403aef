//! The end of a command.
ghost use Rattle.std.specs.Prelude.{◌≡◌, ◌≢◌, ◌++◌, ◌∷◌, ◌⊎◌, [], List, ℕ, Some, codes};
ghost use Rattle.mx_io.specs.Counts.{Rose};
ghost use Rattle.mx_io.specs.Writes.{written_of};
ghost use Rattle.lab_output.specs.Files.{file_named, IsFileError, IsLine};

use cmd_answer::Status;
use mx_io::{Shelf, ShelfFault, Sink, put_all};
use std::alloc::Global;

/// Where what a command says goes.
#[derive(Clone, Copy)]
pub enum Destination<'a> {
    /// It is an error.
    Errors,
    /// Standard output.
    Output,
    /// The file of this name.
    File(&'a str),
}

/// What a command answers, before anything is put out.
#[derive(Drop)]
pub struct Delivery<'a> {
    pub status: Status,
    pub bytes: Vec<u8>,
    pub to: Destination<'a>,
}

/// How a command ended, and what goes to standard error.
#[derive(Drop)]
pub struct ExitReport {
    pub status: Status,
    pub errors: Vec<u8>,
}

// A command that ended so, with nothing for standard error.
fn quietly(alloc: Global, status: Status) -> ExitReport
    ensures status { result.status ≡ status }
    ensures quiet { result.errors.items ≡ [] }
{
    ExitReport {
        status,
        errors: Vec::new(alloc),
    }
}

/// A command that ended so, with a line for standard error, where there is memory for it.
pub fn failed(alloc: Global, status: Status, words: &str, name: &str) -> ExitReport
    ensures status { result.status ≡ status }
    ensures line { IsLine words.now name.now result.errors.items }
{
    match format!(in alloc; "{words}{name}\n") {
        Ok(line) => ExitReport {
            status,
            errors: line.into_bytes(),
        },
        Err(_) => quietly(alloc, status),
    }
}

// A command that ended so, with this for standard error.
fn kept(status: Status, errors: Vec<u8>) -> ExitReport
    ensures { (result.status ≡ status) × (result.errors ≡ errors) }
{
    ExitReport { status, errors }
}

// Puts out a text.
fn print<W: Sink>(alloc: Global, status: Status, said: &[u8], out: &mut W) -> ExitReport
    ensures printed { result.status ≢ Status.WriteFault
        → (result.status ≡ status) × (W.written out.new ≡ W.written out.old ++ said.now) }
    ensures fault { result.status ≡ Status.WriteFault → (status ≡ Status.WriteFault) ⊎ Rose (W.faults out.old) (W.faults out.new) }
    ensures line { IsLine (codes "write fault: standard output") [] result.errors.items }
{
    match put_all(out, said) {
        Ok(()) => quietly(alloc, status),
        Err(_) => failed(
            alloc,
            Status::WriteFault,
            "write fault: ",
            "standard output",
        ),
    }
}

// Writes a text to a file.
fn write<S: Shelf>(
    alloc: Global,
    status: Status,
    said: &[u8],
    name: &str,
    shelf: &mut S,
) -> ExitReport
    ensures filed { result.status ≢ Status.WriteFault → result.status ≢ Status.Memory
        → (result.status ≡ status) × ((S.told shelf.new).wrote ≡ (S.told shelf.old).wrote ++ written_of name.now said.now ∷ []) }
    ensures fault { result.status ≡ Status.WriteFault
        → (status ≡ Status.WriteFault) ⊎ Rose (S.write_faults shelf.old) (S.write_faults shelf.new) }
    ensures line { IsFileError name.now result.errors.items }
{
    match shelf.write(name, said) {
        Ok(()) => quietly(alloc, status),
        Err(ShelfFault::Memory) => failed(alloc, Status::Memory, "no memory", ""),
        Err(_) => failed(alloc, Status::WriteFault, "cannot be written: ", name),
    }
}

/// Puts out what a command answers: all of it, unless the status is one of a fault then. An error is left to who asked.
pub fn put_out<S: Shelf, W: Sink>(
    alloc: Global,
    delivery: Delivery,
    shelf: &mut S,
    out: &mut W,
) -> ExitReport
    // An error is as it is answered, and nothing is put out.
    ensures kept { delivery.entry.to ≡ Destination.Errors
        → (result.status ≡ delivery.entry.status) × (result.errors ≡ delivery.entry.bytes) }
    ensures unprinted { delivery.entry.to ≢ Destination.Output → W.written out.new ≡ W.written out.old }
    ensures unwritten { delivery.entry.to ≡ Destination.Errors → S.told shelf.new ≡ S.told shelf.old }

    // Else it goes out whole, and the status is that of the answer, or the status is that of a fault.
    ensures printed { delivery.entry.to ≡ Destination.Output → result.status ≢ Status.WriteFault
        → (result.status ≡ delivery.entry.status) × (W.written out.new ≡ W.written out.old ++ delivery.entry.bytes.items) }
    ensures filed { (name : List ℕ) → file_named delivery.entry.to ≡ Some name → result.status ≢ Status.WriteFault → result.status ≢ Status.Memory
        → (result.status ≡ delivery.entry.status)
        × ((S.told shelf.new).wrote ≡ (S.told shelf.old).wrote ++ written_of name delivery.entry.bytes.items ∷ []) }
    ensures alone { delivery.entry.to ≡ Destination.Output → S.told shelf.new ≡ S.told shelf.old }

    // A fault of writing comes only where the output or the file store counted one, and standard error gets its line.
    ensures print_fault { delivery.entry.to ≡ Destination.Output → result.status ≡ Status.WriteFault
        → (delivery.entry.status ≡ Status.WriteFault) ⊎ Rose (W.faults out.old) (W.faults out.new) }
    ensures print_line { delivery.entry.to ≡ Destination.Output → IsLine (codes "write fault: standard output") [] result.errors.items }
    ensures file_fault { (name : List ℕ) → file_named delivery.entry.to ≡ Some name → result.status ≡ Status.WriteFault
        → (delivery.entry.status ≡ Status.WriteFault) ⊎ Rose (S.write_faults shelf.old) (S.write_faults shelf.new) }
    ensures file_line { (name : List ℕ) → file_named delivery.entry.to ≡ Some name → IsFileError name result.errors.items }
{
    let Delivery { status, bytes, to } = delivery;
    match to {
        Destination::Errors => kept(status, bytes),
        Destination::Output => print(alloc, status, bytes.as_slice(), out),
        Destination::File(name) => write(alloc, status, bytes.as_slice(), name, shelf),
    }
}
