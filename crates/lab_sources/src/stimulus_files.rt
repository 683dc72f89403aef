//! The files that come to a run from outside.
ghost use Rattle.std.specs.Prelude.{◌≡◌, ◌≤◌, IfOk, IfErr, Ok, length, option_map};
ghost use Rattle.mx_io.specs.declared.limits.TheConstants.{MAX_FILE_BYTES};
ghost use Rattle.mx_board.specs.RequestFile.{requests_of};
ghost use Rattle.lab_sources.specs.Stimuli.{IsReadIf, AreGiven, IsUnreadIf, TellsError, IsFaultyFile, IsNoStimulus};
ghost use Rattle.lab_failure.specs.Failures.{limit_of};

use crate::stimulus::Stimulus;
use lab_failure::{LabFailure, LabFile, LineFault, read_lab_file};
use lab_options::StimulusNames;
use mx_board::{EventError, Requests};
use mx_io::Shelf;
use std::alloc::Global;

// What is wrong with an interrupt file of this name.
fn cycles_failure<'w>(name: &'w str, error: EventError) -> LabFailure<'w>
    ensures { TellsError name.entry.now error result }
{
    match error {
        EventError::BadLine { line } => LabFailure::Line {
            name,
            line,
            fault: LineFault::BadCycle,
        },
        EventError::TooMany { line } => LabFailure::Line {
            name,
            line,
            fault: LineFault::TooManyCycles,
        },
        EventError::NotAscending { line } => LabFailure::Line {
            name,
            line,
            fault: LineFault::NotAscending,
        },
        EventError::Memory => LabFailure::Memory,
    }
}

// The requests of the bytes of an interrupt file of this name.
fn parse_requests<'w>(
    alloc: Global,
    name: &'w str,
    bytes: &[u8],
) -> Result<Requests, LabFailure<'w>>
    requires { length bytes.now ≤ MAX_FILE_BYTES }
    ensures spelled { IfOk result (λ requests. requests_of bytes.now ≡ Ok requests) }
    ensures refused { IfErr result (IsFaultyFile name.entry.now bytes.now) }
{
    match Requests::parse(alloc, bytes) {
        Ok(requests) => Ok(requests),
        Err(error) => Err(cycles_failure(name, error)),
    }
}

// The bytes of the file of this name; none where no file is named.
fn read_if<'w, S: Shelf>(
    alloc: Global,
    shelf: &mut S,
    kind: LabFile,
    name: Option<&'w str>,
) -> Result<Vec<u8>, LabFailure<'w>>
    ensures read { IfOk result (λ bytes. IsReadIf (S.told shelf.old) kind (option_map (λ s. s.now) name.entry) bytes.items
        (S.counts shelf.old) (S.counts shelf.new)) }
    ensures within { IfOk result (λ bytes. length bytes.items ≤ limit_of kind) }
    ensures unread { IfErr result (IsUnreadIf kind (option_map (λ s. s.now) name.entry) (S.counts shelf.old) (S.counts shelf.new)) }
    ensures told_stays { S.told shelf.new ≡ S.told shelf.old }
    ensures writes_stay { S.write_faults shelf.new ≡ S.write_faults shelf.old }
{
    match name {
        Some(name) => read_lab_file(alloc, shelf, kind, name),
        None => Ok(Vec::new(alloc)),
    }
}

/// What the named files give, which are read in this order, or what is wrong with the first that is wrong.
pub fn read_stimulus<'w, S: Shelf>(
    alloc: Global,
    shelf: &mut S,
    names: StimulusNames<'w>,
) -> Result<Stimulus, LabFailure<'w>>
    ensures given { IfOk result (AreGiven (S.told shelf.old) (option_map (λ s. s.now) names.entry.interrupts) (option_map (λ s. s.now) names.entry.input)
        (S.counts shelf.old) (S.counts shelf.new)) }
    ensures refused { IfErr result (IsNoStimulus (S.told shelf.old) (option_map (λ s. s.now) names.entry.interrupts)
        (option_map (λ s. s.now) names.entry.input) (S.counts shelf.old) (S.counts shelf.new)) }
    ensures told_stays { S.told shelf.new ≡ S.told shelf.old }
    ensures writes_stay { S.write_faults shelf.new ≡ S.write_faults shelf.old }
{
    let cycles = read_if(alloc, shelf, LabFile::Interrupts, names.interrupts)?;
    let requests = parse_requests(alloc, names.interrupts.unwrap_or(""), cycles.as_slice())?;
    let input = read_if(alloc, shelf, LabFile::Input, names.input)?;
    Ok(Stimulus {
        cycles,
        requests,
        input,
    })
}
