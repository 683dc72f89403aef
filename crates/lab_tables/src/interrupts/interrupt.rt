//! How a request became an interrupt, as it is told.
use super::places::Places;
use lab_measures::Row;

/// How the last request of a run became an interrupt.
#[derive(Clone, Copy)]
pub(crate) struct Interrupt {
    /// The cycles in which it was taken and in which the handler's first word was fetched, and how long it waited for that.
    pub taken: u64,
    pub handler: u64,
    pub wait: i64,
    /// The word that was killed, whether it was squashed, and its line, 0 where it has none.
    pub address: u32,
    pub squashed: bool,
    pub line: u32,
}

/// How the last request of a run became an interrupt, if it did and killed a word.
pub(crate) fn interrupt_of(row: &Row, places: &Places) -> Option<Interrupt> {
    let (entry, wait) = (row.entry?, row.wait()?);
    let (address, squashed) = row.killed()?;
    Some(Interrupt {
        taken: entry.taken,
        handler: entry.fetched,
        wait,
        address,
        squashed,
        line: places.line_at(address),
    })
}
