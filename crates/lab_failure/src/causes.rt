//! Why a file cannot be read, which only the caller knows.
use std::alloc::Global;

/// The name that the commands are called by in the repository.
const IN_REPOSITORY: &str = "./mx";

/// Why a file cannot be read.
#[derive(Clone, Copy)]
pub enum Cause {
    /// It is not there.
    Missing,
    /// It may not be read.
    Denied,
    /// It is a folder.
    Folder,
    /// Something else.
    Other,
}

/// What only the caller knows: the files of the system, and the name that the commands are called by.
pub trait Causes: Copy + Drop {
    /// Why the file of this name cannot be read, if that is so and is known.
    fn cause(&self, alloc: Global, name: &str) -> Option<Cause>;

    /// Whether the file of this name can be read once more: a pipe cannot.
    fn is_kept(&self, name: &str) -> bool;

    /// The name that the commands are called by.
    fn caller(&self) -> &str;
}

/// Files that are kept in memory, and of which no cause is known.
#[derive(Clone, Copy)]
pub struct Unknown;

impl Causes for Unknown {
    fn cause(&self, _alloc: Global, _name: &str) -> Option<Cause> {
        None
    }

    fn is_kept(&self, _name: &str) -> bool {
        true
    }

    fn caller(&self) -> &str {
        IN_REPOSITORY
    }
}
