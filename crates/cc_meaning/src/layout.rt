//! Where memory is not the program's.
ghost use Rattle.std.specs.Prelude.{◌≡◌, fold};
ghost use Rattle.cc_meaning.specs.Layouts;

use crate::symbols::item_named;
use cc_program::{Object, Program};
use cc_rules::{FIRST_BYTE, LIMIT};

/// Bytes from one up to another, without that.
#[derive(Clone, Copy, Debug, PartialEq, Eq)]
pub struct Extent {
    pub from: u64,
    pub to: u64,
}

/// Where the translation has words of its own: those that hold the code addresses of functions and labels, and those after all
/// data of the program, from the byte `behind` up to `end`.
#[derive(Clone, Copy, Debug, PartialEq, Eq)]
pub struct Layout {
    pub descriptors: Extent,
    pub behind: u32,
    pub end: u32,
}

/// Whether a datum holds the code address of a function or a label.
fn is_descriptor(program: &Program<'_>, object: &Object) -> bool
    ensures { result ≡ Layouts.is_descriptor program.now object.now }
{
    object.kept && item_named(program, object.symbol).is_some()
}

/// Bytes, and those of a datum if it is a descriptor.
fn extended(program: &Program<'_>, bytes: Extent, object: &Object) -> Extent
    ensures { result ≡ Layouts.extended program.now bytes object.now }
{
    if is_descriptor(program, object) {
        let address = u64::from(object.standing.address);
        Extent {
            from: bytes.from.min(address),
            to: bytes.to.max(address + 4),
        }
    } else {
        bytes
    }
}

/// The bytes of these data that are descriptors, and others.
fn with_descriptors(program: &Program<'_>, none: Extent, objects: &[Object]) -> Extent
    ensures { result ≡ fold (Layouts.extended program.now) none objects.now }
{
    let mut bytes = none;
    for object in objects {
        bytes = extended(program, bytes, object);
    }
    bytes
}

/// Whether a byte is one from one up to another.
fn is_between(from: u64, to: u64, address: u64) -> bool
    ensures { result ≡ Layouts.is_between from to address }
{
    from <= address && address < to
}

impl Layout {
    /// The layout of a program whose data end before the byte `behind`, where what the translation adds to them ends before `end`.
    pub fn of(program: &Program<'_>, behind: u32, end: u32) -> Layout
        ensures { result ≡ Layouts.layout_of program.now behind end }
    {
        let none = Extent {
            from: u64::from(LIMIT),
            to: 0,
        };
        Layout {
            descriptors: with_descriptors(program, none, program.objects.as_slice()),
            behind,
            end,
        }
    }

    /// Whether a load or a store at an address reaches memory of the program.
    pub(crate) fn is_memory(&self, address: u32) -> bool
        ensures { result ≡ Layouts.is_memory self.now address }
    {
        let address = u64::from(address);
        is_between(FIRST_BYTE, u64::from(LIMIT), address)
            && !is_between(self.descriptors.from, self.descriptors.to, address)
            && !is_between(u64::from(self.behind), u64::from(self.end), address)
    }
}
