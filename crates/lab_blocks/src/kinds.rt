//! Why an instruction depends on an earlier one.
ghost use Rattle.std.specs.Prelude.{◌↔◌, IsTrue};
ghost use Rattle.mx_depend.specs.Independence.{Apart};
ghost use Rattle.mx_isa.specs.Views.{reads, writes};
ghost use Rattle.lab_blocks.specs.Dependences.{IsKind};

use mx_depend::independent;
use mx_isa::Inst;

/// Why a later instruction depends on an earlier one.
#[derive(Clone, Copy, Debug, PartialEq, Eq)]
pub enum Kind {
    /// It reads what the earlier one writes.
    True,
    /// It writes what the earlier one reads.
    Anti,
    /// Both write a register or MD.
    Output,
    /// They may reach the same word of memory, or two bytes of the input.
    Memory,
}

impl Kind {
    /// The word for it.
    pub fn word(self) -> &'static str {
        match self {
            Kind::True => "true",
            Kind::Anti => "anti",
            Kind::Output => "output",
            Kind::Memory => "memory",
        }
    }
}

/// Why `y` depends on an earlier `x`: the first reason, in the order of `Kind`; nothing where the two may change places.
pub fn dependence(x: &Inst, y: &Inst, input: bool) -> Option<Kind>
    ensures { IsKind x.now y.now input result }
{
    if independent(x, y, input) {
        None
    } else if !keeps_reads(x, y) {
        Some(Kind::True)
    } else if !keeps_reads(y, x) {
        Some(Kind::Anti)
    } else if !keeps_writes(x, y) {
        Some(Kind::Output)
    } else {
        Some(Kind::Memory)
    }
}

/// Whether `x` writes no name that `y` reads.
fn keeps_reads(x: &Inst, y: &Inst) -> bool
    ensures { IsTrue result ↔ Apart (writes x.now) (reads y.now) }
{
    !x.writes().meets(y.reads())
}

/// Whether the two write no name in common.
fn keeps_writes(x: &Inst, y: &Inst) -> bool
    ensures { IsTrue result ↔ Apart (writes x.now) (writes y.now) }
{
    !x.writes().meets(y.writes())
}
