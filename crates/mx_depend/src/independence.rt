//! When two instructions may change places.
ghost use Rattle.std.specs.Prelude.{◌≡◌, ◌↔◌, IsTrue, option_map};
ghost use Rattle.mx_isa.specs.Views.{reads, writes, access};
ghost use Rattle.mx_depend.specs.Independence.{Apart, OtherWord, Independent, feeds};

use mx_isa::{Inst, Reg};

/// Whether the two may change places: no name that one writes is read or written by the other, and they
/// are not both memory instructions of which one is a store, nor, in a source with input, both memory
/// instructions at all. Two accesses by the same base register at different offsets are always free.
///
/// Hennessy and Gross; the rule on input is this project's profile.
pub fn independent(x: &Inst, y: &Inst, input: bool) -> bool
    ensures { IsTrue result ↔ Independent x.now y.now input }
{
    keeps_reads(x, y) && keeps_reads(y, x) && keeps_writes(x, y) && reach_apart(x, y, input)
}

/// Whether the first is a load of a register that the second reads.
pub fn feeds(load: &Inst, reader: &Inst) -> bool
    ensures { result ≡ feeds load.now reader.now }
{
    load.is_load() && reader.reads().meets(load.writes())
}

/// Whether `x` writes no name that `y` reads.
fn keeps_reads(x: &Inst, y: &Inst) -> bool
    ensures { IsTrue result ↔ Apart (writes x.now) (reads y.now) }
{
    !x.writes().meets(y.reads())
}

/// Whether the two write no name in common.
fn keeps_writes(x: &Inst, y: &Inst) -> bool
    ensures { IsTrue result ↔ Apart (writes x.now) (writes y.now) }
{
    !x.writes().meets(y.writes())
}

/// Where a load or a store reaches.
#[derive(Clone, Copy)]
struct Reach {
    stores: bool,
    base: Reg,
    offset: i32,
}

/// Where the instruction reaches memory, if it does.
fn reach_of(inst: &Inst) -> Option<Reach>
    ensures { option_map (λ r. record { stores = r.stores; base = r.base; offset = r.offset }) result
        ≡ access inst.now }
{
    match *inst {
        Inst::Load { base, offset, .. } => Some(Reach {
            stores: false,
            base,
            offset,
        }),
        Inst::Store { base, offset, .. } => Some(Reach {
            stores: true,
            base,
            offset,
        }),
        _ => None,
    }
}

/// Whether the two keep their order with respect to memory in either order.
fn reach_apart(x: &Inst, y: &Inst, input: bool) -> bool
    ensures { IsTrue result ↔ OtherWord input (access x.now) (access y.now) }
{
    match (reach_of(x), reach_of(y)) {
        (Some(a), Some(b)) => {
            let ordered = a.stores || b.stores || input;
            !ordered || (a.base == b.base && a.offset != b.offset)
        }
        _ => true,
    }
}
