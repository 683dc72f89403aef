//! Which way the operands of a word in ALU came.
ghost use Rattle.std.specs.Prelude.{◌≡◌};
ghost use Rattle.lab_draw.specs.Ways.{writes_to, is_loading, way_by};

use mx_isa::{Inst, Reg};

/// Where an operand of the word in ALU came from.
#[derive(Clone, Copy)]
pub enum Way {
    /// It is r0, or there is no such operand.
    Nowhere,
    /// The register file, as the word was in RF.
    File,
    /// What was in MEM as the word was in RF, and is in WB now.
    BypassInRf,
    /// What is in MEM now.
    BypassInAlu,
}

// Whether a word writes a register.
fn writes(inst: &Option<Inst>, register: Reg) -> bool
    ensures { result ≡ writes_to inst.now register }
{
    match inst {
        Some(inst) => inst.dest().number() == register.number(),
        None => false,
    }
}

// Whether a word loads a register.
fn loads(inst: &Option<Inst>) -> bool
    ensures { result ≡ is_loading inst.now }
{
    match inst {
        Some(inst) => matches!(inst, Inst::Load { .. }),
        None => false,
    }
}

/// Which way the operand of a register comes to the word in ALU, by what the words in MEM and in WB do; none where no word is
/// there that is not squashed. The number of a load does not come from MEM to ALU, and the newer word comes first.
pub fn way_of(mem: &Option<Inst>, wb: &Option<Inst>, register: Reg) -> Way
    ensures { result ≡ way_by mem.now wb.now register }
{
    if register.number() == 0 {
        Way::Nowhere
    } else if writes(mem, register) && !loads(mem) {
        Way::BypassInAlu
    } else if writes(wb, register) {
        Way::BypassInRf
    } else {
        Way::File
    }
}
