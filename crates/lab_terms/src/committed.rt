//! What an instruction does that commits.
ghost use Rattle.std.specs.Prelude.{◌≡◌};
ghost use Rattle.mx_isa.specs.Views.{writes_md};
ghost use Rattle.lab_terms.specs.Commits.{register_of, does};

use mx_isa::{Inst, Op, Reg, Special};

/// What an instruction does that commits.
#[derive(Clone, Copy)]
pub struct Committed {
    /// The register that it writes, which is not r0.
    pub register: Option<Reg>,
    /// Whether it writes MD.
    pub md: bool,
    /// Whether it stores a word.
    pub store: bool,
}

/// Whether an instruction writes MD.
fn writes_md(inst: &Inst) -> bool
    ensures { result ≡ writes_md inst.now }
{
    match inst {
        Inst::Compute { op, .. } => matches!(op, Op::Mstart | Op::Mstep | Op::Dstep),
        Inst::MoveTo { special, .. } => matches!(special, Special::Md),
        _ => false,
    }
}

/// The register that an instruction writes, unless it is r0.
fn register_of(inst: &Inst) -> Option<Reg>
    ensures { result ≡ register_of inst.now }
{
    let dest = inst.dest();
    if dest.number() == 0 { None } else { Some(dest) }
}

/// What an instruction does that commits.
pub fn committed_by(inst: &Inst) -> Committed
    ensures { result ≡ does inst.now }
{
    Committed {
        register: register_of(inst),
        md: writes_md(inst),
        store: inst.is_store(),
    }
}
