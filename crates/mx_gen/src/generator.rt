//! The generated source.
ghost use Rattle.std.specs.Prelude.{◌≡◌, ◌<◌, ◌≤◌, ◌^◌, ◌∷◌, ℕ, List, pos, decimal, length, OnOk, IfOk};
ghost use Rattle.mx_isa.specs.declared.board.TheConstants.{MAX_STATEMENTS};
ghost use Rattle.mx_gen.specs.Drafts.{put};
ghost use Rattle.mx_gen.specs.Generated.{kind, first, second, third, address, opening, compute, round, skip, item, generated};
ghost use Rattle.mx_isa.specs.declared.place.Place.{Place as AnyPlace};
ghost use Rattle.mx_gen.specs.Board.{IsBoard, HaltsWithin, IsNeverStuck};
ghost use Rattle.mx_gen.specs.Near.{AllNear};
ghost use Rattle.mx_gen.specs.Sound.{IsSound, IsNew};

use crate::draft::Draft;
use mx_isa::{CONSOLE, Cond, DATA_BASE, Inst, Op, Reg};
use mx_source::{Memory, Source, Statement};
use std::alloc::Global;

/// The source that is generated from a number: an opening that sets r1 to r8, then `count` items
/// that are drawn from the seed, then `halt` (this project's profile).
///
/// # Errors
///
/// `Memory` where there is no room for it.
pub fn generate(alloc: Global, seed: u32, count: u32) -> Result<Source, Memory>
    requires { count ≤ 4000 }
    ensures source { IfOk result (λ source. source ≡ generated seed count) }
    ensures halts { IfOk result (λ source. (place : AnyPlace) (input : List ℕ) → IsBoard place → HaltsWithin 40009 source place input) }
    ensures never_stuck { IfOk result (λ source. (place : AnyPlace) (input : List ℕ) → IsBoard place → IsNeverStuck source place input) }
    ensures few { IfOk result (λ source. length source.statements ≤ 16009) }
    ensures near { IfOk result (λ source. AllNear source.statements) }
{
    drafted(alloc, seed, count)
}

/// The same, with no more said of it than what it is.
fn drafted(alloc: Global, seed: u32, count: u32) -> Result<Source, Memory>
    requires { count ≤ 4000 }
    ensures { IfOk result (λ source. source ≡ generated seed count) }
{
    let mut draft = Draft::new(alloc);
    open(&mut draft)?;
    let mut x = seed;
    for j in 0..count {
        x = x.wrapping_mul(1_664_525).wrapping_add(1_013_904_223);
        add_item(alloc, &mut draft, x, j)?;
    }
    draft.put(&Statement::Halt)?;
    Ok(draft.finish())
}

/// What is read off a number that was drawn.
#[derive(Drop)]
struct Drawn {
    kind: u32,
    first: Reg,
    second: Reg,
    third: Reg,
    address: i32,
}

/// Reads it off.
fn read(x: u32) -> Drawn
    ensures kind { result.kind ≡ kind x }
    ensures first { result.first ≡ first x }
    ensures second { result.second ≡ second x }
    ensures third { result.third ≡ third x }
    ensures address { result.address ≡ pos (address x) }
{
    Drawn {
        kind: x / 0x2000_0000,
        first: register(1 + x / 0x100 % 8),
        second: register(1 + x / 0x800 % 8),
        third: register(1 + x / 0x4000 % 8),
        address: (DATA_BASE + x / 0x2_0000 % 64) as i32,
    }
}

/// The opening.
fn open(draft: &mut Draft) -> Result<(), Memory>
    requires { draft.old.line ≡ 1 }
    ensures { OnOk result (draft.new ≡ opening draft.old) }
{
    set(draft, 1, 1)?;
    set(draft, 2, 4)?;
    set(draft, 3, 9)?;
    set(draft, 4, 16)?;
    set(draft, 5, 25)?;
    set(draft, 6, 36)?;
    set(draft, 7, 49)?;
    set(draft, 8, 64)
}

/// The statements of an item, from the number that was drawn for it.
fn add_item(alloc: Global, draft: &mut Draft, x: u32, j: u32) -> Result<(), Memory>
    requires count { j < 4000 }
    requires sound { IsSound j draft.old }
    ensures { OnOk result (draft.new ≡ item x j draft.old) }
{
    let zero = Reg::ZERO;
    let drawn = read(x);
    let (a, b, c, offset) = (drawn.first, drawn.second, drawn.third, drawn.address);
    match drawn.kind {
        0 => compute(draft, Op::Add, a, b, c),
        1 => compute(draft, Op::Sub, a, b, c),
        2 => compute(draft, Op::Xor, a, b, c),
        3 => draft.put(&Statement::Plain(Inst::Store {
            base: zero,
            value: a,
            offset,
        })),
        4 => draft.put(&Statement::Plain(Inst::Load {
            base: zero,
            dest: c,
            offset,
        })),
        5 => round(alloc, draft, j, a, b, c),
        6 => draft.put(&Statement::Plain(Inst::Store {
            base: zero,
            value: a,
            offset: CONSOLE as i32,
        })),
        _ => skip(alloc, draft, j, a, b, c),
    }
}

/// A compute instruction.
fn compute(draft: &mut Draft, op: Op, a: Reg, b: Reg, dest: Reg) -> Result<(), Memory>
    requires { draft.old.line < 2 ^ 31 }
    ensures { OnOk result (draft.new ≡ compute op a b dest draft.old) }
{
    draft.put(&Statement::Plain(Inst::Compute { a, dest, b, op }))
}

/// An addition, three times.
fn round(alloc: Global, draft: &mut Draft, j: u32, a: Reg, b: Reg, c: Reg) -> Result<(), Memory>
    requires line { draft.old.line < 2 ^ 30 }
    requires few { length draft.old.statements < MAX_STATEMENTS }
    requires new { IsNew (76 ∷ decimal j) draft.old.labels }
    ensures { OnOk result (draft.new ≡ round j a b c draft.old) }
{
    let count = register(9);
    let target = draft.index() + 1;
    set(draft, 9, 3)?;
    draft.name(alloc, b'L', j)?;
    compute(draft, Op::Add, a, b, c)?;
    draft.put(&Statement::Plain(Inst::Addi {
        a: count,
        dest: count,
        imm: -1,
    }))?;
    draft.put(&Statement::Branch {
        a: count,
        b: Reg::ZERO,
        cond: Cond::Ne,
        target,
    })
}

/// An addition that a branch may skip.
fn skip(alloc: Global, draft: &mut Draft, j: u32, a: Reg, b: Reg, c: Reg) -> Result<(), Memory>
    requires line { draft.old.line < 2 ^ 30 }
    requires few { length draft.old.statements < 19998 }
    requires new { IsNew (83 ∷ decimal j) draft.old.labels }
    ensures { OnOk result (draft.new ≡ skip j a b c draft.old) }
{
    let target = draft.index() + 2;
    draft.put(&Statement::Branch {
        a,
        b,
        cond: Cond::Lt,
        target,
    })?;
    compute(draft, Op::Add, c, b, a)?;
    draft.name(alloc, b'S', j)
}

/// The register of a number.
fn register(n: u32) -> Reg
    requires { n ≤ 31 }
    ensures { result ≡ n }
{
    match Reg::new(n as u8) {
        Some(r) => r,
        None => unreachable!(),
    }
}

/// `addi r0,#n,r`.
fn set(draft: &mut Draft, r: u32, n: i32) -> Result<(), Memory>
    requires register { r ≤ 31 }
    requires line { draft.old.line < 2 ^ 31 }
    ensures { OnOk result (draft.new ≡ put (Statement.Plain (Inst.Addi 0 r n)) draft.old) }
{
    draft.put(&Statement::Plain(Inst::Addi {
        a: Reg::ZERO,
        dest: register(r),
        imm: n,
    }))
}
