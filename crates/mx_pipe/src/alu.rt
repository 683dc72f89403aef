//! What the word in ALU makes, and where it leads.
ghost use Rattle.std.specs.Prelude.{◌≡◌, ◌==◌, ◌<◌, ◌+◌, ◌%◌, ◌^◌, ℕ, None, Some, true, false, unwrap_or, nat_lt, if◌then◌else◌};
ghost use Rattle.std.specs.Int.{w32, cast_unsigned};
ghost use Rattle.mx_pipe.specs.Terms.{Words, reg, word_of, sources, idle, next_of, ShiftFits, address_of, number_of};
ghost use Rattle.mx_pipe.specs.Latched.{does};
ghost use Rattle.mx_pipe.specs.Made.{allowed, md_behind, md_kept, passed};
ghost use Rattle.mx_pipe.specs.Courses.{course_of, target_of, course_aside};

use crate::Latch;
use crate::fetching::address_of;
use crate::memory::Reached;
use mx_isa::{Inst, Reg, Special, compute, holds};
use mx_pcchain::{Chain, Fetched, Psw};
use mx_turn::{Decided, goes_back, goes_on, goes_to, number_of};

/// Code addresses are below it. As where a word leads at once it stands for none: the word cancels or pops.
// A number for none, since an option would take a register of its own in every cycle.
pub const NOWHERE: u32 = 1 << 31;

/// Where a word in ALU leads: on, and it cancels the two words behind it; in system mode back to the first of the saved
/// fetches; or there and to the other mode; or to an address, which for most is that behind the fetch.
#[derive(Clone, Copy)]
pub enum Course {
    Cancels,
    Pops,
    Returns,
    To(u32),
}

impl Course {
    ghost use Rattle.std.specs.Prelude.{◌≡◌, ◌<◌, ◌^◌, ℕ, IfSome};
    ghost use Rattle.mx_pipe.specs.Courses.{told};

    /// What it decides.
    pub fn decided(self) -> Decided
        requires { (a : ℕ) → self ≡ Course.To a → a < 2 ^ 31 }
        ensures told { result ≡ told self }
        ensures code_address { IfSome result.target (λ a. a < 2 ^ 31) }
    {
        match self {
            Course::To(target) => goes_to(target),
            Course::Cancels => goes_on(true),
            Course::Pops => goes_back(false),
            Course::Returns => goes_back(true),
        }
    }
}

// Whether user code may not do what an instruction does: it moves nothing from the saved fetches.
fn is_refused(user: bool, inst: &Inst) -> bool
    ensures refused { result ≡ true → allowed user inst.now ≡ idle }
    ensures kept { (number : ℕ) (made : ℕ) (md : ℕ) → result ≡ true → md_kept (Some inst.now) number made md ≡ md }
    ensures fine { result ≡ false → allowed user inst.now ≡ inst.now }
{
    match inst {
        Inst::MoveFrom { special, .. } => user && *special != Special::Md,
        _ => false,
    }
}

// An operand in ALU: what the word in MEM passes on to its register, else what was read in RF.
// Of the two words that may have written it since, the one in MEM is the newer.
fn newest(mem: &Reached, r: Reg, before: u32) -> u32
    requires { mem.now.passed ≡ (if mem.now.passes == 0 then 0 else mem.now.word) }
    ensures { (regs : Words) → before ≡ reg regs r → result ≡ passed mem.now.passes mem.now.word r before }
{
    if r.number() == mem.passes.number() {
        mem.passed
    } else {
        before
    }
}

// A number and a displacement.
fn displaced(a: u32, by: i32) -> u32
    ensures { result ≡ word_of (a + cast_unsigned w32 by) }
{
    a.wrapping_add(by.cast_unsigned())
}

// A code address, which is taken modulo 2^31.
fn to(address: u32) -> u32
    ensures { result ≡ address % 2 ^ 31 }
{
    address % NOWHERE
}

// Where a branch that holds leads.
fn taken(at: u32, by: i32) -> u32
    ensures { result ≡ (at + cast_unsigned w32 by) % 2 ^ 31 }
{
    at.wrapping_add(by.cast_unsigned()) % NOWHERE
}

// The address behind the fetch.
fn on(fetch: &Fetched) -> u32
    ensures { result ≡ next_of None fetch.now.address }
{
    to(fetch.address.wrapping_add(1))
}

// Where a branch that does not hold leads.
fn not_taken(squash: bool, fetch: &Fetched) -> u32
    ensures { result ≡ (if squash then 2 ^ 31 else next_of None fetch.now.address) }
{
    if squash { NOWHERE } else { on(fetch) }
}

/// The course of a word in ALU, by what it does and where it leads at once.
pub fn course_at(alu: &Latch, target: u32) -> Course
    ensures course { result ≡ (if nat_lt target (2 ^ 31) then Course.To target else course_aside (does alu.now)) }
    ensures code_address { (a : ℕ) → result ≡ Course.To a → a < 2 ^ 31 }
{
    if target < NOWHERE {
        return Course::To(target);
    }
    match &alu.inst {
        Some(Inst::Jpc) => Course::Pops,
        Some(Inst::Jpcrs) => Course::Returns,
        _ => Course::Cancels,
    }
}

/// The word of RF's latch comes into ALU: it takes its operands, those that it read in RF or newer ones from MEM, makes its
/// number of them, and says where it leads at once, `NOWHERE` where it cancels or pops.
// One match, since each costs a jump in every cycle. It reads the latch that the word leaves, as in MEM.
#[inline(always)]
pub fn make(
    alu: &mut Latch,
    rf: &Latch,
    mem: &Reached,
    md: &u32,
    psw: &Psw,
    chain: &Chain,
    fetch: &Fetched,
) -> u32
    requires { mem.now.passed ≡ (if mem.now.passes == 0 then 0 else mem.now.word) }
    ensures word { alu.new.word ≡ rf.now.word }
    ensures inst { does alu.new ≡ allowed psw.now.current.user (does rf.now) }
    ensures a { (regs : Words) → rf.now.a ≡ reg regs (sources (does rf.now)).0
        → alu.new.a ≡ passed mem.now.passes mem.now.word (sources (does rf.now)).0 rf.now.a }
    ensures b { (regs : Words) → rf.now.b ≡ reg regs (sources (does rf.now)).1
        → alu.new.b ≡ passed mem.now.passes mem.now.word (sources (does rf.now)).1 rf.now.b }
    ensures number { alu.new.result ≡ number_of psw.now.current.user chain.now (does rf.now) (address_of rf.now.word) alu.new.a alu.new.b md.now }
    ensures md { md_kept alu.new.inst alu.new.result alu.new.md md.now ≡ md_behind (does rf.now) alu.new.a alu.new.b md.now }
    ensures target { (regs : Words) → alu.new.a ≡ reg regs (sources (does rf.now)).0 → alu.new.b ≡ reg regs (sources (does rf.now)).1
        → result ≡ target_of (course_of (does rf.now) (address_of rf.now.word) fetch.now.address regs) }
{
    *alu = *rf;
    match &rf.inst {
        Some(Inst::Load { base, offset, .. }) => {
            alu.a = newest(mem, *base, rf.a);
            alu.result = displaced(alu.a, *offset);
        }
        Some(
            Inst::Store {
                base,
                value,
                offset,
            },
        ) => {
            alu.a = newest(mem, *base, rf.a);
            alu.b = newest(mem, *value, rf.b);
            alu.result = displaced(alu.a, *offset);
        }
        Some(
            Inst::Branch {
                a,
                b,
                cond,
                squash,
                by,
            },
        ) => {
            alu.a = newest(mem, *a, rf.a);
            alu.b = newest(mem, *b, rf.b);
            if holds(*cond, alu.a, alu.b) {
                alu.result = 1;
                return taken(address_of(rf.word), *by);
            }
            alu.result = 0;
            return not_taken(*squash, fetch);
        }
        Some(Inst::Compute { a, b, op, .. }) => {
            alu.a = newest(mem, *a, rf.a);
            alu.b = newest(mem, *b, rf.b);
            (alu.result, alu.md) = compute(*op, alu.a, alu.b, *md);
        }
        Some(Inst::Addi { a, imm, .. }) => {
            alu.a = newest(mem, *a, rf.a);
            alu.result = displaced(alu.a, *imm);
        }
        Some(Inst::MoveFrom { dest, special }) => {
            let inst = Inst::MoveFrom {
                dest: *dest,
                special: *special,
            };
            alu.result = number_of(
                &inst,
                address_of(rf.word),
                rf.a,
                rf.b,
                *md,
                psw.current.user,
                chain,
            );
            if is_refused(psw.current.user, &inst) {
                alu.inst = None;
            }
        }
        Some(Inst::MoveTo { a, .. }) => {
            alu.a = newest(mem, *a, rf.a);
            alu.result = alu.a;
        }
        Some(Inst::Jspci { a, imm, .. }) => {
            alu.a = newest(mem, *a, rf.a);
            alu.result = address_of(rf.word) + 3;
            return to(displaced(alu.a, *imm));
        }
        Some(Inst::Jpc) => {
            alu.result = 0;
            return NOWHERE;
        }
        Some(Inst::Jpcrs) => {
            alu.result = 0;
            return NOWHERE;
        }
        Some(Inst::Halt) => alu.result = 0,
        None => alu.result = rf.a.wrapping_add(rf.b),
    }
    on(fetch)
}
