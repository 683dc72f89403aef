//! What the word in MEM does, as a whole.
ghost use Rattle.std.specs.Prelude.{◌≡◌, ◌≢◌, ◌<◌, ◌^◌, slice_index, cond, suc, None, false, if◌then◌else◌};
ghost use Rattle.mx_isa.specs.Arithmetic.{CountFits};
ghost use Rattle.mx_isa.specs.Words.{reg, write};
ghost use Rattle.mx_isa.specs.Effect.{stored, sent, or_kept};
ghost use Rattle.mx_isa.specs.Views.{is_halt, is_md};
ghost use Rattle.mx_pcchain.specs.Chain.{special, with_special};
ghost use Rattle.mx_board.specs.Data.{board, words_of};
ghost use Rattle.mx_turn.specs.Decoded.{ShiftFits};
ghost use Rattle.mx_turn.specs.System.{moved, no_slot, slot_of, seen};
ghost use Rattle.mx_turn.specs.Commits.{change_of};

use crate::registers::{LoadSlot, Registers, no_slot, read, set};
use mx_board::Board;
use mx_isa::{Inst, Op, Reg, Special, compute};
use mx_pcchain::Chain;

/// What the machine learns of a word that commits: the byte that it sends, and whether it is a halt.
#[derive(Clone, Copy)]
pub struct Committed {
    pub byte: Option<u8>,
    pub halted: bool,
}

impl Registers {
    // The word is no load, and this is learned of it.
    fn learned(&mut self, byte: Option<u8>, halted: bool) -> Committed
        ensures answer { result ≡ record { byte = byte; halted = halted } }
        ensures state { self.new ≡ record self.old { slot = no_slot } }
    {
        self.slot = no_slot();
        Committed { byte, halted }
    }

    // The word is no load, and nothing but its change is learned of it.
    fn plain(&mut self) -> Committed
        ensures answer { result ≡ record { byte = None; halted = false } }
        ensures state { self.new ≡ record self.old { slot = no_slot } }
    {
        self.learned(None, false)
    }

    // A register takes a word, and nothing else is learned.
    fn put(&mut self, dest: Reg, word: u32) -> Committed
        ensures answer { result ≡ record { byte = None; halted = false } }
        ensures regs { slice_index self.new.file ≡ write (slice_index self.old.file) dest word }
        ensures slot { self.new.slot ≡ no_slot }
        ensures md { self.new.md ≡ self.old.md }
        ensures chain { self.new.chain ≡ self.old.chain }
    {
        set(&mut self.file, dest, word);
        self.plain()
    }

    // A register takes a loaded word, which the next word does not see.
    fn load(&mut self, dest: Reg, word: u32) -> Committed
        ensures answer { result ≡ record { byte = None; halted = false } }
        ensures regs { slice_index self.new.file ≡ write (slice_index self.old.file) dest word }
        ensures slot { self.new.slot ≡ record { register = dest; value = reg (slice_index self.old.file) dest } }
        ensures md { self.new.md ≡ self.old.md }
        ensures chain { self.new.chain ≡ self.old.chain }
    {
        let value = read(&self.file, dest);
        set(&mut self.file, dest, word);
        self.slot = LoadSlot {
            register: dest,
            value,
        };
        Committed {
            byte: None,
            halted: false,
        }
    }

    // A register takes MD, or a saved fetch in system mode.
    fn move_from(&mut self, dest: Reg, name: Special, user: bool) -> Committed
        ensures answer { result ≡ record { byte = None; halted = false } }
        ensures regs { let old = slice_index self.old.file in
            slice_index self.new.file ≡ (if is_md name then write old dest self.old.md
            else (if user then old else write old dest (special self.old.chain name))) }
        ensures slot { self.new.slot ≡ no_slot }
        ensures md { self.new.md ≡ self.old.md }
        ensures chain { self.new.chain ≡ self.old.chain }
    {
        match name {
            Special::Md => set(&mut self.file, dest, self.md),
            Special::Pc1 => from_chain(dest, self.chain.pc1, user, &mut self.file),
            Special::Pc2 => from_chain(dest, self.chain.pc2, user, &mut self.file),
            Special::Pc3 => from_chain(dest, self.chain.pc3, user, &mut self.file),
        }
        self.plain()
    }

    /// The word in MEM, at an address, commits: its registers, MD, data and chain.
    // Once a cycle: a call costs a third of it, since what comes back is read in other widths than it is written in.
    #[inline(always)]
    pub fn commit(&mut self, inst: &Inst, at: u32, user: bool, memory: &mut Board) -> Committed
        requires fits { ShiftFits inst.now }
        requires code_address { at < 2 ^ 31 }
        ensures regs { let c = change_of user self.old inst.now at memory.old in
            slice_index self.new.file ≡ write (slice_index self.old.file) c.dest c.value }
        ensures md { self.new.md ≡ or_kept (change_of user self.old inst.now at memory.old).new_md self.old.md }
        ensures words { let c = change_of user self.old inst.now at memory.old in
            words_of memory.new ≡ stored (board user memory.old.input) c.stores (words_of memory.old) }
        ensures input { memory.new.input ≡ memory.old.input }
        ensures taken { memory.new.taken ≡ cond (change_of user self.old inst.now at memory.old).takes (suc memory.old.taken) memory.old.taken }
        ensures byte { result.byte ≡ sent (board user memory.old.input) (change_of user self.old inst.now at memory.old).stores }
        ensures slot { self.new.slot ≡ slot_of inst.now (slice_index self.old.file) }
        ensures chain { self.new.chain ≡ moved user inst.now (seen self.old.slot (slice_index self.old.file)) self.old.chain }
        ensures halted { result.halted ≡ is_halt inst.now }
    {
        match inst {
            Inst::Load { base, dest, offset } => {
                let address = self.address_of(*base, *offset);
                let word = memory.load(address, user);
                self.load(*dest, word)
            }
            Inst::Store {
                base,
                value,
                offset,
            } => {
                let address = self.address_of(*base, *offset);
                let byte = memory.store(address, self.sees(*value), user);
                self.learned(byte, false)
            }
            Inst::Branch { .. } => self.plain(),
            Inst::Compute { a, dest, b, op } => {
                let (value, new_md) = compute(*op, self.sees(*a), self.sees(*b), self.md);
                self.md = new_md;
                self.put(*dest, value)
            }
            Inst::Addi { a, dest, imm } => {
                let value = self.address_of(*a, *imm);
                self.put(*dest, value)
            }
            Inst::MoveFrom { dest, special } => self.move_from(*dest, *special, user),
            Inst::MoveTo { a, special } => {
                let word = self.sees(*a);
                move_to(word, *special, user, &mut self.md, &mut self.chain);
                self.plain()
            }
            Inst::Jspci { a: _, dest, imm: _ } => self.put(*dest, at + 3),
            Inst::Jpc => self.plain(),
            Inst::Jpcrs => self.plain(),
            Inst::Halt => self.learned(None, true),
        }
    }
}

// A register takes a saved fetch, in system mode.
fn from_chain(dest: Reg, word: u32, user: bool, file: &mut [u32; 32])
    ensures { slice_index file.new ≡ (if user then slice_index file.old else write (slice_index file.old) dest word) }
{
    if !user {
        set(file, dest, word);
    }
}

/// MD takes a word, or a saved fetch does in system mode.
pub fn move_to(word: u32, special: Special, user: bool, md: &mut u32, chain: &mut Chain)
    ensures md { md.new ≡ (if is_md special then word else md.old) }
    ensures chain { chain.new ≡ (if user then chain.old else with_special chain.old special word) }
{
    match special {
        Special::Md => *md = word,
        Special::Pc1 => to_chain(word, Special::Pc1, user, chain),
        Special::Pc2 => to_chain(word, Special::Pc2, user, chain),
        Special::Pc3 => to_chain(word, Special::Pc3, user, chain),
    }
}

// A saved fetch takes a word, in system mode.
fn to_chain(word: u32, special: Special, user: bool, chain: &mut Chain)
    requires { special ≢ Special.Md }
    ensures { chain.new ≡ (if user then chain.old else with_special chain.old special word) }
{
    if !user {
        chain.write(special, word);
    }
}
