//! The registers, and what a word sees of them.
ghost use Rattle.std.specs.Prelude.{◌≡◌, ◌==◌, slice_index, if◌then◌else◌};
ghost use Rattle.mx_isa.specs.Words.{reg, write};
ghost use Rattle.mx_isa.specs.Effect.{offset_by};
ghost use Rattle.mx_turn.specs.System.{no_slot, seen};

use mx_isa::Reg;
use mx_pcchain::Chain;
use std::marker::Model;

/// A register that the next word still sees with an old value, since a load has just written it; r0 for none.
#[derive(Clone, Copy, Debug, PartialEq, Eq)]
pub struct LoadSlot {
    pub register: Reg,
    pub value: u32,
}

impl Model for LoadSlot {
    ghost use Rattle.mx_turn.specs.System.{Slot};

    ghost Value = { Slot };

    ghost view = { λ s. record { register = s.register; value = s.value } };

    ghost inverse = { λ s. record { register = s.register; value = s.value } };
}

/// What a word that commits finds and leaves beside the data: the register file, the load that the next word does not see, MD,
/// and the saved fetches.
#[derive(Clone, Copy)]
pub struct Registers {
    pub file: [u32; 32],
    pub slot: LoadSlot,
    pub md: u32,
    pub chain: Chain,
}

impl Registers {
    /// A register as the next word sees it.
    pub fn sees(&self, r: Reg) -> u32
        ensures { result ≡ reg (seen self.now.slot (slice_index self.now.file)) r }
    {
        sees(&self.file, &self.slot, r)
    }

    /// A register as the next word sees it, and an offset.
    pub fn address_of(&self, base: Reg, offset: i32) -> u32
        ensures { result ≡ offset_by (seen self.now.slot (slice_index self.now.file)) base offset }
    {
        self.sees(base).wrapping_add(offset.cast_unsigned())
    }
}

/// No register was loaded.
pub fn no_slot() -> LoadSlot
    ensures { result ≡ no_slot }
{
    LoadSlot {
        register: Reg::ZERO,
        value: 0,
    }
}

/// A register's value; r0 reads 0.
pub fn read(file: &[u32; 32], r: Reg) -> u32
    ensures { result ≡ reg (slice_index file.now) r }
{
    let n = r.number();
    if n == 0 { 0 } else { file[n as usize] }
}

/// Writes a register; r0 is not written.
pub fn set(file: &mut [u32; 32], r: Reg, value: u32)
    ensures { slice_index file.new ≡ write (slice_index file.old) r value }
{
    let n = r.number();
    if n != 0 {
        file[n as usize] = value;
    }
}

/// A register as the next word sees it.
pub fn sees(file: &[u32; 32], slot: &LoadSlot, r: Reg) -> u32
    ensures { result ≡ reg (seen slot.now (slice_index file.now)) r }
{
    if r.number() == slot.register.number() {
        seen_slot(slot)
    } else {
        read(file, r)
    }
}

// The old value of the register in the slot.
fn seen_slot(slot: &LoadSlot) -> u32
    ensures { result ≡ (if slot.now.register == 0 then 0 else slot.now.value) }
{
    if slot.register.number() == 0 {
        0
    } else {
        slot.value
    }
}
