//! The registers of a machine.
ghost use Rattle.std.specs.Prelude.{◌≡◌, ◌≤◌, ◌<◌, ℕ, List, Bool, map, slice_index};
ghost use Rattle.std.specs.List.{range_with_len};
ghost use Rattle.mx_isa.specs.Words.{reg};
ghost use Rattle.mx_turn.specs.Program.{Program, state_after};

use mx_isa::Reg;
use mx_turn::Machine;

// The value of the register of this number.
fn register_at<M: Machine>(machine: &M, n: u8) -> u32
    requires { n ≤ 31 }
    ensures { (p : Program) (h : List Bool) → M.stands machine.now p h → result ≡ reg (state_after p h).core.regs n }
{
    match Reg::new(n) {
        Some(register) => machine.register(register),
        None => 0,
    }
}

/// The values of all registers, in their order.
pub fn registers_of<M: Machine>(machine: &M) -> [u32; 32]
    ensures all { (p : Program) (h : List Bool) → M.stands machine.now p h → result ≡ map (reg (state_after p h).core.regs) (range_with_len 0 32) }
    ensures each { (p : Program) (h : List Bool) → M.stands machine.now p h
        → (k : ℕ) → k < 32 → slice_index result k ≡ reg (state_after p h).core.regs k }
{
    let mut registers = [0; 32];
    for n in 0..32u8 {
        registers[n as usize] = register_at(machine, n);
    }
    registers
}
