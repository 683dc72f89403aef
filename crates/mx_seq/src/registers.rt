//! The registers of a program.
ghost use Rattle.std.specs.Prelude.{◌≡◌};

use mx_isa::Reg;
use mx_source::Value;
use std::marker::Model;

/// What each register holds; r0 always holds 0.
#[derive(Drop)]
pub(crate) struct Registers {
    values: [Value; 32],
}

impl Model for Registers {
    ghost use Rattle.std.specs.Prelude.{List};
    ghost use Rattle.mx_source.specs.declared.statement.Value.{Value as AValue};
    ghost use Rattle.mx_seq.specs.Lists.{IsFile};

    ghost Value = { List AValue };

    ghost view = { λ r. r.values };

    ghost invariant = { λ r. IsFile r.values };
}

impl Registers {
    ghost use Rattle.mx_source.specs.Values.{value_in, write_value};
    ghost use Rattle.mx_seq.specs.Lists.{values_of, nothing};

    /// All 0.
    pub(crate) fn new() -> Registers
        ensures { values_of result ≡ nothing }
    {
        Registers {
            values: [Value::Int(0); 32],
        }
    }

    /// What a register holds.
    pub(crate) fn get(&self, r: Reg) -> Value
        ensures { result ≡ value_in (values_of self.now) r }
    {
        self.values[r.number() as usize]
    }

    /// Puts a value into a register; r0 stays 0.
    pub(crate) fn set(&mut self, r: Reg, value: Value)
        ensures { values_of self.new ≡ write_value (values_of self.old) r value }
    {
        let n = r.number();
        if n != 0 {
            self.values[n as usize] = value;
        }
    }
}
