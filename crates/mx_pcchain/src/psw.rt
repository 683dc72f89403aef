//! Modes, the current one and the one to return to.
ghost use Rattle.std.specs.Prelude.{◌≡◌};
ghost use Rattle.mx_pcchain.specs.Modes.{psw_at_start, psw_entered, psw_restored};

/// A mode: user or system, with interrupts on or off.
#[derive(Clone, Copy, Debug, PartialEq, Eq)]
pub struct Mode {
    pub user: bool,
    pub interrupts: bool,
}

/// The current mode, and the other one, which `jpcrs` restores.
#[derive(Clone, Copy, Debug, PartialEq, Eq)]
pub struct Psw {
    pub current: Mode,
    pub other: Mode,
}

impl Psw {
    /// User mode with interrupts on; the other mode is system mode with interrupts off.
    pub fn start() -> Psw
        ensures { result ≡ psw_at_start }
    {
        Psw {
            current: Mode {
                user: true,
                interrupts: true,
            },
            other: Mode {
                user: false,
                interrupts: false,
            },
        }
    }

    /// An interrupt is taken: the current mode is kept as the other one, and system mode with
    /// interrupts off becomes current.
    pub fn enter(&mut self)
        ensures { self.new ≡ psw_entered self.old }
    {
        self.other = self.current;
        self.current = Mode {
            user: false,
            interrupts: false,
        };
    }

    /// The other mode becomes current, and stays the other one.
    pub fn restore(&mut self)
        ensures { self.new ≡ psw_restored self.old }
    {
        self.current = self.other;
    }
}
