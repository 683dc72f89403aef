//! The place of the board.
ghost use Rattle.std.specs.Prelude.{◌≡◌};
ghost use Rattle.mx_isa.specs.Board.{board};

use crate::place::Place;

/// The address of the first word of code.
pub const CODE_BASE: u32 = 4096;

/// The address of the first word of user data.
pub const DATA_BASE: u32 = 256;

/// The address after the last word of user data: data addresses have 16 bits.
pub const DATA_END: u32 = 65_536;

/// The address of the console.
pub const CONSOLE: u32 = 255;

/// The address of the input.
pub const INPUT: u32 = 254;

/// The last address that the board has for data, and that a link has.
pub const LAST_ADDRESS: u32 = 65_535;

/// How many statements a source has at most.
pub const MAX_STATEMENTS: usize = 20_000;

/// How many code words an image has at most: three for each statement.
pub const MAX_CODE_WORDS: usize = 60_000;

/// How many data words an image has at most: those of user data.
pub const MAX_DATA_WORDS: usize = 65_280;

/// The place of the board.
pub const BOARD: Place = Place {
    code: CODE_BASE,
    user_data: DATA_BASE,
    end: DATA_END,
    console: CONSOLE,
    input: INPUT,
};

impl Place {
    /// The place of the board.
    pub fn board() -> Place
        ensures { result ≡ board }
    {
        BOARD
    }
}
