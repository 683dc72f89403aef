//! What comes to a run from outside.
ghost use Rattle.std.specs.Prelude.{◌≤◌, vec_len};

use mx_board::Requests;

/// What comes to a run from outside: the bytes of the interrupt file, the requests that they spell, and the bytes of the input.
#[derive(Drop)]
pub struct Stimulus {
    pub cycles: Vec<u8>,
    pub requests: Requests,
    pub input: Vec<u8>,
    ghost within: { vec_len input ≤ 1048576 },
}
