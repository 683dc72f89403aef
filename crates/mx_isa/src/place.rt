//! Where a program stands.
ghost use Rattle.std.specs.Prelude.{◌≢◌, ◌≤◌, ◌<◌};

/// Where a program's code and data stand, as word addresses (this project's profile).
///
/// Code begins at `code`, which is 4096 to 65535. User data are the words from `user_data` to `end - 1`;
/// `end` is at most 65536. A store to `console` sends a byte and a load from `input` takes one;
/// the two differ, and both are below `user_data`.
#[derive(Clone, Copy, Debug, PartialEq, Eq)]
pub struct Place {
    pub code: u32,
    pub user_data: u32,
    pub end: u32,
    pub console: u32,
    pub input: u32,
    ghost code_from: { 4096 ≤ code },
    ghost code_to: { code ≤ 65535 },
    ghost apart: { input ≢ console },
    ghost console_below: { console < user_data },
    ghost input_below: { input < user_data },
    ghost ordered: { user_data ≤ end },
    ghost within: { end ≤ 65536 },
}
