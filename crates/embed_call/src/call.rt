//! What a call gives.

/// A command, and the files that it may read. Each is bytes that are lent for the call.
#[repr(C)]
#[derive(Clone, Copy, Debug)]
pub struct Call<'a> {
    /// The words of the command, in UTF-8, one on each line.
    pub words: &'a [u8],
    /// The file `source`.
    pub source: &'a [u8],
    /// The file `second`.
    pub second: &'a [u8],
    /// The file `input`.
    pub input: &'a [u8],
    /// The file `interrupts`.
    pub interrupts: &'a [u8],
    /// The file `image`.
    pub image: &'a [u8],
}
