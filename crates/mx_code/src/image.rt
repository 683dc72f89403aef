//! Images.
ghost use Rattle.std.specs.Prelude.{◌≡◌, ◌≤◌, ◌↔◌, IsSome, IfSome, vec_len};
ghost use Rattle.mx_isa.specs.declared.board.TheConstants.{MAX_CODE_WORDS, MAX_DATA_WORDS};

use mx_isa::{MAX_CODE_WORDS, MAX_DATA_WORDS};

/// The words of a program as they are loaded: code from address 4096 and data from word 256 of the board.
/// At most 60,000 code words and 65,280 data words.
#[derive(Debug, PartialEq, Eq, Drop)]
pub struct Image {
    /// Code words. Any word is allowed; one that spells no instruction does nothing.
    pub code: Vec<u32>,
    /// Data words.
    pub user_data: Vec<u32>,
    ghost code_within: { vec_len code ≤ MAX_CODE_WORDS },
    ghost data_within: { vec_len user_data ≤ MAX_DATA_WORDS },
}

impl Image {
    /// The image of these words; None exactly where they are too many.
    pub fn new(code: Vec<u32>, user_data: Vec<u32>) -> Option<Image>
        ensures within { IsSome result ↔ ((vec_len code ≤ MAX_CODE_WORDS) × (vec_len user_data ≤ MAX_DATA_WORDS)) }
        ensures code { IfSome result (λ image. image.code ≡ code) }
        ensures user_data { IfSome result (λ image. image.user_data ≡ user_data) }
    {
        if code.len() <= MAX_CODE_WORDS && user_data.len() <= MAX_DATA_WORDS {
            Some(Image { code, user_data })
        } else {
            None
        }
    }
}
