//! Words of arguments, and what they stand for.
ghost use Rattle.std.specs.Prelude.{◌≡◌, codes, find, option_map, if◌then◌else◌};
ghost use Rattle.std.specs.Option.{option_map_or};
ghost use Rattle.std.specs.Str.{bytes_eq};

/// The name of standard input, as an argument and as a file.
const STANDARD_INPUT: &str = "-";

const STANDARD_INPUT_FILE: &str = "/dev/stdin";

/// A word, and what it stands for.
#[derive(Clone, Copy)]
pub struct WordRow<T> {
    pub word: &'static str,
    pub means: T,
}

/// What a word stands for, if it is in one of the rows.
pub fn meaning_in<T: Copy>(rows: &[WordRow<T>], word: &str) -> Option<T>
    ensures { result ≡ option_map (λ row. row.means) (find (λ row. bytes_eq row.word.now word.now) rows.now) }
{
    for row in rows {
        if row.word == word {
            return Some(row.means);
        }
    }
    None
}

/// What a word stands for; `other`, where it is in none of the rows.
pub fn meant_by<T: Copy>(rows: &[WordRow<T>], word: &str, other: T) -> T
    ensures { result ≡ option_map_or (λ row. row.means) (find (λ row. bytes_eq row.word.now word.now) rows.now) other }
{
    match meaning_in(rows, word) {
        Some(means) => means,
        None => other,
    }
}

/// The file that an argument names: `-` is standard input.
pub fn file_by<'a>(word: &'a str) -> &'a str
    ensures { result.now ≡ if bytes_eq word.entry.now (codes "-") then codes "/dev/stdin" else word.entry.now }
{
    match word {
        STANDARD_INPUT => STANDARD_INPUT_FILE,
        word => word,
    }
}
