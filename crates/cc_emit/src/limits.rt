//! How large a source may be.
ghost use Rattle.std.specs.Prelude.{◌≤◌, IfErr, OnOk};
ghost use Rattle.cc_emit.specs.Errors.{IsTooMany};

use crate::error::TranslateError;

/// How many statements a source has at most.
pub const MOST_STATEMENTS: u32 = 20_000;

/// How many words of data a source has at most, without those that are left for heap and stack.
const MOST_WORDS: u64 = 63_232;

/// Refuses so many statements, where there are too many. The name is that of the function with which there were.
pub fn limit_statements(statements: u32, crossing: Option<&[u8]>) -> Result<(), TranslateError<'_>>
    ensures refused { IfErr result (λ e. IsTooMany e) }
    ensures few { OnOk result (statements ≤ MOST_STATEMENTS) }
{
    if statements > MOST_STATEMENTS {
        return Err(TranslateError::Statements(statements, crossing));
    }
    Ok(())
}

/// Refuses so many words of data, where there are too many.
pub fn limit_words<'a>(words: u64) -> Result<(), TranslateError<'a>>
    ensures refused { IfErr result (λ e. IsTooMany e) }
    ensures few { OnOk result (words ≤ MOST_WORDS) }
{
    if words > MOST_WORDS {
        return Err(TranslateError::Words(words));
    }
    Ok(())
}
