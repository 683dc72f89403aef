//! What stands in a document.
ghost use Rattle.std.specs.Prelude.{◌≡◌, MatchOption};

/// A value that is neither an object nor a list.
#[derive(Clone, Copy)]
pub enum Value<'a> {
    Null,
    Flag(bool),
    Number(u64),
    Signed(i64),
    Text(&'a str),
}

impl Value<'_> {
    /// A number, or null.
    pub fn number(number: Option<u64>) -> Value<'static>
        ensures { MatchOption number (result ≡ Value.Null) (λ n. result ≡ Value.Number n) }
    {
        match number {
            Some(number) => Value::Number(number),
            None => Value::Null,
        }
    }

    /// A number with a sign, or null.
    pub fn signed(number: Option<i64>) -> Value<'static>
        ensures { MatchOption number (result ≡ Value.Null) (λ n. result ≡ Value.Signed n) }
    {
        match number {
            Some(number) => Value::Signed(number),
            None => Value::Null,
        }
    }
}
