//! The data words of a program.
ghost use Rattle.std.specs.Prelude.{◌≡◌, ◌+◌, ◌≤◌, ◌<◌, length, IfOk};
ghost use Rattle.mx_source.specs.Values.{put_value};
ghost use Rattle.mx_source.specs.Meaning.{start_words};
ghost use Rattle.mx_seq.specs.Lists.{values_of};

use mx_source::{Memory, Place, Value};
use std::alloc::{AllocError, Global};
use std::marker::Model;

/// What each address up to a place's last one holds; 0 below its user data.
#[derive(Drop)]
pub(crate) struct UserData {
    words: Vec<Value>,
}

impl Model for UserData {
    ghost use Rattle.std.specs.Prelude.{List};
    ghost use Rattle.mx_source.specs.declared.statement.Value.{Value as AValue};

    ghost Value = { List AValue };

    ghost view = { λ d. d.words.items };
}

impl UserData {
    /// These words from the first word of user data on, and 0 after them.
    pub(crate) fn new(alloc: Global, place: Place, words: &[Value]) -> Result<UserData, Memory>
        requires { place.user_data + length words.now ≤ place.end }
        ensures words { IfOk result (λ d. values_of d ≡ start_words place words.now) }
        ensures len { IfOk result (λ d. length d ≡ place.end) }
    {
        match filled(alloc, place, words) {
            Ok(words) => Ok(UserData { words }),
            Err(_) => Err(Memory),
        }
    }

    /// What an address holds.
    pub(crate) fn get(&self, address: u32) -> Value
        requires { address < length self.now }
        ensures { result ≡ values_of self.now address }
    {
        self.words[address as usize]
    }

    /// Puts a value at an address.
    pub(crate) fn set(&mut self, address: u32, value: Value)
        requires { address < length self.old }
        ensures words { values_of self.new ≡ put_value (values_of self.old) address value }
        ensures len { length self.new ≡ length self.old }
    {
        self.words[address as usize] = value;
    }
}

/// Zeros below the user data, the words, and zeros up to the end.
fn filled(alloc: Global, place: Place, words: &[Value]) -> Result<Vec<Value>, AllocError>
    requires { place.user_data + length words.now ≤ place.end }
    ensures words { IfOk result (λ d. values_of d.items ≡ start_words place words.now) }
    ensures len { IfOk result (λ d. length d.items ≡ place.end) }
{
    let mut all = Vec::with_capacity(alloc, place.end as usize)?;
    all.resize(place.user_data as usize, Value::Int(0))?;
    all.extend_from_slice(words)?;
    all.resize(place.end as usize, Value::Int(0))?;
    Ok(all)
}
