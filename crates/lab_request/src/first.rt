//! The first field that is wrong, and the first key that is no field.
ghost use Rattle.std.specs.Prelude.{◌≡◌, option_map};
ghost use Rattle.serde_json.specs.View.{view, members_view};
ghost use Rattle.lab_request.specs.Fields.{is_field, keys_of, first_unknown, first_wrong};

use crate::checks::fault_of;
use crate::{Field, Wrong};
use serde_json::{Map, Value};

/// The first of the fields that is wrong.
pub fn first_wrong(fields: &[Field], value: &Value) -> Option<Wrong>
    ensures { result ≡ first_wrong fields.now (view value.now) }
{
    for field in fields {
        if let Some(fault) = fault_of(*field, value.get(field.name())) {
            return Some(Wrong {
                field: *field,
                fault,
            });
        }
    }
    None
}

// Whether a key is one of the fields.
fn is_field(fields: &[Field], key: &str) -> bool
    ensures { result ≡ is_field fields.now key.now }
{
    for field in fields {
        if field.name() == key {
            return true;
        }
    }
    false
}

/// The first key that is none of the fields.
pub fn first_unknown<'a>(fields: &[Field], members: &'a Map<String, Value>) -> Option<&'a str>
    ensures { option_map (λ k. k.now) result ≡ first_unknown fields.entry.now (keys_of (members_view members.entry.now.entries)) }
{
    for key in members.keys() {
        if !is_field(fields, key.as_str()) {
            return Some(key.as_str());
        }
    }
    None
}
