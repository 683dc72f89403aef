//! Which token of a line shows a fault of it.
ghost use Rattle.std.specs.Prelude.{◌≡◌, ◌≤◌, map, length, IfOk};
ghost use Rattle.mx_lines.specs.Operands.{in_range};
ghost use Rattle.mx_asm.specs.Positions.{line_words};
ghost use Rattle.mx_asm.specs.Positions;
ghost use Rattle.mx_lines.specs.Shapes.{word};
ghost use Rattle.mx_faults.specs.Forms;
ghost use Rattle.mx_faults.specs.Roles;
ghost use Rattle.mx_faults.specs.Showing;
ghost use Rattle.mx_faults.specs.Walking.{kind_by};

use crate::role::{Role, places};
use crate::span::{Span, bad_byte_span, bad_token_span, token_span};
use mx_asm::{Section, is_dotted, statement_words};
use mx_isa::{MAX_DATA_WORDS, Special};
use mx_lines::{Fault, Labels, Word, register_named, special_named};
use mx_source::Label;
use std::alloc::{AllocError, Global};

/// The word is of the kind that stands in the place.
fn suits(role: &Role, found: &Word) -> bool
    ensures { result ≡ Forms.suits (Roles.role role.now) (word found.now) }
{
    match found {
        Word::Name(_) => matches!(
            role,
            Role::Register
                | Role::SpecialName
                | Role::Offset
                | Role::CodeName
                | Role::AnyName
                | Role::DataValue
        ),
        Word::Number { .. } => matches!(
            role,
            Role::Immediate | Role::ShiftCount | Role::Offset | Role::DataValue | Role::WordCount
        ),
        Word::Comma => matches!(role, Role::Comma),
        Word::Open => matches!(role, Role::Open),
        Word::Close => matches!(role, Role::Close),
        Word::Hash => matches!(role, Role::Hash),
        Word::Colon | Word::End => false,
    }
}

/// A name in the place of a register or a special name is none.
fn is_no_register(role: &Role, found: &Word) -> bool
    ensures { result ≡ Forms.is_no_register (Roles.role role.now, word found.now) }
{
    match found {
        Word::Name(name) => match role {
            Role::Register => register_named(name).is_none(),
            Role::SpecialName => special_named(name).is_none(),
            _ => false,
        },
        _ => false,
    }
}

/// A number with its sign is within bounds, of which the lower one is negative.
fn is_within(low: u64, high: u64, negative: bool, value: u64) -> bool
    ensures { result ≡ in_range low high negative value }
{
    if negative {
        value <= low
    } else {
        value <= high
    }
}

/// A number is outside the range of its place.
fn is_outside(role: &Role, found: &Word) -> bool
    ensures { result ≡ Forms.is_outside (Roles.role role.now, word found.now) }
{
    match found {
        Word::Number { negative, value } => match role {
            Role::Immediate | Role::Offset => !is_within(65536, 65535, *negative, *value),
            Role::ShiftCount => !is_within(0, 31, *negative, *value),
            Role::DataValue => !is_within(0x8000_0000, 0xffff_ffff, *negative, *value),
            Role::WordCount => !is_within(0, MAX_DATA_WORDS as u64, *negative, *value),
            _ => false,
        },
        _ => false,
    }
}

/// The section in which the label of this name stands.
fn kind_of(labels: &Labels, name: &[u8]) -> Option<Section>
    ensures { result ≡ kind_by labels.now name.now }
{
    match labels.find(name) {
        Some(Label::Code(_)) => Some(Section::Code),
        Some(Label::Data(_)) => Some(Section::Data),
        None => None,
    }
}

/// A name in the place of a label is none.
fn is_undefined(labels: &Labels, role: &Role, found: &Word) -> bool
    ensures { result ≡ Forms.is_undefined (kind_by labels.now) (Roles.role role.now, word found.now) }
{
    match found {
        Word::Name(name) => match role {
            Role::Offset | Role::CodeName | Role::AnyName | Role::DataValue => {
                kind_of(labels, name).is_none()
            }
            _ => false,
        },
        _ => false,
    }
}

/// A code label as an offset, or a data label as a target.
fn is_wrong_kind(labels: &Labels, role: &Role, found: &Word) -> bool
    ensures { result ≡ Forms.is_wrong_kind (kind_by labels.now) (Roles.role role.now, word found.now) }
{
    match found {
        Word::Name(name) => match role {
            Role::Offset => matches!(kind_of(labels, name), Some(Section::Code)),
            Role::CodeName => matches!(kind_of(labels, name), Some(Section::Data)),
            _ => false,
        },
        _ => false,
    }
}

/// `pc1`, `pc2` or `pc3`.
fn moves_chain(role: &Role, found: &Word) -> bool
    ensures { result ≡ Forms.moves_chain (Roles.role role.now, word found.now) }
{
    match found {
        Word::Name(name) => match role {
            Role::SpecialName => matches!(
                special_named(name),
                Some(Special::Pc1 | Special::Pc2 | Special::Pc3)
            ),
            _ => false,
        },
        _ => false,
    }
}

/// The word in its place shows the fault.
fn shows(labels: &Labels, fault: Fault, role: &Role, found: &Word) -> bool
    ensures { result ≡ Showing.shows (kind_by labels.now) fault (Roles.role role.now, word found.now) }
{
    match fault {
        Fault::BadRegister => is_no_register(role, found),
        Fault::NumberOutOfRange => is_outside(role, found),
        Fault::UndefinedLabel => is_undefined(labels, role, found),
        Fault::WrongLabelKind => is_wrong_kind(labels, role, found),
        Fault::SystemInstruction => moves_chain(role, found),
        _ => false,
    }
}

/// The first word that shows a fault, counted from 1 behind the name of a statement: 0 where none does.
fn first_shown(labels: &Labels, fault: Fault, roles: &[Role], words: &[Word]) -> usize
    ensures place { result ≡ Showing.first_shown (kind_by labels.now) fault 1 (map Roles.role roles.now) (map word words.now) }
    ensures few { result ≤ length words.now }
{
    let mut place = 1;
    let mut left = roles;
    let mut rest = words;
    while let [found, later @ ..] = rest {
        let [role, later_roles @ ..] = left else {
            return 0;
        };
        if shows(labels, fault, role, found) {
            return place;
        }
        place += 1;
        left = later_roles;
        rest = later;
    }
    0
}

/// The first word that does not stand in its place, or has none, counted from 1 behind the name of a statement: 0 where
/// there is none.
fn first_misfit(roles: &[Role], words: &[Word]) -> usize
    ensures place { result ≡ Showing.first_misfit 1 (map Roles.role roles.now) (map word words.now) }
    ensures few { result ≤ length words.now }
{
    let mut place = 1;
    let mut left = roles;
    let mut rest = words;
    while let [found, later @ ..] = rest {
        let [role, later_roles @ ..] = left else {
            return place;
        };
        if !suits(role, found) {
            return place;
        }
        place += 1;
        left = later_roles;
        rest = later;
    }
    0
}

/// A fault of the shape of a statement.
fn is_of_shape(fault: Fault) -> bool
    ensures { result ≡ Showing.is_of_shape fault }
{
    matches!(fault, Fault::BadOperands | Fault::BadDirective)
}

/// The words behind the name of a statement.
fn behind_name<'a, 'w>(statement: &'w [Word<'a>]) -> &'w [Word<'a>]
    ensures words { map word result.now ≡ Showing.behind_name (map word statement.entry.now) }
    ensures few { length result.now ≤ length statement.entry.now }
{
    match statement {
        [] => statement,
        [_, words @ ..] => words,
    }
}

/// The place in a statement of the word that shows a fault.
fn shown_in(
    alloc: Global,
    labels: &Labels,
    fault: Fault,
    statement: &[Word],
) -> Result<usize, AllocError>
    ensures place { IfOk result (λ n. n ≡ Showing.shown_in (kind_by labels.now) fault (map word statement.now)) }
    ensures few { IfOk result (λ n. n ≤ length statement.now) }
{
    let words = behind_name(statement);
    match places(alloc, statement)? {
        Some(roles) => {
            if is_of_shape(fault) {
                Ok(first_misfit(&roles, words))
            } else {
                Ok(first_shown(labels, fault, &roles, words))
            }
        }
        None => Ok(0),
    }
}

/// The place in a line of the word of its statement that shows a fault.
fn statement_place(
    alloc: Global,
    labels: &Labels,
    fault: Fault,
    words: &[Word],
) -> Result<usize, AllocError>
    ensures { IfOk result (λ n. n ≡ Showing.statement_place (kind_by labels.now) fault (map word words.now)) }
{
    let statement = statement_words(words);
    let place = shown_in(alloc, labels, fault, statement)?;
    Ok(words.len().saturating_sub(statement.len()) + place)
}

/// The place of the first name at the front that begins with `.`.
fn first_dotted(words: &[Word]) -> Option<usize>
    ensures { result ≡ Showing.first_dotted 0 (Positions.front_names (map word words.now)) }
{
    let mut place = 0;
    let mut rest = words;
    while let [Word::Name(name), Word::Colon, tail @ ..] = rest {
        if is_dotted(name) {
            return Some(place);
        }
        place += 2;
        rest = tail;
    }
    None
}

/// The place of the token that shows a fault, where a label at the front is defined again at the place `repeated`.
fn place_of(
    alloc: Global,
    labels: &Labels,
    repeated: Option<usize>,
    words: &[Word],
    fault: Fault,
) -> Result<Option<usize>, AllocError>
    ensures { IfOk result (λ o. o ≡ Showing.place_of repeated (kind_by labels.now) (map word words.now) fault) }
{
    match fault {
        Fault::DuplicateLabel => Ok(repeated),
        Fault::BadDirective => match first_dotted(words) {
            Some(place) => Ok(Some(place)),
            None => Ok(Some(statement_place(alloc, labels, fault, words)?)),
        },
        Fault::TooManyInstructions | Fault::DataFull | Fault::LineTooLong => Ok(None),
        _ => Ok(Some(statement_place(alloc, labels, fault, words)?)),
    }
}

/// The bytes of the token at a place, if there is a place.
fn span_at(line: &[u8], place: Option<usize>) -> Option<Span>
    ensures { result ≡ Showing.span_at line.now place }
{
    match place {
        Some(place) => token_span(line, place),
        None => None,
    }
}

/// The bytes of a line that show a fault of it.
pub fn fault_span(
    alloc: Global,
    labels: &Labels,
    repeated: Option<usize>,
    line: &[u8],
    words: &[Word],
    fault: Fault,
) -> Result<Option<Span>, AllocError>
    requires { map word words.now ≡ line_words line.now }
    ensures { IfOk result (λ o. o ≡ Showing.span_by repeated (kind_by labels.now) line.now fault) }
{
    match fault {
        Fault::BadByte => Ok(Some(bad_byte_span(line))),
        Fault::BadToken => Ok(bad_token_span(line)),
        _ => Ok(span_at(line, place_of(alloc, labels, repeated, words, fault)?)),
    }
}
