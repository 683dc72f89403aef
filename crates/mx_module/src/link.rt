//! Import and export lines.
ghost use Rattle.std.specs.Prelude.{◌≡◌, map};
ghost use Rattle.std.specs.Option.{option_map};
ghost use Rattle.mx_lines.specs.Shapes.{word};
ghost use Rattle.mx_module.specs.Links;
ghost use Rattle.mx_module.specs.ModuleView.{link_value};

use mx_asm::{begins_label, is_dotted, statement_words};
use mx_lines::{Word, spells};

/// Whether a line imports or exports.
#[derive(Clone, Copy)]
pub enum LinkKind {
    Import,
    Export,
}

/// An import or export line, counted from 1, and the name that it links; none where it is faulty.
#[derive(Clone, Copy)]
pub struct Link<'a> {
    pub number: u32,
    pub kind: LinkKind,
    pub name: Option<&'a [u8]>,
}

/// `.import` or `.export`, in either case.
fn kind_named(name: &[u8]) -> Option<LinkKind>
    ensures { result ≡ Links.kind_named name.now }
{
    if spells(name, ".import") {
        Some(LinkKind::Import)
    } else if spells(name, ".export") {
        Some(LinkKind::Export)
    } else {
        None
    }
}

/// The statement begins with `.import` or `.export`.
pub fn kind_of(statement: &[Word]) -> Option<LinkKind>
    ensures { result ≡ Links.kind_of (map word statement.now) }
{
    match statement {
        [Word::Name(name), ..] => kind_named(name),
        _ => None,
    }
}

/// `..` stands in a name.
fn has_two_dots(name: &[u8]) -> bool
    ensures { result ≡ Links.has_two_dots name.now }
{
    let mut rest = name;
    while let [first, tail @ ..] = rest {
        if begins_two_dots(*first, tail) {
            return true;
        }
        rest = tail;
    }
    false
}

/// A byte and what stands behind it begin with `..`.
fn begins_two_dots(first: u8, tail: &[u8]) -> bool
    ensures { result ≡ Links.begins_two_dots first tail.now }
{
    match tail {
        [second, ..] => first == b'.' && *second == b'.',
        [] => false,
    }
}

/// The name may be imported or exported.
fn may_link(kind: LinkKind, name: &[u8]) -> bool
    ensures { result ≡ Links.may_link kind name.now }
{
    match kind {
        LinkKind::Import => !is_dotted(name),
        LinkKind::Export => !is_dotted(name) && !has_two_dots(name),
    }
}

/// The name in an import or export, if it may be linked.
fn link_name<'a>(kind: LinkKind, statement: &[Word<'a>]) -> Option<&'a [u8]>
    ensures { option_map (λ name. name.now) result ≡ Links.link_name kind (map word statement.now) }
{
    match statement {
        [Word::Name(_), Word::Name(name)] => {
            if may_link(kind, name) {
                Some(name)
            } else {
                None
            }
        }
        _ => None,
    }
}

/// What a line of this kind links.
pub fn linked<'a>(number: u32, kind: LinkKind, words: &[Word<'a>]) -> Link<'a>
    ensures { link_value result ≡ Links.linked number kind (map word words.now) }
{
    let name = if begins_label(words) {
        None
    } else {
        link_name(kind, statement_words(words))
    };
    Link { number, kind, name }
}

/// The line has no label, and imports or exports.
pub fn is_bare_link(words: &[Word]) -> bool
    ensures { result ≡ Links.is_bare_link (map word words.now) }
{
    !begins_label(words) && kind_of(statement_words(words)).is_some()
}
