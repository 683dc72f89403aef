//! What the places of linked code are.
ghost use Rattle.std.specs.Prelude.{◌≡◌};
ghost use Rattle.lab_terms.specs.Places.{is_transfer, is_load, is_own, is_word, earlier, slot_at, place_at};
ghost use Rattle.lab_terms.specs.Places.{place_of, statement_of, slot_of, number_of, is_noop, kind_text, why_text, words_text};

use mx_link::Origin;
use mx_source::Statement;

/// A slot behind a transfer.
#[derive(Clone, Copy)]
pub enum Slot {
    First,
    Second,
}

/// What a place of the code is.
#[derive(Clone, Copy)]
pub enum Place {
    /// A statement's own word.
    Own(u32),
    /// A statement's own word, moved behind its block's transfer.
    OwnInSlot(u32, Slot),
    /// A copy of the word of a statement where the transfer leads.
    Copied(u32, Slot),
    /// A no-op behind a load: nothing else could stand there.
    BehindLoad,
    /// A no-op in a slot: nothing fitted.
    EmptySlot(Slot),
    /// Another no-op that was put in.
    Padding,
}

/// Whether a statement has two slots after it.
pub(crate) fn is_transfer(statement: &Statement) -> bool
    ensures { result ≡ is_transfer statement.now }
{
    matches!(
        statement,
        Statement::Branch { .. }
            | Statement::Call { .. }
            | Statement::CallReg { .. }
            | Statement::JumpReg { .. }
    )
}

/// Whether a statement is a load.
pub(crate) fn is_load(statement: &Statement) -> bool
    ensures { result ≡ is_load statement.now }
{
    match statement {
        Statement::Plain(inst) => inst.is_load(),
        _ => false,
    }
}

/// Whether a transfer has its own word there.
pub(crate) fn is_own_transfer(statements: &[Statement], from: Option<Origin>) -> bool
    ensures { result ≡ is_own is_transfer statements.now from }
{
    let Some(Origin::Own(number)) = from else {
        return false;
    };
    match statements.get(number as usize) {
        Some(statement) => is_transfer(statement),
        None => false,
    }
}

/// Whether a load has its own word there.
pub(crate) fn is_own_load(statements: &[Statement], from: Option<Origin>) -> bool
    ensures { result ≡ is_own is_load statements.now from }
{
    let Some(Origin::Own(number)) = from else {
        return false;
    };
    match statements.get(number as usize) {
        Some(statement) => is_load(statement),
        None => false,
    }
}

/// Whether a load is there, or a copy of one.
fn is_load_there(statements: &[Statement], from: Option<Origin>) -> bool
    ensures { result ≡ is_word is_load statements.now from }
{
    let (Some(Origin::Own(number)) | Some(Origin::Copy(number))) = from else {
        return false;
    };
    match statements.get(number as usize) {
        Some(statement) => is_load(statement),
        None => false,
    }
}

/// Where the word so many before another comes from, if there is one.
fn earlier(origin: &[Origin], at: usize, words: usize) -> Option<Origin>
    ensures { result ≡ earlier origin.now at words }
{
    let earlier = at.checked_sub(words)?;
    origin.get(earlier).copied()
}

/// The slot that a place is, if it is one.
fn slot_at(statements: &[Statement], origin: &[Origin], at: usize) -> Option<Slot>
    ensures { result ≡ slot_at statements.now origin.now at }
{
    if is_own_transfer(statements, earlier(origin, at, 1)) {
        Some(Slot::First)
    } else if is_own_transfer(statements, earlier(origin, at, 2)) {
        Some(Slot::Second)
    } else {
        None
    }
}

/// What a place is, by where its word comes from, its slot, and whether a load stands before it.
fn place_of(from: Origin, slot: Option<Slot>, behind_load: bool) -> Place
    ensures { result ≡ place_of from slot behind_load }
{
    match (from, slot) {
        (Origin::Own(statement), None) | (Origin::Copy(statement), None) => Place::Own(statement),
        (Origin::Own(statement), Some(slot)) => Place::OwnInSlot(statement, slot),
        (Origin::Copy(statement), Some(slot)) => Place::Copied(statement, slot),
        (Origin::Pad, Some(slot)) => Place::EmptySlot(slot),
        (Origin::Pad, None) if behind_load => Place::BehindLoad,
        (Origin::Pad, None) => Place::Padding,
    }
}

/// What a place of the code is.
pub fn place_at(statements: &[Statement], origin: &[Origin], at: usize) -> Option<Place>
    ensures { result ≡ place_at statements.now origin.now at }
{
    let from = origin.get(at).copied()?;
    let behind_load = is_load_there(statements, earlier(origin, at, 1));
    Some(place_of(from, slot_at(statements, origin, at), behind_load))
}

impl Slot {
    /// Its number.
    fn number(self) -> u32
        ensures { result ≡ number_of self }
    {
        match self {
            Slot::First => 1,
            Slot::Second => 2,
        }
    }
}

impl Place {
    /// The statement that the word comes from.
    pub fn statement(self) -> Option<u32>
        ensures { result ≡ statement_of self }
    {
        match self {
            Place::Own(statement) | Place::OwnInSlot(statement, _) | Place::Copied(statement, _) =>
                Some(statement),
            Place::BehindLoad | Place::EmptySlot(_) | Place::Padding => None,
        }
    }

    /// The number of the slot, 1 or 2; 0 where it is none.
    pub fn slot(self) -> u32
        ensures { result ≡ slot_of self }
    {
        match self {
            Place::OwnInSlot(_, slot) | Place::Copied(_, slot) | Place::EmptySlot(slot) => {
                slot.number()
            }
            Place::Own(_) | Place::BehindLoad | Place::Padding => 0,
        }
    }

    /// Whether the word is a no-op that was put in.
    pub fn is_noop(self) -> bool
        ensures { result ≡ is_noop self }
    {
        matches!(
            self,
            Place::BehindLoad | Place::EmptySlot(_) | Place::Padding
        )
    }

    /// What the word is: a statement's own, a copy of it, or a no-op.
    pub fn kind(self) -> &'static str
        ensures { result.now ≡ kind_text self }
    {
        match self {
            Place::Own(_) | Place::OwnInSlot(..) => "own",
            Place::Copied(..) => "copy",
            Place::BehindLoad | Place::EmptySlot(_) | Place::Padding => "noop",
        }
    }

    /// Why a no-op stands there; empty where the word is none.
    pub fn why(self) -> &'static str
        ensures { result.now ≡ why_text self }
    {
        match self {
            Place::BehindLoad => "load",
            Place::EmptySlot(_) => "slot",
            Place::Padding => "padding",
            Place::Own(_) | Place::OwnInSlot(..) | Place::Copied(..) => "",
        }
    }

    /// What the place is, in words.
    pub fn words(self) -> &'static str
        ensures { result.now ≡ words_text self }
    {
        match self {
            Place::Own(_) => "",
            Place::OwnInSlot(_, Slot::First) => "moved into slot 1",
            Place::OwnInSlot(_, Slot::Second) => "moved into slot 2",
            Place::Copied(_, Slot::First) => "copied into slot 1",
            Place::Copied(_, Slot::Second) => "copied into slot 2",
            Place::BehindLoad => "no-op behind a load",
            Place::EmptySlot(Slot::First) => "no-op: nothing fitted into slot 1",
            Place::EmptySlot(Slot::Second) => "no-op: nothing fitted into slot 2",
            Place::Padding => "no-op",
        }
    }
}
