//! The names of places.
ghost use Rattle.std.specs.Prelude.{◌≡◌, ◌<◌, ℕ, [], length, map, replicate, None, Some, IfOk, slice_index, slice_get, unwrap_or, if◌then◌else◌};
ghost use Rattle.indexmap.specs.IndexMap.{values};
ghost use Rattle.mx_source.specs.Names.{named_labels};
ghost use Rattle.lab_words.specs.Naming.{NameAlike, naming, names_of, lent_name, name_at, tabled, aim_of, aim_at};
ghost use Rattle.lab_words.specs.Tables.{place_of, code_offset, data_offset, entry, offset_is, first_from};
ghost use Rattle.std.specs.Option.{option_or, option_and_then};

use indexmap::IndexMap;
use mx_isa::{CODE_BASE, DATA_BASE};
use mx_source::{Label, Name, Source, Statement};
use std::alloc::{AllocError, Global};

/// What a label names.
#[derive(Clone, Copy)]
pub enum NamedPlace {
    /// The address of a code word.
    Code(u32),
    /// The address of a data word.
    Data(u32),
}

/// The labels of a linked source, and for each code and data word the one that names it.
#[derive(Drop)]
pub struct PlaceNames<'a> {
    labels: &'a IndexMap<Name, Label>,
    places: Vec<NamedPlace>,
    code: Vec<Option<usize>>,
    user_data: Vec<Option<usize>>,
    aims: Vec<Option<u32>>,
}

impl NamedPlace {
    /// How far a place of code stands behind the first word of code.
    fn code_offset(self) -> Option<u32>
        ensures { result ≡ code_offset self }
    {
        match self {
            NamedPlace::Code(address) => address.checked_sub(CODE_BASE),
            NamedPlace::Data(_) => None,
        }
    }

    /// How far a place of data stands behind the first word of user data.
    fn data_offset(self) -> Option<u32>
        ensures { result ≡ data_offset self }
    {
        match self {
            NamedPlace::Data(address) => address.checked_sub(DATA_BASE),
            NamedPlace::Code(_) => None,
        }
    }
}

/// What a label names, where the blocks of its statements begin at these addresses.
fn place_of(label: Label, links: &[u32]) -> NamedPlace
    ensures { result ≡ place_of (slice_index links.now) label }
{
    match label {
        Label::Code(statement) => NamedPlace::Code(
            links.get(statement as usize).copied().unwrap_or(0),
        ),
        Label::Data(address) => NamedPlace::Data(address),
    }
}

/// The places that labels name, in order.
fn places_of(
    alloc: Global,
    labels: &IndexMap<Name, Label>,
    links: &[u32],
) -> Result<Vec<NamedPlace>, AllocError>
    ensures { IfOk result (λ places. places.items ≡ map (place_of (slice_index links.now)) (values labels.now)) }
{
    labels
        .values()
        .map(|label| place_of(*label, links))
        .collect(alloc)
}

/// How far the places of code stand behind the first word of code.
fn code_offsets(alloc: Global, places: &[NamedPlace]) -> Result<Vec<Option<u32>>, AllocError>
    ensures { IfOk result (λ offsets. offsets.items ≡ map code_offset places.now) }
{
    places.iter().map(|at| at.code_offset()).collect(alloc)
}

/// How far the places of data stand behind the first word of user data.
fn data_offsets(alloc: Global, places: &[NamedPlace]) -> Result<Vec<Option<u32>>, AllocError>
    ensures { IfOk result (λ offsets. offsets.items ≡ map data_offset places.now) }
{
    places.iter().map(|at| at.data_offset()).collect(alloc)
}

/// Where a statement goes, or of which place it makes the address: the address of that place's block.
fn aim_of(statement: &Statement, links: &[u32]) -> Option<u32>
    ensures { result ≡ aim_of (slice_index links.now) statement.now }
{
    match *statement {
        Statement::LaCode { target, .. }
        | Statement::Branch { target, .. }
        | Statement::Call { target, .. } => {
            Some(links.get(target as usize).copied().unwrap_or(0))
        }
        _ => None,
    }
}

/// The aims of statements, in order.
fn aims_of(
    alloc: Global,
    statements: &[Statement],
    links: &[u32],
) -> Result<Vec<Option<u32>>, AllocError>
    ensures { IfOk result (λ aims. aims.items ≡ map (aim_of (slice_index links.now)) statements.now) }
{
    statements
        .iter()
        .map(|statement| aim_of(statement, links))
        .collect(alloc)
}

/// A table without an index.
fn empty_table(alloc: Global, count: usize) -> Result<Vec<Option<usize>>, AllocError>
    ensures { IfOk result (λ table. table.items ≡ replicate count None) }
{
    let mut table = Vec::new(alloc);
    for _ in 0..count {
        table.push(None)?;
    }
    Ok(table)
}

/// Keeps an index at a place of a table, where the table has the place and nothing is kept there.
#[tactic(auto, using(crate::proofs::Keeping::nothing, crate::proofs::Keeping::kept, crate::proofs::Keeping::past))]
fn keep(table: &mut [Option<usize>], offset: Option<u32>, index: usize)
    ensures { (k : ℕ) → k < length table.old → entry table.new k ≡ option_or (entry table.old k) (if offset_is offset k then Some index else None) }
{
    let Some(offset) = offset else { return };
    let place = offset as usize;
    if place < table.len() {
        table[place] = table[place].or(Some(index));
    }
}

/// For each offset below a count the index of the first that is there.
fn first_at(
    alloc: Global,
    offsets: &[Option<u32>],
    count: usize,
) -> Result<Vec<Option<usize>>, AllocError>
    ensures long { IfOk result (λ table. length table.items ≡ count) }
    ensures first { IfOk result (λ table. (k : ℕ) → k < count → entry table.items k ≡ first_from k 0 offsets.now) }
{
    let mut table = empty_table(alloc, count)?;
    for (index, offset) in offsets.iter().enumerate() {
        keep(table.as_mut_slice(), *offset, index);
    }
    Ok(table)
}

impl<'a> PlaceNames<'a> {
    /// The labels and the aims of a source, of which these are the addresses of its statements' blocks, and the number of its code words.
    #[tactic(auto, using(crate::proofs::Firsts::alike_by))]
    pub fn new(
        alloc: Global,
        source: &'a Source,
        links: &[u32],
        words: usize,
    ) -> Result<PlaceNames<'a>, AllocError>
        ensures names { IfOk result (λ names. NameAlike (naming names)
            (names_of source.now.labels (slice_index links.now) words (length source.now.user_data))) }
        ensures aims { IfOk result (λ names. (index : ℕ) →
            aim_at names index ≡ option_and_then (aim_of (slice_index links.now)) (slice_get source.now.statements index)) }
    {
        let data_words = source.user_data().len();
        let mut names = PlaceNames::of_labels(alloc, source.labels(), data_words, links, words)?;
        names.aims = aims_of(alloc, source.statements(), links)?;
        Ok(names)
    }

    /// These labels with no aims, over so many data words, the addresses of the statements' blocks, and so many code words.
    #[tactic(auto, using(crate::proofs::Firsts::names_alike))]
    pub fn of_labels(
        alloc: Global,
        labels: &'a IndexMap<Name, Label>,
        data_words: usize,
        links: &[u32],
        words: usize,
    ) -> Result<PlaceNames<'a>, AllocError>
        ensures names { IfOk result (λ names. NameAlike (naming names)
            (names_of (named_labels labels.now.entries) (slice_index links.now) words data_words)) }
        ensures aims { IfOk result (λ names. (index : ℕ) → aim_at names index ≡ None) }
    {
        let places = places_of(alloc, labels, links)?;
        let code_offsets = code_offsets(alloc, places.as_slice())?;
        let code = first_at(alloc, code_offsets.as_slice(), words.saturating_add(1))?;
        let data_offsets = data_offsets(alloc, places.as_slice())?;
        let user_data = first_at(alloc, data_offsets.as_slice(), data_words)?;
        Ok(PlaceNames {
            labels,
            places,
            code,
            user_data,
            aims: Vec::new(alloc),
        })
    }

    /// The labels with what they name, in order.
    pub fn places(&self) -> &[NamedPlace] {
        self.places.as_slice()
    }

    /// The name of a label.
    pub fn name(&self, index: usize) -> &[u8]
        ensures { result.now ≡ unwrap_or (name_at self.now.labels.now.entries index) [] }
    {
        match self.labels.get_index(index) {
            Some((name, _)) => name.bytes(),
            None => b"",
        }
    }

    /// The aim of a statement: the address of the block where it goes, or whose address it makes.
    pub fn aim(&self, statement: u32) -> Option<u32>
        ensures { result ≡ aim_at self.now statement }
    {
        *self.aims.get(statement as usize)?
    }

    /// The first label of a code word.
    pub fn code_name(&self, address: u32) -> Option<&[u8]>
        ensures { lent_name result ≡ (naming self.now).code address }
    {
        self.found(self.code.as_slice(), address.checked_sub(CODE_BASE)?)
    }

    /// The first label of a data word.
    pub fn data_name(&self, address: u32) -> Option<&[u8]>
        ensures { lent_name result ≡ (naming self.now).user_data address }
    {
        self.found(self.user_data.as_slice(), address.checked_sub(DATA_BASE)?)
    }

    /// The label that a table has at a place.
    fn found(&self, table: &[Option<usize>], place: u32) -> Option<&[u8]>
        ensures { lent_name result ≡ tabled self.now.labels.now.entries table.now place }
    {
        let index = (*table.get(place as usize)?)?;
        let (name, _) = self.labels.get_index(index)?;
        Some(name.bytes())
    }
}
