//! A module of a program: its lines, what it imports and exports, and its labels.
use indexmap::IndexMap;
use lab_faults::MOST_LINES;
use mx_asm::{Position, Section, begins_label, define_all, line_words, statement_words};
use mx_lines::{Labels, Word, lines_of, spells};
use mx_source::Label;
use std::alloc::{AllocError, Global};

// The first address of data words.
const DATA: u32 = 256;

// What a line links.
#[derive(Clone, Copy)]
enum Link<'a> {
    Nothing,
    Import(&'a [u8]),
    Export(&'a [u8]),
}

// The one name behind a directive; an empty one, which no label has, where another number of words stands there.
fn only_name<'a>(words: &[Word<'a>]) -> &'a [u8] {
    match words {
        [Word::Name(name)] => name,
        _ => &[],
    }
}

// What a statement of these words links.
fn statement_link<'a>(statement: &[Word<'a>]) -> Link<'a> {
    match statement {
        [Word::Name(directive), rest @ ..] => {
            if spells(directive, ".import") {
                Link::Import(only_name(rest))
            } else if spells(directive, ".export") {
                Link::Export(only_name(rest))
            } else {
                Link::Nothing
            }
        }
        _ => Link::Nothing,
    }
}

// What a line of these words links: one with a label links nothing.
fn link_of<'a>(words: &[Word<'a>]) -> Link<'a> {
    if begins_label(words) {
        Link::Nothing
    } else {
        statement_link(statement_words(words))
    }
}

// The labels that lines define.
fn labels_of(alloc: Global, lines: &[&[u8]]) -> Result<Labels, AllocError> {
    let front = Position {
        section: Section::Code,
        index: 0,
        address: DATA,
    };
    let defined = define_all(alloc, &lines[..lines.len().min(MOST_LINES)], front)?;
    Ok(defined.labels)
}

// What the lines of a module are.
#[derive(Drop)]
struct Parts<'a> {
    lines: Vec<&'a [u8]>,
    imports: Vec<&'a [u8]>,
    exports: IndexMap<&'a [u8], u32>,
}

impl<'a> Parts<'a> {
    // Adds a line without words, in the place of an import or export.
    fn add_blank(&mut self) -> Result<(), AllocError> {
        self.lines.push(&[])?;
        Ok(())
    }

    // Adds a line that links this.
    fn add_link(&mut self, line: &'a [u8], link: Link<'a>) -> Result<(), AllocError> {
        match link {
            Link::Nothing => {
                self.lines.push(line)?;
                Ok(())
            }
            Link::Import(name) => {
                self.imports.push(name)?;
                self.add_blank()
            }
            Link::Export(name) => {
                self.exports.insert(name, 0)?;
                self.add_blank()
            }
        }
    }

    // Adds a line.
    fn add(&mut self, alloc: Global, line: &'a [u8]) -> Result<(), AllocError> {
        let words = line_words(alloc, line)?;
        self.add_link(line, link_of(&words))
    }

    // The parts of a module of these lines.
    fn of(alloc: Global, lines: &[&'a [u8]]) -> Result<Parts<'a>, AllocError> {
        let mut parts = Parts {
            lines: Vec::new(alloc),
            imports: Vec::new(alloc),
            exports: IndexMap::new(alloc),
        };
        for line in lines {
            parts.add(alloc, line)?;
        }
        Ok(parts)
    }
}

/// A module of a program.
#[derive(Drop)]
pub struct Module<'a> {
    /// Its lines.
    pub whole: Vec<&'a [u8]>,
    /// Its lines, of which those of imports and exports are blank.
    pub lines: Vec<&'a [u8]>,
    /// The names that it imports.
    pub imports: Vec<&'a [u8]>,
    exports: IndexMap<&'a [u8], u32>,
    labels: Labels,
}

impl<'a> Module<'a> {
    // The module of these lines and parts.
    fn of(alloc: Global, whole: Vec<&'a [u8]>, parts: Parts<'a>) -> Result<Module<'a>, AllocError> {
        let labels = labels_of(alloc, &parts.lines)?;
        let Parts {
            lines,
            imports,
            exports,
        } = parts;
        Ok(Module {
            whole,
            lines,
            imports,
            exports,
            labels,
        })
    }

    /// The module of a text.
    pub fn read(alloc: Global, text: &'a [u8]) -> Result<Module<'a>, AllocError> {
        let whole = lines_of(alloc, text)?;
        let parts = Parts::of(alloc, &whole)?;
        Module::of(alloc, whole, parts)
    }

    /// Its label of this name.
    pub fn label(&self, name: &[u8]) -> Option<Label> {
        self.labels.find(name)
    }

    /// Whether it exports this name.
    pub fn exports(&self, name: &[u8]) -> bool {
        self.exports.get(name).is_some()
    }

    /// Whether it imports this name.
    pub fn imports(&self, name: &[u8]) -> bool {
        for one in &self.imports {
            if *one == name {
                return true;
            }
        }
        false
    }
}

/// The modules of texts.
pub fn modules_of<'a>(alloc: Global, texts: &[&'a [u8]]) -> Result<Vec<Module<'a>>, AllocError> {
    let mut modules = Vec::new(alloc);
    for text in texts {
        modules.push(Module::read(alloc, text)?)?;
    }
    Ok(modules)
}

/// The first module but the one at this place that exports a name.
pub fn exporter<'m, 'a>(
    modules: &'m [Module<'a>],
    place: usize,
    name: &[u8],
) -> Option<&'m Module<'a>> {
    for (at, module) in modules.iter().enumerate() {
        if at != place && module.exports(name) {
            return Some(module);
        }
    }
    None
}

/// The label that a name of the module at this place stands for in another one.
pub fn imported(modules: &[Module], place: usize, name: &[u8]) -> Option<Label> {
    match exporter(modules, place, name) {
        Some(other) => other.label(name),
        None => None,
    }
}
