//! Canonical text.
use crate::same::same;
use indexmap::IndexMap;
use mx_isa::{Inst, Op, Reg};
use mx_source::{Label, Name, Source, Statement, Value};
use std::alloc::Global;
use std::test::Fail;

/// A source with input of two statements, a word and its label.
fn source_of(alloc: Global) -> Result<Source, Fail> {
    let one = Reg::new(1).ok_or("r1")?;
    let add = Inst::Compute {
        a: one,
        dest: one,
        b: Reg::ZERO,
        op: Op::Add,
    };
    let statements = vec![in alloc; Statement::Plain(add), Statement::Halt]?;
    let lines = vec![in alloc; 1, 2]?;
    let words = vec![in alloc; Value::Int(7)]?;
    let mut labels = IndexMap::new(alloc);
    labels.insert(Name::new(alloc, b"word")?, Label::Data(256))?;
    Ok(Source::make(statements, lines, words, labels).with_input(1))
}

fn printed(alloc: Global) -> Result<Vec<u8>, Fail> {
    let source = source_of(alloc)?;
    Ok(source.print(alloc)?)
}

#[test]
fn prints_each_part(rt: HostRuntime) -> Result<(), Fail> {
    let text = printed(rt.alloc())?;
    same(
        &rt,
        &text.as_slice(),
        &b".input\nadd r1,r0,r1\nhalt\n.data\nword:\n.word 7\n".as_slice(),
    );
    Ok(())
}
