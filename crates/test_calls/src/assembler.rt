//! What texts assemble to, and their faults.
use crate::same::{same, same_for};
use mx_asm::{assemble, assemble_at};
use mx_lines::{AsmError, Fault};
use mx_source::{Source, Value};
use std::alloc::{AllocError, Global};
use std::test::Fail;

const TEXT: &[u8] =
    b"next: ld 254[r0],r1 ; takes a byte\n.input\nla next,r2\nb next\n.data\nw: .word next,-1\n";

const CANONICAL: &[u8] =
    b".input\nnext:\nld 254[r0],r1\nla next,r2\nbeq r0,r0,next\n.data\nw:\n.word next\n.word 4294967295\n";

/// No text of the cases has more bytes.
const MOST: usize = 100_000;

/// How many statements and labels the source of a text has, and the line of its `.input`.
fn counts(alloc: Global, text: &[u8]) -> Result<(usize, usize, Option<u32>), Fail> {
    if text.len() > MOST {
        return Err("too long".into());
    }
    let source = assemble(alloc, text)?;
    Ok((
        source.statements().len(),
        source.labels().len(),
        source.input(),
    ))
}

#[test]
fn assembles_a_text(rt: HostRuntime) -> Result<(), Fail> {
    same(&rt, &counts(rt.alloc(), TEXT)?, &(3, 2, Some(2)));
    same(&rt, &counts(rt.alloc(), CANONICAL)?, &(3, 2, Some(1)));
    Ok(())
}

/// Whether the statements stand on their lines, and the words are these.
fn lines_and_words(alloc: Global) -> Result<(bool, bool), Fail> {
    let source = assemble(alloc, TEXT)?;
    let words = [Value::Code(0), Value::Int(0xffff_ffff)];
    Ok((
        source.lines() == [1, 3, 4].as_slice(),
        source.user_data() == words.as_slice(),
    ))
}

#[test]
fn keeps_lines_and_words(rt: HostRuntime) -> Result<(), Fail> {
    same(&rt, &lines_and_words(rt.alloc())?, &(true, true));
    Ok(())
}

#[test]
fn assembles_at_an_address(rt: HostRuntime) -> Result<(), Fail> {
    let text = b".data\n.space 2\nhere: .word here\n";
    let source = assemble_at(rt.alloc(), text, 1000, 1003)?;
    same(&rt, &source.user_data().len(), &3);
    Ok(())
}

/// The first faulty line of a text and its fault, or how many statements it has.
fn assembled(alloc: Global, text: &[u8]) -> Result<usize, (u32, Fault)> {
    if text.len() > MOST {
        return Ok(MOST);
    }
    match assemble(alloc, text) {
        Ok(source) => Ok(source.statements().len()),
        Err(AsmError::Refused { line, fault }) => Err((line, fault)),
        Err(AsmError::Memory) => Ok(MOST),
    }
}

/// A piece so many times, and an end.
fn repeated(alloc: Global, piece: &[u8], count: u32, end: &[u8]) -> Result<Vec<u8>, AllocError> {
    let mut text = Vec::new(alloc);
    for _ in 0..count {
        text.extend_from_slice(piece)?;
    }
    text.extend_from_slice(end)?;
    Ok(text)
}

/// The first faulty line of such a text and its fault, or how many statements it has.
fn assembled_of(
    alloc: Global,
    piece: &[u8],
    count: u32,
    end: &[u8],
) -> Result<Result<usize, (u32, Fault)>, AllocError> {
    let text = repeated(alloc, piece, count, end)?;
    Ok(assembled(alloc, &text))
}

// As many instructions and as long a line as there may be, and one more.
static LONG: [(&[u8], u32, &[u8], Result<usize, (u32, Fault)>); 4] = [
    (b"nop\n", 20_000, b"", Ok(20_000)),
    (
        b"nop\n",
        20_000,
        b"nop",
        Err((20_001, Fault::TooManyInstructions)),
    ),
    (b";", 255, b"", Ok(0)),
    (b";", 256, b"", Err((1, Fault::LineTooLong))),
];

#[test]
fn counts_instructions_and_the_bytes_of_a_line(rt: HostRuntime) -> Result<(), Fail> {
    for (piece, count, end, wanted) in LONG.iter() {
        same_for(
            &rt,
            piece,
            &assembled_of(rt.alloc(), piece, *count, end)?,
            wanted,
        );
    }
    Ok(())
}

const MESSAGE: &[u8] = b"
start: LA msg,r1 ; the message
next:  ld 0[r1],r2
       addi r1,#-1,r1
       bgt r2,r0,done
       b next
done:  mov r31,R2
.data
msg:   .word 72,-1,done
end:";

const PRINTED: &[u8] = b"start:
addi r0,#256,r1
next:
ld 0[r1],r2
addi r1,#-1,r1
blt r0,r2,done
beq r0,r0,next
done:
add r31,r0,r2
.data
msg:
.word 72
.word 4294967295
.word done
end:
";

static TEXTS: [(&[u8], &[u8]); 3] = [(MESSAGE, PRINTED), (PRINTED, PRINTED), (TEXT, CANONICAL)];

/// The canonical text of a text.
fn printed(alloc: Global, text: &[u8]) -> Result<Vec<u8>, Fail> {
    if text.len() > MOST {
        return Err("too long".into());
    }
    Ok(assemble(alloc, text)?.print(alloc)?)
}

#[test]
fn prints_and_reads_back(rt: HostRuntime) -> Result<(), Fail> {
    for (text, wanted) in TEXTS.iter() {
        same_for(&rt, text, &printed(rt.alloc(), text)?.as_slice(), wanted);
    }
    Ok(())
}

/// Whether two sources have the same statements and words.
fn are_same(one: &Source, other: &Source) -> bool {
    one.statements() == other.statements() && one.user_data() == other.user_data()
}

/// Whether both texts have the same statements and words.
fn reads_back(alloc: Global) -> Result<bool, Fail> {
    let source = assemble(alloc, TEXT)?;
    let again = assemble(alloc, CANONICAL)?;
    Ok(are_same(&again, &source))
}

#[test]
fn reads_back_the_canonical_text(rt: HostRuntime) -> Result<(), Fail> {
    same(&rt, &reads_back(rt.alloc())?, &true);
    Ok(())
}
