//! The images of small programs.
use crate::programs::{COUNTDOWN, COUNTS_DOWN};
use crate::same::same;
use crate::turns::console_of;
use arrayvec::ArrayVec;
use mx_asm::assemble;
use mx_blocks::{Block, End, Item, Plan};
use mx_isa::Place;
use mx_link::{Linked, Origin, link, link_plain};
use mx_reorg::ListProposer;
use mx_validate::Proposer;
use std::alloc::Global;
use std::test::Fail;

const LOADS: &[u8] = b"ld 256[r0],r1\naddi r1,#1,r1\nhalt\n.data\n.word 41\n";

const LOADS_AND_ADDS: &[u8] =
    b"ld 256[r0],r1\naddi r1,#1,r1\naddi r0,#5,r2\nhalt\n.data\n.word 41\n";

const CALLS: &[u8] = b"call f,r31\nhalt\nf: st 256[r0],r31\nld 256[r0],r2\njr r2\n";

const SENDS: &[u8] =
    b"la msg,r1\nnext: ld 0[r1],r2\naddi r1,#1,r1\nbeq r2,r0,done\nst 255[r0],r2\nb next\ndone: halt\n.data\nmsg: .word 72,105,10,0\n";

/// Proposes each block's body reversed, and no-ops in the slots.
#[derive(Clone, Copy)]
struct Reversed;

impl Proposer for Reversed {
    ghost proposes = { λ _ _. Unit {0} };

    fn propose(&mut self, block: &Block) -> Plan {
        let count = block.insts.len() as u8;
        let (body, slots) = match block.end {
            End::Falls => (count, 0),
            End::Halts => (count.saturating_sub(1), 0),
            _ => (count.saturating_sub(1), 2),
        };
        let mut items = ArrayVec::new();
        for k in (0..body).rev().chain(body..count) {
            let _ = items.try_push(Item::Op(k));
        }
        for _ in 0..slots {
            let _ = items.try_push(Item::Nop);
        }
        Plan { items, place: body }
    }
}

/// How a program is linked: with or without copies, its blocks in a greedy order or reversed.
#[derive(Clone, Copy)]
enum Way {
    Copies,
    Plain,
    ReversedCopies,
    ReversedPlain,
}

/// Links at the board's place.
fn linked(alloc: Global, text: &[u8], way: Way) -> Result<Linked, Fail> {
    if text.len() > 1000 {
        return Err("too long".into());
    }
    let source = assemble(alloc, text)?;
    let _few = source.statements();
    let place = Place::board();
    let program = match way {
        Way::Copies => link(alloc, &source, place, &mut ListProposer),
        Way::Plain => link_plain(alloc, &source, place, &mut ListProposer),
        Way::ReversedCopies => link(alloc, &source, place, &mut Reversed),
        Way::ReversedPlain => link_plain(alloc, &source, place, &mut Reversed),
    };
    drop(source);
    Ok(program?)
}

/// What of a linked program is told by numbers.
#[derive(Clone, Copy)]
enum Part {
    Code,
    /// The first words.
    Front,
    /// The words from this one on.
    CodeFrom(usize),
    Data,
    Links,
    /// The no-ops, the copies and the rejected proposals.
    Counts,
    /// How many words it has, and how many proposals were made.
    Lengths,
}

/// Whether these are a program's numbers.
fn has(program: &Linked, part: Part, numbers: &[u32]) -> bool {
    let code = program.image.code.as_slice();
    match part {
        Part::Code => code == numbers,
        Part::Front => code.starts_with(numbers),
        Part::CodeFrom(first) => code.get(first..) == Some(numbers),
        Part::Data => program.image.user_data.as_slice() == numbers,
        Part::Links => program.links.as_slice() == numbers,
        Part::Counts => [program.noops, program.copies, program.rejected].as_slice() == numbers,
        Part::Lengths => match numbers {
            [words, proposals] => {
                code.len() == *words as usize && program.proposals.len() == *proposals as usize
            }
            _ => false,
        },
    }
}

/// Whether a text so linked has these numbers.
fn links_to(
    alloc: Global,
    text: &[u8],
    way: Way,
    part: Part,
    numbers: &[u32],
) -> Result<bool, Fail> {
    Ok(has(&linked(alloc, text, way)?, part, numbers))
}

/// The loop that counts down, with no-ops in the slots of its branch.
const PLAIN_LOOP: &[u32] = &[
    0x8802_00ff,
    0xc043_ffff,
    0x0844_fffe,
    0x4000_0000,
    0x4000_0000,
    0xe000_0000,
];

static CASES: [(&[u8], Way, Part, &[u32]); 25] = [
    // A no-op stands behind a load whose register is read next.
    (
        LOADS,
        Way::Copies,
        Part::Code,
        &[0x8002_0100, 0x4000_0000, 0xc042_0001, 0xe000_0000],
    ),
    (LOADS, Way::Copies, Part::Data, &[41]),
    (LOADS, Way::Copies, Part::Links, &[4096, 4096, 4096, 4100]),
    (LOADS, Way::Copies, Part::Counts, &[1, 0, 0]),
    // Or an instruction that is moved there.
    (
        LOADS_AND_ADDS,
        Way::Copies,
        Part::Code,
        &[0x8002_0100, 0xc004_0005, 0xc042_0001, 0xe000_0000],
    ),
    (LOADS_AND_ADDS, Way::Copies, Part::Counts, &[0, 0, 0]),
    // Both words of a target are copied into the slots of a branch,
    (COUNTS_DOWN, Way::Copies, Part::Code, COUNTDOWN),
    (
        COUNTS_DOWN,
        Way::Copies,
        Part::Links,
        &[4096, 4096, 4098, 4098, 4098, 4103, 4104],
    ),
    (COUNTS_DOWN, Way::Copies, Part::Counts, &[0, 2, 0]),
    // which else hold no-ops.
    (
        COUNTS_DOWN,
        Way::Plain,
        Part::Front,
        &[0xc002_0033, 0xc004_0030],
    ),
    (COUNTS_DOWN, Way::Plain, Part::CodeFrom(2), PLAIN_LOOP),
    (COUNTS_DOWN, Way::Plain, Part::Counts, &[2, 0, 0]),
    // They are copied into a call,
    (CALLS, Way::Copies, Part::Lengths, &[10, 3]),
    (CALLS, Way::Copies, Part::Front, &[0xc83e_1006]),
    (
        CALLS,
        Way::Copies,
        Part::Links,
        &[4096, 4099, 4100, 4100, 4100, 4106],
    ),
    (CALLS, Way::Copies, Part::Counts, &[3, 2, 0]),
    // and one word into a branch.
    (
        SENDS,
        Way::Copies,
        Part::Code,
        &[
            0xc002_0100,
            0x8044_0000,
            0xc042_0001,
            0x0080_0006,
            0x4000_0000,
            0x4000_0000,
            0x0000_fffc,
            0x8804_00ff,
            0x8044_0000,
            0xe000_0000,
        ],
    ),
    (SENDS, Way::Copies, Part::Data, &[72, 105, 10, 0]),
    (SENDS, Way::Copies, Part::Counts, &[2, 1, 0]),
    // A block may be reversed only where its order says nothing.
    (
        COUNTS_DOWN,
        Way::ReversedPlain,
        Part::Front,
        &[0xc004_0030, 0xc002_0033],
    ),
    (
        COUNTS_DOWN,
        Way::ReversedPlain,
        Part::CodeFrom(2),
        PLAIN_LOOP,
    ),
    (COUNTS_DOWN, Way::ReversedPlain, Part::Counts, &[2, 0, 1]),
    (
        COUNTS_DOWN,
        Way::ReversedCopies,
        Part::Front,
        &[0xc004_0030],
    ),
    (COUNTS_DOWN, Way::ReversedCopies, Part::Lengths, &[8, 3]),
    (COUNTS_DOWN, Way::ReversedCopies, Part::Counts, &[0, 2, 1]),
];

/// The number of the first case whose program has other numbers.
fn first_wrong(alloc: Global) -> Result<Option<usize>, Fail> {
    for (number, (text, way, part, numbers)) in CASES.iter().enumerate() {
        if !links_to(alloc, text, *way, *part, numbers)? {
            return Ok(Some(number));
        }
    }
    Ok(None)
}

#[test]
fn small_programs_are_linked(rt: HostRuntime) -> Result<(), Fail> {
    same(&rt, &first_wrong(rt.alloc())?, &None);
    Ok(())
}

static ORIGINS: [(&[u8], &[Origin]); 2] = [
    (
        LOADS,
        &[Origin::Own(0), Origin::Pad, Origin::Own(1), Origin::Own(2)],
    ),
    (
        COUNTS_DOWN,
        &[
            Origin::Own(0),
            Origin::Own(1),
            Origin::Own(2),
            Origin::Own(3),
            Origin::Own(4),
            Origin::Copy(2),
            Origin::Copy(3),
            Origin::Own(5),
        ],
    ),
];

#[test]
fn words_tell_where_they_come_from(rt: HostRuntime) -> Result<(), Fail> {
    for (text, origins) in ORIGINS.iter() {
        let program = linked(rt.alloc(), text, Way::Copies)?;
        same(&rt, &program.origin.as_slice(), origins);
    }
    Ok(())
}

/// What a text so linked sends.
fn sent(alloc: Global, text: &[u8], way: Way) -> Result<String, Fail> {
    let program = linked(alloc, text, way)?;
    console_of(alloc, &program.image.code, 1000)
}

#[test]
fn reversed_blocks_send_the_same(rt: HostRuntime) -> Result<(), Fail> {
    for way in [Way::ReversedPlain, Way::ReversedCopies] {
        let console = sent(rt.alloc(), COUNTS_DOWN, way)?;
        same(&rt, &console.as_str(), &"321");
    }
    Ok(())
}
