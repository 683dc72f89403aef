//! The data memory.
use crate::same::same;
use mx_board::Board;
use mx_io::Memory;

/// What is done with a memory, and what it gives.
#[derive(Clone, Copy)]
enum Step {
    /// A store of a word at an address, whether by the user, and the byte that it sends.
    Store(u32, u32, bool, Option<u8>),
    /// A load from an address, whether by the user, and the word.
    Load(u32, bool, u32),
    /// The word at address 3.
    Third(u32),
    /// How many bytes of the input were taken.
    Inputs(u32),
}

/// Whether a step gives what it should.
fn is_right(board: &mut Board, step: Step) -> bool {
    match step {
        Step::Store(address, word, user, sent) => board.store(address, word, user) == sent,
        Step::Load(address, user, word) => board.load(address, user) == word,
        Step::Third(word) => board.word(3) == word,
        Step::Inputs(count) => board.inputs() == count,
    }
}

/// The number of the first step that gives anything else.
fn first_wrong(board: &mut Board, steps: &[Step]) -> Option<usize> {
    for (number, step) in steps.iter().enumerate() {
        if !is_right(board, *step) {
            return Some(number);
        }
    }
    None
}

static SYSTEM: [Step; 9] = [
    Step::Store(254, 9, false, None),
    Step::Load(254, false, 9),
    Step::Load(254, true, 0),
    Step::Store(3, 9, true, None),
    Step::Third(0),
    Step::Load(257, true, 6),
    Step::Store(255, 0x1241, false, Some(0x41)),
    Step::Load(255, false, 0),
    Step::Load(65_536, false, 0),
];

#[test]
fn system_words_are_the_systems(rt: HostRuntime) -> Result<(), Memory> {
    let mut board = Board::new(rt.alloc(), [5, 6].as_slice(), None)?;
    same(&rt, &first_wrong(&mut board, SYSTEM.as_slice()), &None);
    Ok(())
}

static INPUT: [Step; 5] = [
    Step::Load(254, true, 97),
    Step::Load(254, false, 0),
    Step::Load(254, true, 98),
    Step::Load(254, true, 0xffff_ffff),
    Step::Inputs(2),
];

#[test]
fn the_input_is_taken_byte_by_byte(rt: HostRuntime) -> Result<(), Memory> {
    let mut board = Board::new(rt.alloc(), [].as_slice(), Some(b"ab".as_slice()))?;
    same(&rt, &first_wrong(&mut board, INPUT.as_slice()), &None);
    Ok(())
}
