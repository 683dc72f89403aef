//! Worked runs, on images by hand.
use crate::programs::COUNTDOWN;
use crate::same::{same, same_for};
use mx_code::Image;
use mx_icache::LineCache;
use mx_isa::Reg;
use mx_turn::{Counts, Latches, Machine, Stage, Turns};
use std::alloc::{AllocError, Global};
use std::test::Fail;

/// `addi r0,#72,r1 / st 255[r0],r1 / halt`
const HELLO: &[u32] = &[0xc002_0048, 0x8802_00ff, 0xe000_0000];

/// `ld 256[r0],r1 / add r1,r0,r2 / halt`, a reader in the slot of a load.
const READER: &[u32] = &[0x8002_0100, 0x4040_2000, 0xe000_0000];

/// `jspci r0,#0,r1`, into the handler
const INTO_HANDLER: &[u32] = &[0xc802_0000];

/// `jspci r0,#8,r0`, into the middle of the handler
const INTO_ITS_MIDDLE: &[u32] = &[0xc800_0008];

/// `addi r0,#-1,r1 / movtos r1,md / addi r0,#7,r2 / mstart r2,r3`, before `mstep r3,r2,r3`
static MULTIPLY: &[u32] = &[0xc003_ffff, 0x5840_0000, 0xc004_0007, 0x4004_3009];

/// What the latches hold after eight turns of the first image.
pub const SEVENTH: Latches = Latches {
    fetch: Stage::Live(0x1003),
    rf: Stage::Live(0x1002),
    alu: Stage::Live(0x1001),
    mem: Stage::Live(0x1000),
    wb: Stage::Empty,
    a: 0,
    b: 0x48,
    result: 0xff,
};

/// The cycles in which an interrupt is asked for: the first, the last, and how many there are from one to the next.
#[derive(Clone, Copy)]
struct Requests(u32, u32, u32);

impl Requests {
    fn wants(self, cycle: u32) -> bool {
        let Requests(first, last, step) = self;
        match cycle.checked_sub(first) {
            Some(behind) => cycle <= last && behind.checked_rem(step) == Some(0),
            None => false,
        }
    }
}

const NONE: Requests = Requests(1, 0, 1);

const TENS: Requests = Requests(10, 90, 10);

const STORM: Requests = Requests(0, 199, 1);

/// What a run gives.
#[derive(Drop)]
struct Ran {
    /// Fetches, misses and cycles; squashes and interrupts; r1, r2, r3 and MD; and system word 0.
    numbers: [u64; 10],
    console: String,
    /// The cycles in which an interrupt is taken.
    taken: Vec<u32>,
}

fn image(alloc: Global, code: &[u32], user_data: &[u32]) -> Result<Image, Fail> {
    let code = Vec::from_slice(alloc, code)?;
    let user_data = Vec::from_slice(alloc, user_data)?;
    Ok(Image::new(code, user_data).ok_or("image")?)
}

fn machine(alloc: Global, code: &[u32], user_data: &[u32]) -> Result<Turns<LineCache>, Fail> {
    let image = image(alloc, code, user_data)?;
    match Turns::new(alloc, &image, None, LineCache::new()) {
        Ok(machine) => Ok(machine),
        Err(_) => Err("memory".into()),
    }
}

/// Runs until a halt or for a budget of cycles.
fn drive<M: Machine>(
    machine: &mut M,
    requests: Requests,
    budget: u32,
    ran: &mut Ran,
) -> Result<(), AllocError> {
    for cycle in 0..budget {
        if machine.counts().cycles > 1_000_000 {
            break;
        }
        let cycled = machine.cycle(requests.wants(cycle));
        if let Some(byte) = cycled.byte {
            ran.console.push(char::from(byte))?;
        }
        if cycled.taken {
            ran.taken.push(cycle)?;
        }
    }
    Ok(())
}

fn value<M: Machine>(machine: &M, n: u8) -> u64 {
    match Reg::new(n) {
        Some(r) => u64::from(machine.register(r)),
        None => 0,
    }
}

fn numbers<M: Machine>(machine: &M) -> [u64; 10] {
    let Counts {
        cycles,
        fetches,
        misses,
        squashes,
        interrupts,
    } = machine.counts();
    [
        fetches,
        misses,
        cycles,
        squashes,
        interrupts,
        value(machine, 1),
        value(machine, 2),
        value(machine, 3),
        u64::from(machine.md()),
        u64::from(machine.user_data(0)),
    ]
}

fn run_of(
    alloc: Global,
    code: &[u32],
    user_data: &[u32],
    requests: Requests,
    budget: u32,
) -> Result<Ran, Fail> {
    let mut machine = machine(alloc, code, user_data)?;
    let mut ran = Ran {
        numbers: [0; 10],
        console: String::new(alloc),
        taken: Vec::new(alloc),
    };
    drive(&mut machine, requests, budget, &mut ran)?;
    ran.numbers = numbers(&machine);
    Ok(ran)
}

/// What a run without data and requests sends.
pub fn console_of(alloc: Global, code: &[u32], budget: u32) -> Result<String, Fail> {
    let Ran { console, .. } = run_of(alloc, code, &[], NONE, budget)?;
    Ok(console)
}

/// A run: its words, its requests and its budget of cycles.
#[derive(Clone, Copy)]
struct Run {
    code: &'static [u32],
    user_data: &'static [u32],
    requests: Requests,
    budget: u32,
}

/// The numbers of a run, and whether it sends this.
fn outcome(alloc: Global, run: &Run, console: &str) -> Result<([u64; 10], bool), Fail> {
    let ran = run_of(alloc, run.code, run.user_data, run.requests, run.budget)?;
    Ok((ran.numbers, ran.console.as_str() == console))
}

static RUNS: [(Run, [u64; 10], &str); 13] = [
    // A budget cuts a run.
    (
        Run {
            code: HELLO,
            user_data: &[],
            requests: NONE,
            budget: 10,
        },
        [4, 2, 10, 0, 0, 0x48, 0, 0, 0, 0],
        "",
    ),
    (
        Run {
            code: HELLO,
            user_data: &[],
            requests: NONE,
            budget: 11,
        },
        [5, 3, 11, 0, 0, 0x48, 0, 0, 0, 0],
        "H",
    ),
    (
        Run {
            code: HELLO,
            user_data: &[],
            requests: NONE,
            budget: 20,
        },
        [6, 3, 12, 0, 0, 0x48, 0, 0, 0, 0],
        "H",
    ),
    (
        Run {
            code: &[],
            user_data: &[],
            requests: NONE,
            budget: 100,
        },
        [50, 25, 100, 0, 0, 0, 0, 0, 0, 0],
        "",
    ),
    // An interrupt returns to what it killed,
    (
        Run {
            code: COUNTDOWN,
            user_data: &[],
            requests: NONE,
            budget: 1000,
        },
        [17, 6, 29, 1, 0, 0x30, 0x30, 0, 0, 0],
        "321",
    ),
    // also where a squashed slot is in ALU.
    (
        Run {
            code: COUNTDOWN,
            user_data: &[],
            requests: Requests(21, 21, 1),
            budget: 1000,
        },
        [43, 18, 79, 1, 1, 0x30, 0x30, 0, 0, 1],
        "321",
    ),
    // The request waits until ALU holds a word.
    (
        Run {
            code: HELLO,
            user_data: &[],
            requests: Requests(0, 0, 1),
            budget: 1000,
        },
        [32, 15, 62, 0, 1, 0x48, 0, 0, 0, 1],
        "H",
    ),
    // The halt comes first.
    (
        Run {
            code: HELLO,
            user_data: &[],
            requests: Requests(11, 11, 1),
            budget: 1000,
        },
        [6, 3, 12, 0, 0, 0x48, 0, 0, 0, 0],
        "H",
    ),
    // Requests in every cycle are taken one after the other.
    (
        Run {
            code: COUNTDOWN,
            user_data: &[],
            requests: STORM,
            budget: 1000,
        },
        [225, 18, 261, 1, 8, 0x30, 0x30, 0, 0, 8],
        "321",
    ),
    // A reader behind a load sees the old value.
    (
        Run {
            code: READER,
            user_data: &[7],
            requests: NONE,
            budget: 1000,
        },
        [6, 3, 12, 0, 0, 7, 0, 0, 0, 0],
        "",
    ),
    (
        Run {
            code: READER,
            user_data: &[7],
            requests: Requests(7, 7, 1),
            budget: 1000,
        },
        [32, 15, 62, 0, 1, 7, 7, 0, 0, 1],
        "",
    ),
    // User code in the handler is user code.
    (
        Run {
            code: INTO_HANDLER,
            user_data: &[],
            requests: NONE,
            budget: 200,
        },
        [99, 50, 200, 0, 0, 0, 0, 0, 0, 0],
        "",
    ),
    (
        Run {
            code: INTO_ITS_MIDDLE,
            user_data: &[],
            requests: NONE,
            budget: 50,
        },
        [24, 13, 50, 0, 0, 0, 0, 0, 0, 0],
        "",
    ),
];

#[test]
fn runs_end_as_worked_out(rt: HostRuntime) -> Result<(), Fail> {
    for (run, numbers, console) in RUNS.iter() {
        let told = outcome(rt.alloc(), run, console)?;
        same(&rt, &told, &(*numbers, true));
    }
    Ok(())
}

static TAKEN: [(&[u32], Requests, &[u32]); 2] = [
    (HELLO, Requests(0, 0, 1), &[6]),
    (COUNTDOWN, STORM, &[6, 56, 82, 108, 134, 160, 186, 212]),
];

#[test]
fn requests_are_taken_one_after_the_other(rt: HostRuntime) -> Result<(), Fail> {
    for (code, requests, cycles) in TAKEN.iter() {
        let ran = run_of(rt.alloc(), code, &[], *requests, 1000)?;
        same_for(&rt, code, &ran.taken.as_slice(), cycles);
    }
    Ok(())
}

/// The words of 31 steps of a multiplication, up to the halt.
fn multiplication(alloc: Global) -> Result<Vec<u32>, AllocError> {
    let mut code = Vec::from_slice(alloc, MULTIPLY)?;
    code.resize(35, 0x40c4_300a)?;
    code.push(0xe000_0000)?;
    Ok(code)
}

static PRODUCTS: [(Requests, [u64; 10], &[u32]); 2] = [
    (
        NONE,
        [39, 20, 79, 0, 0, 0xffff_ffff, 7, 0xffff_fff9, 0, 0],
        &[],
    ),
    (
        TENS,
        [143, 32, 207, 0, 4, 0xffff_ffff, 7, 0xffff_fff9, 0, 4],
        &[10, 60, 86, 112],
    ),
];

/// The numbers of a multiplication, and whether it sends nothing and is interrupted in these cycles.
fn product(alloc: Global, requests: Requests, cycles: &[u32]) -> Result<([u64; 10], bool), Fail> {
    let code = multiplication(alloc)?;
    let ran = run_of(alloc, &code, &[], requests, 1000)?;
    let right = ran.console.is_empty() && ran.taken.as_slice() == cycles;
    Ok((ran.numbers, right))
}

#[test]
fn multiplication_steps_survive_interrupts(rt: HostRuntime) -> Result<(), Fail> {
    for (requests, numbers, cycles) in PRODUCTS.iter() {
        let told = product(rt.alloc(), *requests, cycles)?;
        same(&rt, &told, &(*numbers, true));
    }
    Ok(())
}

#[test]
fn latches_show_the_last_turn(rt: HostRuntime) -> Result<(), Fail> {
    let mut hello = machine(rt.alloc(), HELLO, &[])?;
    for _ in 0..8 {
        if hello.counts().cycles < 100 {
            let _cycled = hello.cycle(false);
        }
    }
    let told = (hello.latches(), hello.inputs());
    drop(hello);
    same(&rt, &told, &(SEVENTH, 0));
    Ok(())
}
