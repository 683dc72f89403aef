//! What is known of registers between two statements, with each pointer divided by 4 once as long as it is known.
ghost use Rattle.std.specs.Prelude.{◌≡◌, ◌≢◌, ℕ, ◌+◌, ◌*◌, ◌%◌, ◌≤◌, ◌-◌, ◌^◌, ◌⊎◌, true, false, not, bit_or, set, option_map, slice_get, Some, IfSome, IfNone};
ghost use Rattle.cc_plan.specs.declared.plan.Place.TheVariants.{Byte};
ghost use Rattle.cc_plan.specs.declared.knowledge.Known.{Known};
ghost use Rattle.cc_plan.specs.declared.knowledge.Known.TheVariants.{Nothing};
ghost use Rattle.cc_plan.specs.Places.{Words, AreWords, IsAt, IsFrom, divided, is_always_divided, is_base, is_quotient, is_read, sum};
ghost use Rattle.cc_plan.specs.Knowing.{Holds, IsSound, Keeps, has, is_by, is_by_one, is_left};
ghost use Rattle.cc_plan.specs.Translated.{Goes, IsComputed, IsGiven, given_to, is_far, is_source_read, reads_named, used};
ghost use Rattle.cc_plan.specs.Comparisons.{value_of};

use crate::effects::{HI, bit, of, writes};
use crate::plan::{Place, Plan};
use cc_lines::{Instruction, Long, Operation, Register, Source, Width};
use cc_rules::{byte_of, in_reach, quarter};

/// The register with the stack pointer / 4.
pub const STACK_WORDS: u8 = 28;

/// The register with the frame pointer / 4, in functions that have one.
pub const FRAME_WORDS: u8 = 23;

/// The registers that take quotients of pointers in any function.
const FIRST_QUOTIENT: u8 = 22;

const SECOND_QUOTIENT: u8 = 27;

/// The registers that take quotients of pointers: the last one only in functions without a frame pointer.
static QUOTIENTS: [u8; 3] = [FIRST_QUOTIENT, SECOND_QUOTIENT, FRAME_WORDS];

/// What is known of a register.
#[derive(Clone, Copy)]
pub(crate) enum Known {
    Nothing,
    /// It holds this number.
    Number(u32),
    /// It holds so many bytes more than four times what another register holds; or, where that is not `whole`, a quarter of it is so
    /// many bytes, a multiple of 4, from what the other one holds.
    Bytes { base: u8, bytes: u32, whole: bool },
}

impl Known {
    /// Whether it is known by way of this register.
    fn is_by(self, register: u8) -> bool
        ensures { result ≡ is_by register self }
    {
        matches!(self, Known::Bytes { base, .. } if base == register)
    }

    /// Whether it is known by way of one of these registers, but for a quarter of the frame pointer.
    fn is_by_one(self, points: bool, registers: &[u8]) -> bool
        ensures { result ≡ is_by_one points registers.now self }
    {
        for register in registers {
            if self.is_by(*register) && !(*register == FRAME_WORDS && points) {
                return true;
            }
        }
        false
    }
}

/// Forgets what is known by way of a register that changes.
fn forget_by(known: &mut [Known; 32], changed: u8)
    ensures { Keeps (λ n k. not (is_by changed k)) known.old known.new }
{
    for one in known.iter_mut() {
        if one.is_by(changed) {
            *one = Known::Nothing;
        }
    }
}

/// Forgets what is known by way of registers that the translation of an instruction uses for something else, but for a quarter of the
/// frame pointer, which comes back.
fn forget_by_one(known: &mut [Known; 32], points: bool, clobbered: &[u8])
    ensures { Keeps (λ n k. not (is_by_one points clobbered.now k)) known.old known.new }
{
    for one in known.iter_mut() {
        if one.is_by_one(points, clobbered) {
            *one = Known::Nothing;
        }
    }
}

/// Forgets the registers of a set.
fn forget_set(known: &mut [Known; 32], set: u64)
    ensures { Keeps (λ n k. not (has set n)) known.old known.new }
{
    for number in 0..32u8 {
        if set & bit(number) != 0 {
            known[usize::from(number)] = Known::Nothing;
        }
    }
}

/// What is known between two statements.
#[derive(Clone, Copy)]
pub(crate) struct Knowledge {
    known: [Known; 32],
    /// Which of the registers for quotients is next.
    turn: u8,
    /// Whether register 30 is the frame pointer.
    pub(crate) points: bool,
    /// Whether the addresses of labels are values, by which jumps go.
    pub(crate) computes: bool,
}

/// The place of what is too far from all that is known: so many bytes from a register.
pub(crate) fn far(base: Register, bytes: u32) -> Place
    ensures { (words : Words) → IsAt words result (sum (words base.0) bytes) }
{
    Place::Far {
        base: base.0,
        bytes,
    }
}

/// The byte of this number in a word that is so many words from four times what the register `base` holds, where a statement
/// reaches that word.
fn byte_in_reach(words: u32, base: u8, number: u32) -> Option<Place>
    ensures place { IfSome result (λ place. place ≡ Byte base words (number % 4)) }
    ensures reach { IfSome result (λ place. (words ≤ 65535) ⊎ (2 ^ 32 - 65535 ≤ words)) }
{
    if in_reach(words) {
        Some(Place::Byte {
            base,
            words,
            byte: byte_of(number),
        })
    } else {
        None
    }
}

/// The place at an offset from a base that holds a number.
fn place_at_number(base: Register, value: u32, offset: u32) -> Place
    ensures { (words : Words) → AreWords words → words base.0 ≡ value → IsAt words result (sum value offset) }
{
    let address = value.wrapping_add(offset);
    byte_in_reach(quarter(address), 0, address).unwrap_or(far(base, offset))
}

/// The place at an offset from a base that is so many bytes from four times what the register `from` holds.
fn place_of_byte(base: Register, from: u8, bytes: u32, offset: u32) -> Place
    ensures { (words : Words) → AreWords words → IsFrom words from bytes (words base.0) → IsAt words result (sum (words base.0) offset) }
{
    let number = bytes.wrapping_add(offset);
    byte_in_reach(quarter(number), from, number).unwrap_or(far(base, offset))
}

/// The same from a base of which only a quarter is known to be there.
fn place_of_word(base: Register, from: u8, bytes: u32, offset: u32) -> Place
    ensures { (words : Words) → AreWords words → IsFrom words from (bytes + words base.0 % 4) (words base.0)
        → IsAt words result (sum (words base.0) offset) }
{
    let words = quarter(bytes.wrapping_add(offset));
    if in_reach(words) && offset % 4 == 0 {
        Place::Turned {
            base: from,
            words,
            by: base.0,
        }
    } else {
        far(base, offset)
    }
}

impl Knowledge {
    /// What is known at the start of a function.
    pub(crate) fn new(points: bool, computes: bool) -> Knowledge
        ensures known { (n : ℕ) (one : Known) → slice_get result.known n ≡ Some one → one ≡ Nothing }
        ensures points { result.points ≡ points }
        ensures computes { result.computes ≡ computes }
    {
        Knowledge {
            known: [Known::Nothing; 32],
            turn: 0,
            points,
            computes,
        }
    }

    /// Forgets what is known of all registers, where control may come from anywhere.
    pub(crate) fn forget_all(&mut self)
        ensures known { (n : ℕ) (one : Known) → slice_get self.new.known n ≡ Some one → one ≡ Nothing }
        ensures rest { self.new ≡ record self.old { known = self.new.known } }
    {
        self.known = [Known::Nothing; 32];
    }

    /// The register that holds a quarter of what another one always holds.
    fn always_divided(&self, register: Register) -> Option<u8>
        ensures some { IfSome result (λ base. (words : Words) → Holds self.now words → IsFrom words base 0 (words register.0)) }
        ensures none { IfNone result (is_always_divided self.now.points register.0 ≡ false) }
        ensures base { IfSome result (λ base. is_base base ≡ true) }
    {
        match register {
            Register::STACK => Some(STACK_WORDS),
            Register::FRAME if self.points => Some(FRAME_WORDS),
            _ => None,
        }
    }

    /// What is known of a register.
    fn of(&self, register: Register) -> Known
        ensures { (words : Words) → Holds self.now words → is_read register.0 ≡ true → IsSound words result (words register.0) }
    {
        if register.0 == Register::ZERO.0 {
            return Known::Number(0);
        }
        match self.always_divided(register) {
            Some(base) => Known::Bytes {
                base,
                bytes: 0,
                whole: true,
            },
            None => self.noted(register),
        }
    }

    /// What was noted of a register.
    fn noted(&self, register: Register) -> Known
        ensures { (result ≡ Nothing) ⊎ (slice_get self.now.known register.0 ≡ Some result) }
    {
        let number = usize::from(register.0);
        if number < 32 {
            self.known[number]
        } else {
            Known::Nothing
        }
    }

    /// Notes what is known of a register.
    fn note(&mut self, register: Register, known: Known)
        ensures { self.new ≡ record self.old { known = set self.old.known register.0 known } }
    {
        let number = usize::from(register.0);
        if number < 32 {
            self.known[number] = known;
        }
    }

    /// Forgets a register that changes.
    pub(crate) fn forget_register(&mut self, register: Register)
        ensures known { (n : ℕ) (one : Known) → slice_get self.new.known n ≡ Some one
            → (one ≡ Nothing) ⊎ ((n ≢ register.0) × (slice_get self.old.known n ≡ Some one)) }
        ensures rest { self.new ≡ record self.old { known = self.new.known } }
    {
        self.note(register, Known::Nothing);
    }

    /// Notes what is known of a register that takes a word, unless that is one of which all is known.
    fn note_given(&mut self, register: Option<Register>, known: Known)
        ensures known { (n : ℕ) (one : Known) → slice_get self.new.known n ≡ Some one
            → ((option_map (λ r. r.0) register ≡ Some n) × (n ≢ 29) × (one ≡ known)) ⊎ (slice_get self.old.known n ≡ Some one) }
        ensures rest { self.new ≡ record self.old { known = self.new.known } }
    {
        if let Some(register) = register {
            if register.0 != Register::STACK.0 && register.0 != Register::ZERO.0 {
                self.note(register, known);
            }
        }
    }

    /// Forgets what is known by way of a register that changes.
    fn forget_base(&mut self, changed: u8)
        ensures known { Keeps (λ n k. not (is_by changed k)) self.old.known self.new.known }
        ensures rest { self.new ≡ record self.old { known = self.new.known } }
    {
        forget_by(&mut self.known, changed);
    }

    /// Forgets the registers of a set.
    fn forget(&mut self, set: u64)
        ensures known { Keeps (λ n k. not (has set n)) self.old.known self.new.known }
        ensures rest { self.new ≡ record self.old { known = self.new.known } }
    {
        forget_set(&mut self.known, set);
    }

    /// The register that takes the next quotient.
    fn next_quotient(&mut self) -> u8
        ensures register { is_quotient self.old.points result ≡ true }
        ensures known { Keeps (λ n k. not (is_by result k)) self.old.known self.new.known }
        ensures points { self.new.points ≡ self.old.points }
        ensures computes { self.new.computes ≡ self.old.computes }
    {
        let count = if self.points { 2 } else { 3 };
        let turn = self.turn % count;
        self.turn = (turn + 1) % count;
        let register = QUOTIENTS
            .as_slice()
            .get(usize::from(turn))
            .copied()
            .unwrap_or(FIRST_QUOTIENT);
        self.forget_base(register);
        register
    }

    /// Where the datum at an offset from a base is of which nothing is known, and the division that is needed before.
    fn place_by_quotient(&mut self, base: Register, offset: u32) -> (Place, Option<(u8, u8)>)
        ensures place { (words : Words) → Holds self.old words → is_read base.0 ≡ true
            → IsAt (divided words result.1) result.0 (sum (words base.0) offset) }
        ensures known { (words : Words) → Holds self.old words → is_read base.0 ≡ true → Holds self.new (divided words result.1) }
        ensures points { self.new.points ≡ self.old.points }
        ensures computes { self.new.computes ≡ self.old.computes }
    {
        let words = quarter(offset);
        if offset % 4 != 0 || !in_reach(words) {
            return (far(base, offset), None);
        }
        let into = self.next_quotient();
        let known = Known::Bytes {
            base: into,
            bytes: 0,
            whole: false,
        };
        self.note(base, known);
        let place = Place::Turned {
            base: into,
            words,
            by: base.0,
        };
        (place, Some((base.0, into)))
    }

    /// Where the datum at an offset from a base is, and the division that is needed before.
    pub(crate) fn place(&mut self, base: Register, offset: u32) -> (Place, Option<(u8, u8)>)
        ensures place { (words : Words) → Holds self.old words → is_read base.0 ≡ true
            → IsAt (divided words result.1) result.0 (sum (words base.0) offset) }
        ensures known { (words : Words) → Holds self.old words → is_read base.0 ≡ true → Holds self.new (divided words result.1) }
        ensures points { self.new.points ≡ self.old.points }
        ensures computes { self.new.computes ≡ self.old.computes }
    {
        match self.of(base) {
            Known::Number(value) => (place_at_number(base, value, offset), None),
            Known::Bytes {
                base: from,
                bytes,
                whole: true,
            } => (place_of_byte(base, from, bytes, offset), None),
            Known::Bytes {
                base: from,
                bytes,
                whole: false,
            } => (place_of_word(base, from, bytes, offset), None),
            Known::Nothing => self.place_by_quotient(base, offset),
        }
    }

    /// What is known of the sum of a register and a number.
    fn sum(&self, rs: Register, number: u32) -> Known
        ensures { (words : Words) → Holds self.now words → is_read rs.0 ≡ true → IsSound words result (sum (words rs.0) number) }
    {
        match self.of(rs) {
            Known::Number(value) => Known::Number(value.wrapping_add(number)),
            Known::Bytes { base, bytes, whole } if whole || number % 4 == 0 => Known::Bytes {
                base,
                bytes: bytes.wrapping_add(number),
                whole,
            },
            _ => Known::Nothing,
        }
    }

    /// What is known of the sum of two registers.
    fn sum_of(&self, rs: Register, rt: Register) -> Known
        ensures { (words : Words) → Holds self.now words → is_read rs.0 ≡ true → is_read rt.0 ≡ true
            → IsSound words result (sum (words rs.0) (words rt.0)) }
    {
        if let Known::Number(value) = self.of(rs) {
            return self.sum(rt, value);
        }
        match self.of(rt) {
            Known::Number(value) => self.sum(rs, value),
            _ => Known::Nothing,
        }
    }

    /// What is known of a register with more bits set.
    fn with_bits(&self, rs: Register, bits: u32) -> Known
        ensures { (words : Words) → Holds self.now words → is_read rs.0 ≡ true → IsSound words result (bit_or (words rs.0) bits) }
    {
        match self.of(rs) {
            Known::Number(value) => Known::Number(value | bits),
            _ => Known::Nothing,
        }
    }

    /// What is known of what an operation makes of a register and a second operand.
    #[tactic(auto, using(crate::proofs::Sets::or_zero))]
    fn computed_from(&self, op: Operation, rs: Register, second: Source) -> Known
        ensures { (words : Words) (w : ℕ) → Holds self.now words → is_read rs.0 ≡ true → is_source_read second ≡ true
            → IsComputed op (words rs.0) (value_of words second) w → IsSound words result w }
    {
        match (op, second) {
            (Operation::Add, Source::Number(number)) => self.sum(rs, number),
            (Operation::Sub, Source::Number(number)) => self.sum(rs, number.wrapping_neg()),
            (Operation::Add, Source::Register(rt)) => self.sum_of(rs, rt),
            (Operation::Or, Source::Number(bits)) => self.with_bits(rs, bits),
            (Operation::Or, Source::Register(Register(0))) => self.of(rs),
            _ => Known::Nothing,
        }
    }

    /// What is known of what an instruction computes.
    fn computed(&self, instruction: &Instruction, address: Option<u32>) -> Known
        ensures { (words : Words) (w : ℕ) → Holds self.now words → reads_named instruction.now ≡ true
            → IsGiven words address instruction.now w → IsSound words result w }
    {
        match *instruction {
            Instruction::Number { value, .. } => Known::Number(value),
            Instruction::Address { base, offset, .. } => match address {
                Some(address) => self.sum(base, address.wrapping_add(offset)),
                None => Known::Nothing,
            },
            Instruction::Move { rs, .. } => self.of(rs),
            Instruction::Compute { op, rs, second, .. } => self.computed_from(op, rs, second),
            _ => Known::Nothing,
        }
    }

    /// Forgets what is known by way of registers that the translation of an instruction uses for something else.
    fn forget_clobbered(&mut self, clobbered: &[u8])
        ensures known { Keeps (λ n k. not (is_by_one self.old.points clobbered.now k)) self.old.known self.new.known }
        ensures rest { self.new ≡ record self.old { known = self.new.known } }
    {
        forget_by_one(&mut self.known, self.points, clobbered);
    }

    /// Forgets what is known of registers that are written, and by way of their quarters.
    fn forget_written(&mut self, written: u64)
        ensures known { Keeps (λ n k. is_left self.old.points written n k) self.old.known self.new.known }
        ensures rest { self.new ≡ record self.old { known = self.new.known } }
    {
        self.forget(written);
        if written & of(Register::STACK) != 0 {
            self.forget_base(STACK_WORDS);
        }
        if self.points && written & of(Register::FRAME) != 0 {
            self.forget_base(FRAME_WORDS);
        }
    }

    /// Learns what an instruction does.
    pub(crate) fn learn(&mut self, instruction: &Instruction, plan: &Plan, address: Option<u32>)
        ensures known { (before after : Words) → Holds self.old before → reads_named instruction.now ≡ true
            → Goes self.old.points address instruction.now plan.now before after → Holds self.new after }
        ensures points { self.new.points ≡ self.old.points }
        ensures computes { self.new.computes ≡ self.old.computes }
    {
        let known = self.computed(instruction, address);
        self.forget_clobbered(clobbered(instruction, plan));
        self.forget_written(writes(instruction));
        self.note_given(target(instruction), known);
    }
}

/// The register that an instruction computes.
fn target(instruction: &Instruction) -> Option<Register>
    ensures { option_map (λ r. r.0) result ≡ given_to instruction.now }
{
    match *instruction {
        Instruction::Number { rd, .. }
        | Instruction::Address { rd, .. }
        | Instruction::Move { rd, .. }
        | Instruction::Compute { rd, .. } => Some(rd),
        _ => None,
    }
}

/// Registers that statements use between their words.
static MOST_SCRATCH: [u8; 2] = [FIRST_QUOTIENT, SECOND_QUOTIENT];

static SCRATCH: [u8; 1] = [SECOND_QUOTIENT];

/// Whether a load or a store is of a far datum.
fn is_far(plan: &Plan) -> bool
    ensures { result ≡ is_far plan.now.place }
{
    matches!(plan.place, Some(Place::Far { .. }))
}

/// The registers of quotients that the translation of an instruction uses for something else.
fn clobbered(instruction: &Instruction, plan: &Plan) -> &'static [u8]
    ensures { result.now ≡ used instruction.now plan.now }
{
    match *instruction {
        Instruction::Load {
            width: Width::Left | Width::Right,
            ..
        }
        | Instruction::Store {
            width: Width::Left | Width::Right,
            ..
        } => &MOST_SCRATCH,
        Instruction::Load { .. } | Instruction::Store { .. } if is_far(plan) => &SCRATCH,
        Instruction::Long {
            op: Long::Product { .. },
            ..
        } if plan.live & bit(HI) != 0 => &MOST_SCRATCH,
        Instruction::Long { .. }
        | Instruction::Shift {
            by: Source::Register(_),
            ..
        } => &SCRATCH,
        Instruction::Call(_) => &QUOTIENTS,
        _ => &[],
    }
}
