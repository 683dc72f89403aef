//! What replaces the words of other machines and assemblers.
//!
//! A line of a table has words of other machines, and after a `=` what replaces them here.

use mx_lines::spells;

const MNEMONICS: &str = "\
lw lwu ldr load lb lbu lh lhu = a word is loaded by 'ld OFFSET[R],R': the register that is loaded comes last
sw str store sb = a word is stored by 'st OFFSET[R],R': the register that is stored comes last
li lui ldi movi = 'addi r0,#NUMBER,R' puts a number from -65536 to 65535 into a register; a wider one is a data word
move mv = 'mov R,R' copies the first register to the second
j jmp goto br bra = 'b LABEL' goes to a label
jal bl bal jsr = 'call LABEL,R' calls the code at a label, and leaves the return address in the register
jalr blr blx = 'callr R,R' calls the code address in the first register, and leaves the return address in the second
ret rts return bx = 'jr R' returns to the code address that 'call LABEL,R' left in that register
addiu subi inc dec incr decr = 'addi R,#NUMBER,R' adds a number, which may be negative
addu = 'add R,R,R' adds two registers
subu = 'sub R,R,R' takes the second register from the first
andi ori xori = this takes registers alone: 'addi r0,#NUMBER,R' puts the number into one before it
nor = 'or R,R,R' and then 'not R,R'
eor = 'xor R,R,R'
neg negu = 'sub r0,R,R' gives 0 less the register
sll slli lsl shl = 'sh r0,R,#M,R' shifts left by 32 - M
srl srli lsr shr = 'sh R,r0,#N,R' shifts right by N and fills with 0
sra srai sar = 'asr R,#N,R' shifts right by N and fills with the highest bit
slt slti sltu sltiu cmp cmpi test tst = a branch compares two registers itself, as 'blt R,R,LABEL'
beqz jz = 'beq R,r0,LABEL' goes to the label where the register is 0
bnez bnz jnz = 'bne R,r0,LABEL' goes to the label where the register is not 0
bltz bgez bgtz blez = a branch compares two registers, of which r0 is 0, as 'blt R,r0,LABEL'
bltu bgeu bgtu bleu = 'blo', 'bhs', 'bhi' and 'blos' compare unsigned numbers
mul mult multu div divu rem = one instruction multiplies or divides by one bit: 'mstart' and 'mstep', or 'dstep', with MD
push pop = there is no stack of its own: 'addi' moves a register, and 'st' and 'ld' go by it
hlt stop exit end syscall ecall ebreak swi = 'halt' ends the run, and a store to 255 sends a byte to the console
print putc out putchar = 'st 255[r0],R' sends the low byte of the register to the console
in getc read getchar = 'ld 254[r0],R' takes a byte of the input, in a source with '.input'
";

const DIRECTIVES: &str = "\
.text = the code section begins with '.code'
.byte .half .long .int .dw .ascii .asciiz .string = data are words: '.word' has one for each character or number
.skip .zero .comm .bss = '.space NUMBER' in the data section makes so many words of 0
.globl .global .extern .align .section .org .set .equ = a source needs none: it begins with its first instruction, and labels are known in all of it
.import .export = this is a module of a program: './mx check FIRST SECOND ..' checks its modules, './mx join FIRST SECOND ..' makes one source of them
";

const REGISTERS: &str = "\
zero = 'r0' is always 0
md = MD is moved by 'movfrs md,R' and 'movtos R,md' alone
at v0 v1 a0 a1 a2 a3 t0 t1 t2 t3 t4 t5 t6 t7 t8 t9 s0 s1 s2 s3 s4 s5 s6 s7 k0 k1 gp sp fp ra lr pc s8 = registers have no names but 'r0' to 'r31'; which of them does what is for the source to choose
";

// What replaces a word, by a table.
fn instead_by(table: &'static str, word: &[u8]) -> Option<&'static str> {
    for line in table.lines() {
        if let Some((words, instead)) = line.split_once(" = ") {
            for known in words.split(" ") {
                if spells(word, known) {
                    return Some(instead);
                }
            }
        }
    }
    None
}

/// What replaces a mnemonic of another machine.
pub fn mnemonic_instead(word: &[u8]) -> Option<&'static str> {
    instead_by(MNEMONICS, word)
}

/// What replaces a directive of another assembler.
pub fn directive_instead(word: &[u8]) -> Option<&'static str> {
    instead_by(DIRECTIVES, word)
}

/// What replaces a register of another machine.
pub fn register_instead(word: &[u8]) -> Option<&'static str> {
    instead_by(REGISTERS, word)
}
