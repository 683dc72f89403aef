//! The source of the shipped handler.
ghost use Rattle.std.specs.Prelude.{◌≡◌, Some, map};
ghost use Rattle.mx_handler.specs.Source.{text_of_word};

use mx_turn::SHIPPED;

/// The texts of the instructions that the words of `SHIPPED` spell, in their order. Those that only the system may
/// use (moves of pc1 to pc3, `jpc` and `jpcrs`) are written as in a source too, though the assembler refuses them.
pub fn handler_source() -> [&'static str; 23]
    ensures { map (λ s. Some s.now) result ≡ map text_of_word SHIPPED }
{
    [
        "st 1[r0],r1",
        "st 2[r0],r2",
        "movfrs pc1,r1",
        "movfrs pc2,r2",
        "st 3[r0],r1",
        "st 4[r0],r2",
        "movfrs pc3,r1",
        "st 5[r0],r1",
        "ld 0[r0],r2",
        "ld 3[r0],r1",
        "addi r2,#1,r2",
        "st 0[r0],r2",
        "movtos r1,pc1",
        "ld 4[r0],r2",
        "ld 5[r0],r1",
        "movtos r2,pc2",
        "movtos r1,pc3",
        "ld 2[r0],r2",
        "ld 1[r0],r1",
        "add r0,r0,r0",
        "jpc",
        "jpc",
        "jpcrs",
    ]
}
