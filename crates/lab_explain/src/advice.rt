//! Why a meaning is stuck, and what helps.
ghost use Rattle.std.specs.Prelude.{◌≡◌};
ghost use Rattle.cmd_meaning.specs.Told.{why_text};

use cmd_meaning::why_text;
use mx_source::Why;

/// The name of a reason, as `meaning` prints it.
pub fn name_of(why: Why) -> &'static str
    ensures { result.now ≡ why_text why }
{
    why_text(why)
}

/// The reason, in a sentence.
pub fn reason_of(why: Why) -> &'static str {
    match why {
        Why::PastEnd => "execution runs past the last instruction",
        Why::CodeOperand => "arithmetic on a code address",
        Why::LoadOutside => {
            "the load is outside the data, 256 to 65,535, and not from the input"
        }
        Why::StoreOutside => {
            "the store is outside the data, 256 to 65,535, and not to the console, 255"
        }
        Why::CodeToConsole => "a code address is sent to the console, which takes numbers",
        Why::JumpNotCode => "the jump goes to a number, not to a code address",
    }
}

/// What helps.
pub fn advice_of(why: Why) -> &'static str {
    match why {
        Why::PastEnd => "add 'halt' where the program ends",
        Why::CodeOperand => {
            "code addresses, from 'la', '.word', 'call' and 'callr', can only be copied by 'mov', stored, loaded and jumped to"
        }
        Why::LoadOutside => {
            "check the register and the offset; address 254 is the input only in a source with a line '.input'"
        }
        Why::StoreOutside => "check the register and the offset",
        Why::CodeToConsole =>
            "check the register that is sent: 'la' of a data label gives a number",
        Why::JumpNotCode => {
            "'call LABEL,R', 'callr R,R' and 'la LABEL,R' make code addresses: the register was changed since, or never set"
        }
    }
}
