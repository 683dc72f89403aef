//! Laws of the handler.
ghost use Rattle.std.specs.Prelude.{◌≡◌};
ghost use Rattle.mx_turn.specs.Handler.{shipped};
ghost use Rattle.mx_handler.specs.Returns.{HandlerReturns, HandlerIsQuiet};

use mx_turn::SHIPPED;

/// The words with which a machine begins that is given no other handler are those of the definition.
pub fn handler_is_shipped()
    ensures words { SHIPPED ≡ shipped }
{}

/// After 23 turns of the handler and three more, what an interrupt saved is back.
pub fn handler_returns()
    ensures { HandlerReturns }
{}

/// In these turns no interrupt is taken, the machine does not halt, and no byte goes out.
pub fn handler_is_quiet()
    ensures { HandlerIsQuiet }
{}
