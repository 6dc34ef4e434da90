//! The limits that the type of a transaction keeps, stated of moves; used where a chain keeps a
//! move.
ghost use Rattle.craq_runs.specs.Typed.{IsAskOfType, IsMoveOfType, IsOfType};

use craq_commands::Command;
use craq_model::Ask;
use craq_runs::Move;

/// States that a command's transaction is within the limits that its type keeps. Does nothing.
fn keep_command_limits(command: &Command)
    ensures { IsOfType command.now }
{
    if let Command::Mini(mini) = command {
        mini.keeps_limits();
    }
}

/// States that a request's transaction is within the limits that its type keeps. Does nothing.
pub fn keep_ask_limits(ask: &Ask)
    ensures { IsAskOfType ask.now }
{
    if let Ask::Update(update) = ask {
        keep_command_limits(&update.command);
    }
}

/// States that the transaction of a move's request is within the limits that its type keeps. Does
/// nothing.
pub fn keep_limits(chosen: &Move)
    ensures { IsMoveOfType chosen.now }
{
    if let Move::Ask { ask, .. } = chosen {
        keep_ask_limits(ask);
    }
}
