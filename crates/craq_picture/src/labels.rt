//! Prints the words of a picture: each move's request, in short; called by `rows`.
use craq_commands::{Command, ReadMode};
use craq_model::Ask;
use craq_names::{Key, NodeId};
use craq_runs::Move;
use std::alloc::AllocError;

/// Prints a key, with a dot for each byte that is not a graphic ASCII character.
pub(crate) fn print_key(text: &mut String, key: &Key) -> Result<(), AllocError> {
    for byte in key.as_slice() {
        let shown = if byte.is_ascii_graphic() { *byte } else { b'.' };
        text.push(char::from(shown))?;
    }
    Ok(())
}

/// Prints a word and the key after it.
fn print_word(text: &mut String, word: &str, key: &Key) -> Result<(), AllocError> {
    text.push_str(word)?;
    print_key(text, key)
}

/// Prints a command by its word and its object.
fn print_command(text: &mut String, command: &Command) -> Result<(), AllocError> {
    match command {
        Command::Put { object, value: _ } => print_word(text, "put ", &object.key),
        Command::TestAndSet {
            object,
            expect: _,
            value: _,
        } => print_word(text, "tas ", &object.key),
        Command::Append { object, value: _ } => print_word(text, "append ", &object.key),
        Command::Prepend { object, value: _ } => print_word(text, "prepend ", &object.key),
        Command::Increment { object, by: _ } => print_word(text, "inc ", &object.key),
        Command::Decrement { object, by: _ } => print_word(text, "dec ", &object.key),
        Command::Mini(_) => text.push_str("mini"),
    }
}

/// Prints the mode of a read.
fn print_mode(text: &mut String, mode: ReadMode) -> Result<(), AllocError> {
    match mode {
        ReadMode::Strong => text.push_str("strong"),
        ReadMode::Eventual => text.push_str("eventual"),
        ReadMode::Bounded(most) => write!(text, "bounded:{most}"),
    }
}

/// Prints a request: an update by its command, client and number, or a read by its mode and object.
fn print_ask(text: &mut String, ask: &Ask) -> Result<(), AllocError> {
    match ask {
        Ask::Update(update) => {
            print_command(text, &update.command)?;
            let client = update.client.get();
            let number = update.number.get();
            write!(text, " ({client}.{number})")
        }
        Ask::Read { mode, object } => {
            text.push_str("read ")?;
            print_mode(text, *mode)?;
            print_word(text, " ", &object.key)
        }
    }
}

/// Prints a word and the node after it.
fn print_at(text: &mut String, word: &str, node: NodeId) -> Result<(), AllocError> {
    let node = node.get();
    write!(text, "{word} {node}")
}

/// Prints a move as its script line, without its node and its value.
pub(crate) fn print_move(text: &mut String, chosen: &Move) -> Result<(), AllocError> {
    match chosen {
        Move::Ask { node: _, ask } => print_ask(text, ask),
        Move::Deliver(number) => {
            let number = *number;
            write!(text, "deliver {number}")
        }
        Move::Tick(node) => print_at(text, "tick", *node),
        Move::Stop(node) => print_at(text, "stop", *node),
        Move::Remove(node) => print_at(text, "remove", *node),
        Move::Join(node) => print_at(text, "join", *node),
    }
}
