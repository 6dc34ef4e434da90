//! Plays scripts on a world of one chain, and on locked nodes beside it, from bytes to printed
//! lines; used by `craq_lab`, `craq_schedules` and `craq_picture`. Reads linearization witnesses
//! from JSON. Runs in the program.
#![tactic(auto)]

mod explanation;
mod fault;
mod json_error;
mod moving;
mod on_cells;
mod plain_core;
mod played_chain;
mod playing;
mod printing;
mod reading;

pub use craq_script::{Script, asked_update, print_answer, print_refusal, print_reply, read_of};
pub use explanation::explanation_text;
pub use fault::PlayFault;
pub use json_error::{JsonError, Member};
pub use moving::move_of;
pub use on_cells::play;
pub use plain_core::PlainCore;
pub use played_chain::PlayedChain;
pub use playing::{opened_core, play_line, play_move};
pub use printing::{print_message, print_step, word_of};
pub use reading::explanation_of;
