//! What is wrong with a bad line, why a command was refused, and what helps; and the help of each command.
#![tactic(auto)]

mod block_use;
mod command_kind;
mod desk_facts;
mod explainer;
mod facts;
mod faults;
mod help;
mod kind_texts;
mod laws;
mod numbers;
mod oddity;
mod refused;
mod running;
mod sentences;
mod shown;
mod subjects;
mod word_kind;
mod words;

pub use block_use::BlockUse;
pub use command_kind::CommandKind;
pub use desk_facts::DeskFacts;
pub use help::put_command_help;
pub use laws::table_law;
pub use running::{explain_script, explain_whole};
pub use shown::put_shown;
