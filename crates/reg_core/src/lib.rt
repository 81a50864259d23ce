//! The registry as an abstract machine: levels, modes, codes, replies, retry keys and commands, and
//! the changes and the reply of each command. It uses no database and no HTTP.

#![tactic(auto)]

mod code;
mod command;
mod compatibility;
mod decision;
mod delivery;
mod evidence;
mod json_strings;
mod key;
mod laws;
mod level;
mod mode;
mod needs;
mod number;
mod print;
mod reply;
mod row;
mod subject;
mod text;

pub use avro_nodes::OutOfMemory;
pub use code::Code;
pub use command::Command;
pub use compatibility::{admission_is_decided, admits};
pub use decision::{
    Change, Decision, View, decide, decide_with_cache, ids_to_read, is_compatible_with, schema_of,
};
pub use delivery::Delivery;
pub use evidence::Evidence;
pub use json_strings::unescaped;
pub use key::Key;
pub use laws::{
    additions_are_admitted, commands_preserve_invariant, commands_reply_as_commands,
    evidence_stays_true,
};
pub use level::Level;
pub use mode::Mode;
pub use needs::{Needs, RowsNeeded, SubjectRows};
pub use number::{MAX_NUMBER, VersionChoice, parse_choice, parse_id, parse_number};
pub use print::print_of;
pub use reply::Reply;
pub use row::Row;
pub use subject::{Subject, is_subject};
pub use text::Text;
