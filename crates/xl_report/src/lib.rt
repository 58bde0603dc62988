//! A line that is put together in a fixed buffer, and put once; the lines of a report, and its rows
//! as JSON.
#![tactic(auto)]

mod answer;
mod front;
mod line;
mod object;
mod row;
mod size;

pub use answer::{Answered, write_answer, write_command, write_image};
pub use line::Line;
pub use object::{json, row_value, text};
pub use row::write_row;
