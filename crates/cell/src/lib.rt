//! Cells and relay payloads: their bytes, read where they lie and written into lent buffers.
#![tactic(auto)]

mod command;
mod error;
mod frame;
mod numbers;
mod parts;
mod payload;
mod sizes;

pub use command::{Command, Way};
pub use error::CellError;
pub use frame::{Cell, cell_number, read_cell, write_header};
pub use numbers::UnknownCommand;
pub use payload::{DataPart, PayloadReader, clear_tag, is_written, set_tag, write_payload};
pub use sizes::{CELL_SIZE, DATA_LIMIT, HEADER_SIZE, PAYLOAD_SIZE};

#[cfg(test)]
mod tests;
