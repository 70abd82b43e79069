//! What the programs read and print: fields of a line, decimal numbers and bytes in lower-case hexadecimal.
#![tactic(auto)]

pub mod decimal;
pub mod field;
pub mod hex;
#[cfg(test)]
mod tests;
