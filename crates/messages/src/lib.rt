//! Messages as both ends of a circuit send and receive them: which an end may send, which it may be handed, what is then counted and
//! recorded, and how a refusal is named.
#![tactic(auto)]

mod delivery;
mod faults;
mod heading;
mod numbers;
mod parts;
mod sending;
mod texts;

pub use delivery::deliver;
pub use faults::{EndError, EndFault, LENGTH};
pub use parts::{Cleared, Delivery, Message, Sender};
