//! The world outside the program: where it reads, where it writes, and which faults it meets there.
//!
//! A [`Shelf`] has four calls. Its contract says what is read and written, where the shelf tells
//! it, and that a call fails only where a count of faults rises. [`MemoryShelf`] tells all bytes
//! and fails where it is told to; [`SteadyShelf`] tells what is read and never fails;
//! [`HostShelf`] is real files and standard output. [`read_all`] and [`write_all`] move whole
//! texts. Read `specs/World.antt` and `specs/Calls.antt` first.
#![tactic(auto)]

mod counting;
mod host;
mod input;
mod memory;
mod page;
mod places;
mod shelf;
mod steady;
mod streams;
mod whole_input;
mod whole_output;

pub use counting::Calls;
pub use host::HostShelf;
pub use memory::MemoryShelf;
pub use sb_list::Text;
pub use shelf::{Failed, Out, Shelf};
pub use steady::SteadyShelf;
pub use whole_input::{LONGEST_INPUT, ReadError, read_all};
pub use whole_output::{WriteFault, write_all};
