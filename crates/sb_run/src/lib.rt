//! The top call: [`run`] takes the words of the command line and a shelf, and does all that the
//! program does. Read `specs/Promises.antt` first: each answer and when it comes.
#![tactic(auto)]

mod answer;
mod command;
mod judgement;
mod messages;
mod outputs;
mod program;

pub use answer::{Answer, Code, status};
pub use program::run;
