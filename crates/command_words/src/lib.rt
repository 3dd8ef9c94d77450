//! The words of the command line: what the program is told to do, and where its repository lies.
#![tactic(auto)]

mod complaints;
mod help;
mod parsers;
mod reading;
mod words;

pub use complaints::{Complaint, complaint_of};
pub use help::version;
pub use reading::{
    BoxWords, Command, Location, Topic, UsageFault, WordsFault, location_of, read_words,
    shows_progress,
};
pub use words::{Word, words_of};
