//! What a run of the program is asked to do and what it reads and writes by: the words of a command line, devices, streams of
//! hexadecimal digits.
#![tactic(auto)]

pub mod count;
pub mod devices;
pub mod file_options;
pub mod file_words;
pub mod hexadecimal;
pub mod options;
mod program;
pub mod transfer;
pub mod words;
