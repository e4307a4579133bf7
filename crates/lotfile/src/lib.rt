// Lots as words of 32 bits: at a place of a buffer, or as the bytes of a whole file.
#![tactic(auto)]

pub mod fault;
#[cfg(test)]
mod tests;
pub mod whole;
mod words;
pub mod writing;

pub use fault::WriteFault;
pub use whole::{FileError, file};
pub use writing::{write_end, write_lot};
