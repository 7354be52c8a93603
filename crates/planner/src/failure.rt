// Why the program stops before its end. It prints as one sentence, and the process ends with status 1. An enum of its own, since anyhow's
// error keeps 120 bytes of a message, and a refusal here may hold a whole page of help.
use std::alloc::AllocError;
use std::{fmt, io};
use thiserror::Error;

#[derive(Debug, Drop, Error)]
pub enum Failure {
    #[error("there is not enough memory")]
    Memory(#[from(alloc)] AllocError),
    #[error(transparent)]
    Io(#[from] io::Error),
    // a sentence that says what was refused, and where
    #[error("{0}")]
    Told(String),
}

// Stops with a sentence.
pub fn fail<T: Drop>(rt: &HostRuntime, sentence: impl fmt::Display + Drop) -> Result<T, Failure> {
    Err(Failure::Told(format!(in rt.alloc(); "{sentence}")?))
}
