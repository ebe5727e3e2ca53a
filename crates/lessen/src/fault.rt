// Why nothing was written.
use std::alloc::AllocError;
use std::io;
use thiserror::Error;

#[derive(Debug, Drop, Error)]
pub enum Fault<'a> {
    #[error("usage: lessen LINES ANSWERS OUT")]
    Usage,
    #[error("an argument is no text")]
    NoText,
    #[error("{path}: it can't be read: {error}")]
    Unread {
        path: &'a str,
        error: io::Error,
    },
    #[error("{path}: it can't be written: {error}")]
    Unwritten {
        path: &'a str,
        error: io::Error,
    },
    #[error("{path}: it is no file, and is not replaced")]
    NoFile {
        path: &'a str,
    },
    #[error("{out}: it is the same file as {input}")]
    SameFile {
        out: &'a str,
        input: &'a str,
    },
    #[error("{path}:{number}: no answer: {text:?}; an answer is y (yes, it fails), n (no, it does not) or u (unclear)")]
    NoAnswer {
        path: &'a str,
        number: usize,
        text: String,
    },
    #[error("{path}:{number}: there is no question to the answer {text:?}")]
    Unasked {
        path: &'a str,
        number: usize,
        text: String,
    },
    #[error("{path}: it has {lines} lines, and 4096 is the most")]
    TooMany {
        path: &'a str,
        lines: usize,
    },
    #[error(transparent)]
    Output(#[from] io::Error),
    #[error(transparent)]
    Memory(#[from(alloc)] AllocError),
}
