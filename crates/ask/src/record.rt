// The file that keeps a talk. It only ever grows, and each answer is in it before the next question is shown.
use anyhow::{bail, ensure};
use bisect::Verdict;
use journal::line::{Exchange, Heading};
use journal::replay::{exchanges, is_unbegun, replay, torn};
use session::Session;
use std::alloc::Global;
use std::fmt::Display;
use std::fs::{File, OpenOptions, TryLockError};
use std::io;
use std::io::{Read, Write};

#[derive(Drop)]
pub(crate) struct Record {
    file: File,
}

impl Record {
    // Makes the file if it isn't there. Two programs that write in one would spoil it, so it is locked.
    pub(crate) fn open(rt: &HostRuntime, path: &str) -> anyhow::Result<Record> {
        let file = OpenOptions::new()
            .read(true)
            .append(true)
            .create(true)
            .open(rt, path)?;
        match file.try_lock() {
            Ok(()) => Ok(Record { file }),
            Err(TryLockError::WouldBlock) => bail!("another program has it open"),
            Err(TryLockError::Error(error)) => Err(error.into()),
        }
    }

    // In one write, so that a line is cut off only where the machine fails.
    fn add(&mut self, heap: Global, line: impl Display + Drop) -> io::Result<()> {
        let text = format!(in heap; "{line}\n")?;
        self.file.write_all(text.as_bytes())?;
        self.file.sync_data()
    }

    pub(crate) fn keep(
        &mut self,
        heap: Global,
        question: &[u64],
        verdict: Verdict,
    ) -> io::Result<()> {
        self.add(heap, Exchange { question, verdict })
    }

    // A last line that was cut off in writing is ended, so that it is skipped from now on.
    fn end_torn(&mut self, heap: Global, text: &[u8]) -> io::Result<()> {
        if torn(text).is_empty() {
            return Ok(());
        }
        self.add(heap, " #")
    }

    // Begins a journal, or brings a session that was just begun to where it ends; and how many questions it tells of. What
    // is no journal of so many parts stays as it is.
    pub(crate) fn take_up(
        &mut self,
        heap: Global,
        parts: u64,
        session: &mut Session,
    ) -> anyhow::Result<usize> {
        let mut text = Vec::new(heap);
        self.file.read_to_end(&mut text)?;
        if is_unbegun(heap, parts, &text)? {
            self.end_torn(heap, &text)?;
            self.add(heap, Heading(parts))?;
            return Ok(0);
        }
        let replayed = replay(heap, &text)?;
        ensure!(
            replayed.parts == parts,
            "it is the journal of {} parts, and not of {parts}",
            replayed.parts
        );
        self.end_torn(heap, &text)?;
        *session = replayed.session;
        Ok(exchanges(&text))
    }
}
