// Finds the parts that make something fail, by asking at a keyboard, or another program.
// It uses `dialog` for its lines, `session` for the reducer, and `journal` for what is kept.
#![tactic(auto)]

mod options;
mod record;

use anyhow::{Context, bail};
use bisect::{MOST, Verdict};
use dialog::lines::{Left, Question};
use dialog::reading::{self, SizeError};
use options::Options;
use record::Record;
use session::{Act, Session};
use std::alloc::Global;
use std::fmt::Display;
use std::io;
use std::io::{BufRead, BufReader, Stdin, Write};
use std::process::ExitCode;

const UNDERSTOOD: &str = "an answer is y (yes, it fails), n (no, it does not) or u (unclear)";

type Lines = io::Split<BufReader<Stdin>, Global>;

// A talk about one thing that fails.
#[derive(Drop)]
struct Talk {
    session: Session,
    // What is kept of it, if anything is.
    record: Option<Record>,
    // So many questions were answered.
    answered: usize,
    // Whether it tells after each answer how far it has come.
    verbose: bool,
}

// Prints a line, and sees to it that it is shown.
fn say(rt: &HostRuntime, line: impl Display + Drop) -> io::Result<()> {
    println!(rt; "{line}")?;
    rt.stdout().flush()
}

impl Talk {
    // Goes on where a journal ends, and is kept there. The session is changed in its place: moved in results, it would
    // stand on the stack a dozen times.
    fn take_up(&mut self, rt: &HostRuntime, parts: u64, path: &str) -> anyhow::Result<()> {
        let mut record = Record::open(rt, path)?;
        self.answered = record.take_up(rt.alloc(), parts, &mut self.session)?;
        self.record = Some(record);
        Ok(())
    }

    // Says what the reducer does, and whether that is a question.
    fn asks(&self, rt: &HostRuntime) -> io::Result<bool> {
        match self.session.act() {
            Act::Ask(question) => {
                say(rt, Question(question))?;
                return Ok(true);
            }
            Act::Left(parts) => say(rt, Left(parts))?,
            Act::Sound => say(rt, "sound")?,
            Act::TooMany => say(rt, "too many")?,
        }
        Ok(false)
    }

    // Keeps the answer before anything else is asked.
    fn hear(&mut self, rt: &HostRuntime, verdict: Verdict) -> anyhow::Result<()> {
        if let (Some(record), Act::Ask(question)) = (&mut self.record, self.session.act()) {
            record.keep(rt.alloc(), question, verdict)?;
        }
        self.session.hear(verdict)?;
        self.answered = self.answered.saturating_add(1);
        Ok(())
    }

    fn tell_progress(&self, rt: &HostRuntime) -> io::Result<()> {
        let answered = self.answered;
        match (self.session.progress(), self.session.act()) {
            (Ok(progress), _) => {
                let (left, needed) = (progress.left, progress.needed);
                eprintln!(rt; "{answered} asked, {left} still in, {needed} found needed")
            }
            (_, Act::Left(parts)) => {
                let left = parts.len();
                eprintln!(rt; "{answered} asked, {left} still in, {left} found needed")
            }
            _ => eprintln!(rt; "{answered} asked"),
        }
    }

    // Goes on by a line if it is an answer, and says whether it was one.
    fn read(&mut self, rt: &HostRuntime, line: &[u8]) -> anyhow::Result<bool> {
        let Some(verdict) = reading::verdict_in(line) else {
            let text = String::from_utf8_lossy(rt.alloc(), line)?;
            eprintln!(rt; "no answer: {text:?}; {UNDERSTOOD}")?;
            return Ok(false);
        };
        self.hear(rt, verdict)?;
        if self.verbose {
            self.tell_progress(rt)?;
        }
        Ok(true)
    }

    // The question as text, if it asks one.
    fn text(&self, rt: &HostRuntime) -> anyhow::Result<Option<String>> {
        let Act::Ask(question) = self.session.act() else {
            return Ok(None);
        };
        Ok(Some(Question(question).to_string(rt.alloc())?))
    }

    fn run(&mut self, rt: &HostRuntime, lines: &mut Lines) -> anyhow::Result<()> {
        if !self.asks(rt)? {
            return Ok(());
        }
        // The question as text, from the first line on that is no answer: who sends one may send more, and then no number
        // is formatted twice.
        let mut text = None;
        for line in lines {
            let heard = self.read(rt, line?.as_slice())?;
            if heard == text.is_some() {
                text = self.text(rt)?;
            }
            if let Some(text) = &text {
                say(rt, text.as_str())?;
            } else if !self.asks(rt)? {
                return Ok(());
            }
        }
        if self.record.is_some() {
            bail!("the input ended before the answer; the same command goes on with this question");
        }
        bail!("the input ended before the answer")
    }
}

// The number of parts as text: what was given, or else the first line of the input.
fn size_text(given: Option<String>, lines: &mut Lines) -> anyhow::Result<Vec<u8>> {
    if let Some(given) = given {
        return Ok(given.into_bytes());
    }
    let line = lines.next();
    Ok(line.context("the input ended before the number of parts")??)
}

// An error keeps only so much of a text, so what is no number is shown here.
fn refuse(rt: &HostRuntime, given: &[u8]) -> anyhow::Result<ExitCode> {
    let text = String::from_utf8_lossy(rt.alloc(), given)?;
    eprintln!(rt; "ask: no number of parts: '{text}'")?;
    Ok(ExitCode::FAILURE)
}

fn run(rt: &HostRuntime) -> anyhow::Result<ExitCode> {
    let heap = rt.alloc();
    let mut options = Options::read(rt)?;
    let mut lines = BufReader::new(heap, rt.stdin())?.split(heap, b'\n');
    let given = size_text(options.size.take(), &mut lines)?;
    let parts = match reading::size_in(given.as_slice()) {
        Ok(parts) => parts,
        // As good as any number that is too large.
        Err(SizeError::TooMany) => u64::MAX,
        Err(SizeError::NoNumber) => return refuse(rt, given.as_slice()),
    };
    let mut talk = Talk {
        session: Session::begin(parts),
        record: None,
        answered: 0,
        verbose: options.verbose,
    };
    if let (Some(path), true) = (options.journal.as_deref(), parts <= MOST) {
        if let Err(error) = talk.take_up(rt, parts, path) {
            eprintln!(rt; "ask: {path}: {error}")?;
            return Ok(ExitCode::FAILURE);
        }
    }
    talk.run(rt, &mut lines)?;
    Ok(ExitCode::SUCCESS)
}

fn main(rt: HostRuntime) -> ExitCode {
    run(&rt).unwrap_or_else(|error| {
        // Where the message can't be shown, the status still tells.
        let _ = eprintln!(rt; "ask: {error}");
        ExitCode::FAILURE
    })
}
