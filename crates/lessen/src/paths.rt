// The files that the arguments name.
use crate::fault::Fault;
use crate::files;
use std::io::{self, ErrorKind};
use std::{env, fs};

#[derive(Drop)]
pub struct Paths {
    // The file whose lines are the parts.
    pub lines: String,
    // The file with a verdict a line.
    pub answers: String,
    // The file to be judged.
    pub out: String,
    // What is renamed to it once it is whole.
    pub part: String,
}

// Why the arguments can't be had.
fn lacking(error: io::Error) -> Fault<'static> {
    match error.kind() {
        ErrorKind::InvalidData => Fault::NoText,
        _ => error.into(),
    }
}

impl Paths {
    pub fn from_args(rt: &HostRuntime) -> Result<Paths, Fault<'static>> {
        let mut args = env::args(rt).map_err(lacking)?.skip(1);
        let (Some(lines), Some(answers), Some(out), None) = (
            args.next(),
            args.next(),
            args.next(),
            args.next(),
        ) else {
            return Err(Fault::Usage);
        };
        let part = format!(in rt.alloc(); "{out}.part")?;
        Ok(Paths {
            lines,
            answers,
            out,
            part,
        })
    }

    // Refuses where what is written would take the place of what is read.
    pub fn check(&self, rt: &HostRuntime) -> Result<(), Fault<'_>> {
        for input in [&self.lines, &self.answers] {
            for out in [&self.out, &self.part] {
                apart(rt, input, out)?;
            }
        }
        Ok(())
    }
}

fn apart<'a>(rt: &HostRuntime, input: &'a str, out: &'a str) -> Result<(), Fault<'a>> {
    let read = fs::metadata(rt, input).map_err(|error| Fault::Unread { path: input, error })?;
    let old = files::metadata(rt, out).map_err(|error| Fault::Unwritten { path: out, error })?;
    match old {
        Some(old) if !old.is_file() => Err(Fault::NoFile { path: out }),
        Some(old) if files::are_same(&old, &read) => Err(Fault::SameFile { out, input }),
        _ => Ok(()),
    }
}
