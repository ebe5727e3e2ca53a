// One step of the reduction of a file: hears the answers so far, and writes the lines that are to be judged next.
// It uses `candidate` for the lines, `dialog` for what it prints and reads, and `session` for the reducer.
#![tactic(auto)]

mod fault;
mod files;
mod paths;
mod replay;

ghost use Rattle.std.specs.Prelude.{◌≡◌, IfOk};
ghost use Rattle.lessen.specs.Written.{written};

use candidate::Lines;
use dialog::lines::{Left, Question};
use fault::Fault;
use paths::Paths;
use replay::Mishap;
use session::{Act, Session};
use std::alloc::{AllocError, Global};
use std::fmt::Display;
use std::fs;
use std::io::{self, Write};
use std::process::ExitCode;

fn read<'a>(rt: &HostRuntime, path: &'a str) -> Result<Vec<u8>, Fault<'a>> {
    fs::read(rt, path).map_err(|error| Fault::Unread { path, error })
}

// Says what is wrong with one of the answers, and in which line.
fn misheard<'a>(
    heap: Global,
    path: &'a str,
    answers: &[u8],
    mishap: Mishap,
) -> Result<Fault<'a>, AllocError> {
    let (Mishap::NoAnswer(place) | Mishap::Unasked(place)) = mishap;
    let line = Lines::of(answers).nth(place).unwrap_or(&[]);
    let text = String::from_utf8_lossy(heap, replay::bare(line))?;
    let number = place.saturating_add(1);
    Ok(match mishap {
        Mishap::NoAnswer(_) => Fault::NoAnswer { path, number, text },
        Mishap::Unasked(_) => Fault::Unasked { path, number, text },
    })
}

fn hear_all<'a>(rt: &HostRuntime, session: &mut Session, path: &'a str) -> Result<(), Fault<'a>> {
    let answers = read(rt, path)?;
    match replay::hear_all(session, &answers) {
        Ok(()) => Ok(()),
        Err(mishap) => Err(misheard(rt.alloc(), path, &answers, mishap)?),
    }
}

// The lines that are asked of or left; where all together don't fail, all of them.
fn content(heap: Global, text: &[u8], act: Act<'_>) -> Result<Vec<u8>, AllocError>
    ensures { IfOk result (λ bytes. bytes.items ≡ written text.now act.entry) }
{
    match act {
        Act::Ask(parts) | Act::Left(parts) => candidate::candidate(heap, text, parts),
        Act::Sound | Act::TooMany => text.to_vec(heap),
    }
}

// Prints a line, and sees to it that it is shown.
fn print(rt: &HostRuntime, line: impl Display + Drop) -> io::Result<()> {
    println!(rt; "{line}")?;
    rt.stdout().flush()
}

fn say(rt: &HostRuntime, act: Act<'_>) -> io::Result<()> {
    match act {
        Act::Ask(parts) => print(rt, Question(parts)),
        Act::Left(parts) => print(rt, Left(parts)),
        Act::Sound => print(rt, "sound"),
        Act::TooMany => print(rt, "too many"),
    }
}

fn write<'a>(rt: &HostRuntime, paths: &'a Paths, bytes: &[u8]) -> Result<(), Fault<'a>> {
    let path = paths.out.as_str();
    files::write_whole(rt, &paths.part, path, bytes).map_err(|error| Fault::Unwritten {
        path,
        error,
    })
}

fn step<'a>(rt: &HostRuntime, paths: &'a Paths) -> Result<(), Fault<'a>> {
    paths.check(rt)?;
    let text = read(rt, &paths.lines)?;
    let lines = candidate::count(&text);
    let mut session = Session::begin(lines as u64);
    if session.act() == Act::TooMany {
        say(rt, session.act())?;
        let path = paths.lines.as_str();
        return Err(Fault::TooMany { path, lines });
    }
    hear_all(rt, &mut session, &paths.answers)?;
    write(rt, paths, &content(rt.alloc(), &text, session.act())?)?;
    say(rt, session.act())?;
    Ok(())
}

fn report(rt: &HostRuntime, told: Result<(), Fault<'_>>) -> ExitCode {
    let Err(fault) = told else {
        return ExitCode::SUCCESS;
    };
    // Where the message can't be shown, the status still tells.
    let _ = eprintln!(rt; "lessen: {fault}");
    ExitCode::FAILURE
}

fn main(rt: HostRuntime) -> ExitCode {
    match Paths::from_args(&rt) {
        Ok(paths) => report(&rt, step(&rt, &paths)),
        Err(fault) => report(&rt, Err(fault)),
    }
}
