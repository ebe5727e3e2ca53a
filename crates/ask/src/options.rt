// What the program is told at its start.
use anyhow::{anyhow, bail};
use std::env;
use std::io::ErrorKind;

const USAGE: &str =
    "usage: ask [-v] [N [JOURNAL]] (with no N, the first line of the input is the number of parts)";

#[derive(Drop)]
pub(crate) struct Options {
    // The number of parts, as text.
    pub(crate) size: Option<String>,
    // Where the talk is kept.
    pub(crate) journal: Option<String>,
    pub(crate) verbose: bool,
}

impl Options {
    fn add(&mut self, argument: String) -> anyhow::Result<()> {
        if argument.as_str() == "-v" {
            self.verbose = true;
        } else if self.size.is_none() {
            self.size = Some(argument);
        } else if self.journal.is_none() {
            self.journal = Some(argument);
        } else {
            bail!("{USAGE}");
        }
        Ok(())
    }

    pub(crate) fn read(rt: &HostRuntime) -> anyhow::Result<Options> {
        let args = env::args(rt).map_err(|error| match error.kind() {
            ErrorKind::InvalidData => anyhow!("no number of parts: an argument is no text"),
            _ => error.into(),
        })?;
        let mut options = Options {
            size: None,
            journal: None,
            verbose: false,
        };
        for argument in args.skip(1) {
            options.add(argument)?;
        }
        Ok(options)
    }
}
