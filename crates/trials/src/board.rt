// A table of how many were asked of judges of so many parts.
use anyhow::anyhow;
use judges::Judge;
use rig::{Desk, Row};
use std::fmt::Display;
use std::io;

#[derive(Drop)]
pub(crate) struct Board {
    parts: u64,
    // Where it said "sound".
    sound: Row,
    // By how many are left.
    left: [Row; 65],
}

// Prints a row that has judges, with the most questions allowed of any judge and of monotone ones.
fn print_row(
    rt: &HostRuntime,
    parts: u64,
    left: impl Display + Drop,
    row: &Row,
    any: u64,
    few: u64,
) -> io::Result<()> {
    let Row { all, monotone } = row;
    if all.judges == 0 {
        return Ok(());
    }
    println!(rt;
        "{parts:>2} {left:>2} {:>7} {:>5} {any:>6} {:>9} {:>5} {few:>6}",
        all.judges, all.most, monotone.judges, monotone.most
    )
}

impl Board {
    pub(crate) fn new(parts: u64) -> Board {
        Board {
            parts,
            sound: Row::none(),
            left: [Row::none(); 65],
        }
    }

    fn row(&mut self, left: Option<u64>) -> Option<&mut Row> {
        match left {
            None => Some(&mut self.sound),
            Some(count) => self.left.get_mut(count as usize),
        }
    }

    // Tries the reducer against one more judge.
    pub(crate) fn try_one<J: Judge>(
        &mut self,
        desk: &mut Desk,
        judge: &mut J,
        told: bool,
    ) -> anyhow::Result<()> {
        let shown = desk.try_reducer(judge, self.parts, told)?;
        let Some(row) = self.row(shown.left) else {
            return Err(anyhow!("more parts are left than the table has rows"));
        };
        *row = row.with(shown.asked, shown.monotone);
        Ok(())
    }

    pub(crate) fn print(&self, rt: &HostRuntime) -> io::Result<()> {
        print_row(rt, self.parts, "-", &self.sound, 1, 1)?;
        let more = self.parts.saturating_add(1);
        let any = more.saturating_mul(more).saturating_mul(15);
        for (left, row) in self.left.iter().enumerate() {
            print_row(rt, self.parts, left, row, any, 14 * (left as u64 + 1))?;
        }
        Ok(())
    }
}
