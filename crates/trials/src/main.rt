// Tries the reducer against every judge of few parts and against random ones, and shows that the inspector catches machines that fail.
// It uses `rig` for each trial, and `judges` and `faulty` for what is tried.
#![tactic(auto)]

use board::Board;
use drawn::{Sizes, random_numbers};
use faulty::{AsksAgain, BothEnds, LostCount, NoHalf, TriesAll, TriesOnce, UnclearFails};
use inspect::Reducer;
use judges::{Chained, Judge, Sets, Table};
use rig::{Desk, Random, digits};
use std::io;
use std::ops::Range;

mod board;
mod drawn;

// What the trials work with.
#[derive(Drop)]
struct Trials<'a> {
    rt: &'a HostRuntime,
    desk: Desk,
    random: Random,
}

impl<'a> Trials<'a> {
    fn print_title(&self, title: &str) -> io::Result<()> {
        println!(self.rt; "{title}")?;
        println!(self.rt;
            "{:>2} {:>2} {:>7} {:>5} {:>6} {:>9} {:>5} {:>6}",
            "n", "k", "judges", "most", "bound", "monotone", "most", "bound"
        )
    }

    // Judges by all tables whose numbers are the digits of these codes, in a row with a number for each subset.
    fn all_tables(
        &mut self,
        parts: u64,
        numbers: &mut [u64],
        base: u64,
        codes: Range<u64>,
    ) -> anyhow::Result<()> {
        let mut board = Board::new(parts);
        for code in codes {
            digits(code, base, numbers)?;
            board.try_one(&mut self.desk, &mut Table { numbers }, false)?;
        }
        Ok(board.print(self.rt)?)
    }

    // 0, 1 or 2 for each of the eight subsets.
    fn three_parts(&mut self) -> anyhow::Result<()> {
        self.print_title("every judge of three parts")?;
        self.all_tables(3, &mut [0; 8], 3, 0..6561)
    }

    // 1 for all four, and 0 or 1 for each of the other subsets.
    fn four_parts(&mut self) -> anyhow::Result<()> {
        self.print_title("every judge of four parts that fails all four")?;
        self.all_tables(4, &mut [0; 16], 2, 32768..65536)
    }

    // Judges by random tables, in a row with a number for each subset.
    fn random_tables(&mut self, parts: u64, numbers: &mut [u64]) -> anyhow::Result<()> {
        let mut board = Board::new(parts);
        for trial in 0..1000 {
            random_numbers(&mut self.random, numbers, 1 + trial % 7);
            board.try_one(&mut self.desk, &mut Table { numbers }, false)?;
        }
        Ok(board.print(self.rt)?)
    }

    fn random_judges(&mut self) -> anyhow::Result<()> {
        self.print_title("random judges")?;
        // Arrays, and no vector: no memory is asked for here that could be lacking.
        self.random_tables(5, &mut [0; 32])?;
        self.random_tables(6, &mut [0; 64])?;
        self.random_tables(7, &mut [0; 128])?;
        self.random_tables(8, &mut [0; 256])?;
        self.random_tables(9, &mut [0; 512])
    }

    // Judges that fail what has all of one of some sets. Of more than nine parts, the inspector is told that they are monotone.
    fn sets_of(&mut self, parts: u64, trials: u64) -> anyhow::Result<()> {
        let mut board = Board::new(parts);
        for trial in 0..trials {
            let sizes = Sizes {
                parts,
                sets: 1 + trial % 3,
                chance: 1 + trial % 8,
            };
            let row = sizes.draw(self.rt.alloc(), &mut self.random)?;
            board.try_one(&mut self.desk, &mut Sets { sets: &row }, parts > 9)?;
        }
        Ok(board.print(self.rt)?)
    }

    fn given_sets(&mut self) -> anyhow::Result<()> {
        self.print_title("judges by given sets")?;
        for parts in 1..10 {
            self.sets_of(parts, 480)?;
        }
        for parts in [16, 32, 64] {
            self.sets_of(parts, 240)?;
        }
        Ok(())
    }

    // Runs a machine that fails against a judge of so many parts, and prints what the inspector finds.
    fn catch<R: Reducer + Drop, J: Judge + Drop>(
        &mut self,
        name: &str,
        mut reducer: R,
        (says, mut judge): (&str, J),
        parts: u64,
    ) -> io::Result<()> {
        match self.desk.inspected(&mut reducer, &mut judge, parts, false) {
            Ok(()) => println!(self.rt; "{name}, {says} of {parts}: nothing"),
            Err(finding) => println!(self.rt; "{name}, {says} of {parts}: {finding}"),
        }
    }

    fn faulty_machines(&mut self) -> io::Result<()> {
        println!(self.rt; "machines that fail")?;
        let both = ("fails with 1 and 4", Sets { sets: &[2, 1, 4] });
        let either = (
            "fails with 0 or 5",
            Sets {
                sets: &[1, 0, 1, 5],
            },
        );
        let shrinking = (
            "fails 0 1 2 and 0 2 and 2",
            Table {
                numbers: &[0, 0, 0, 0, 1, 1, 0, 1],
            },
        );
        let chain = (
            "2 needs 1 needs 0",
            Chained {
                needs: &[0, 0, 1],
                judge: Sets { sets: &[1, 2] },
            },
        );
        self.catch("lost count", LostCount::new(), both, 6)?;
        self.catch("no half fails", NoHalf::new(), both, 6)?;
        self.catch("tried once", TriesOnce::new(), shrinking, 3)?;
        self.catch("unclear fails", UnclearFails::new(), chain, 3)?;
        self.catch("asks again", AsksAgain::new(), both, 6)?;
        self.catch("from both ends", BothEnds::new(), either, 6)?;
        self.catch("tries all", TriesAll::new(), both, 12)
    }

    fn run(&mut self) -> anyhow::Result<()> {
        self.three_parts()?;
        println!(self.rt)?;
        self.four_parts()?;
        println!(self.rt)?;
        self.random_judges()?;
        println!(self.rt)?;
        self.given_sets()?;
        println!(self.rt; "\neach transcript was inspected, and nothing was found\n")?;
        Ok(self.faulty_machines()?)
    }
}

fn main(rt: HostRuntime) -> anyhow::Result<()> {
    let mut trials = Trials {
        rt: &rt,
        desk: Desk::new(),
        random: Random::seeded(),
    };
    trials.run()
}
