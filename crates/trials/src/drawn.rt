// Tables and sets that are drawn.
use bisect::Verdict;
use rig::Random;
use std::alloc::{AllocError, Global};

// Draws a number for each subset: that it fails with a chance of so many eighths, and for half of the others that one can't tell. All together fail.
pub(crate) fn random_numbers(random: &mut Random, numbers: &mut [u64], eighths: u64) {
    numbers.fill_with(|| {
        let drawn = random.draw();
        let verdict = if drawn % 8 < eighths {
            Verdict::Yes
        } else if drawn / 8 % 2 == 0 {
            Verdict::No
        } else {
            Verdict::Unclear
        };
        verdict.into()
    });
    if let Some(last) = numbers.last_mut() {
        *last = Verdict::Yes.into();
    }
}

// So many sets of so many parts, each of which has a part with a chance of `chance` in sixteen.
#[derive(Clone, Copy)]
pub(crate) struct Sizes {
    pub(crate) parts: u64,
    pub(crate) sets: u64,
    pub(crate) chance: u64,
}

impl Sizes {
    fn draw_one(self, heap: Global, random: &mut Random) -> Result<Vec<u64>, AllocError> {
        (0..self.parts)
            .filter(|_| random.draw() % 16 < self.chance)
            .collect(heap)
    }

    // Draws sets, as lists in a row.
    pub(crate) fn draw(self, heap: Global, random: &mut Random) -> Result<Vec<u64>, AllocError> {
        let mut row = Vec::new(heap);
        for _ in 0..self.sets {
            let set = self.draw_one(heap, random)?;
            row.push(set.len() as u64)?;
            row.extend_from_slice(&set)?;
        }
        Ok(row)
    }
}
