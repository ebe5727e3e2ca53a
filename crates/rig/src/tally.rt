// How many judges there were of a kind, and the most questions that one of them was asked.
ghost use Rattle.std.specs.Prelude.{◌≡◌};
ghost use Rattle.rig.specs.Tally.{noted, one_more};

#[derive(Clone, Copy, Debug, PartialEq, Eq)]
pub struct Count {
    pub judges: u64,
    pub most: u64,
}

// All judges, and those that are monotone.
#[derive(Clone, Copy, Debug, PartialEq, Eq)]
pub struct Row {
    pub all: Count,
    pub monotone: Count,
}

impl Count {
    pub fn none() -> Count
        ensures { result ≡ record { judges = 0; most = 0 } }
    {
        Count { judges: 0, most: 0 }
    }

    // With one judge more, who was asked so many.
    pub fn with(self, asked: u64) -> Count
        ensures { result ≡ one_more asked self }
    {
        Count {
            judges: self.judges.saturating_add(1),
            most: self.most.max(asked),
        }
    }
}

impl Row {
    pub fn none() -> Row
        ensures { result ≡ record { all = record { judges = 0; most = 0 }; monotone = record { judges = 0; most = 0 } } }
    {
        Row {
            all: Count::none(),
            monotone: Count::none(),
        }
    }

    // With one judge more, who was asked so many and is monotone or not.
    pub fn with(self, asked: u64, monotone: bool) -> Row
        ensures { result ≡ noted asked monotone self }
    {
        Row {
            all: self.all.with(asked),
            monotone: if monotone {
                self.monotone.with(asked)
            } else {
                self.monotone
            },
        }
    }
}
