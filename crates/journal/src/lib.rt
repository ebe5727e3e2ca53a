// The journal of a run: what was asked and answered, as a text that a person can read and mend.
// It uses `dialog` for what a line is, `session` for the reducer, and `bisect` and `subset` for what a question is.
#![tactic(auto)]

ghost use Rattle.journal.specs.Line.{ReadsBack};
ghost use Rattle.journal.specs.Promise.{AwaitsWhatItAsks, CutOffIsNothing, GoesOn, NamesTheFirst, OnlyItsOwn};

pub mod line;
pub mod replay;

// What is written of a run is read back.
pub fn lines_stand() -> u8
    ensures { ReadsBack }
{
    0
}

// What was written of a run leads back to where it stood, and nothing else is taken up.
pub fn journal_stands() -> u8
    ensures goes_on { GoesOn }
    ensures only { OnlyItsOwn }
    ensures first { NamesTheFirst }
    ensures cut_off { CutOffIsNothing }
    ensures awaited { AwaitsWhatItAsks }
{
    0
}
