// Machines that fail, each to be caught at breaking a promise. What they do is shown by running them; proved is that each is safe, ends,
// and tells of what stands in the lent row. They hold a subset by its number, part p counting 2^p, and so take at most 63 parts.
// It uses `inspect` for what a machine answers, and `subset` and `bisect` for their small subsets.
#![tactic(auto)]

pub use again::AsksAgain;
pub use all::TriesAll;
pub use ends::BothEnds;
pub use halves::NoHalf;
pub use once::{LostCount, TriesOnce};
pub use unclear::UnclearFails;

mod again;
mod all;
mod code;
mod ends;
mod halves;
mod once;
mod unclear;

// What the inspector finds in transcripts that no machine above leaves.
#[cfg(test)]
mod tests {
    use inspect::{End, Finding, Transcript, inspect};
    use judges::{Judge, Sets, Table};

    fn ended<'a>(end: End<'a>, exchanges: &'a [u64]) -> Transcript<'a> {
        Transcript { exchanges, end }
    }

    fn leaves<'a>(left: &'a [u64], exchanges: &'a [u64]) -> Transcript<'a> {
        ended(End::Left(left), exchanges)
    }

    // Fails what has 1 and 4, of six parts.
    fn of_six(transcript: Transcript<'_>) -> Result<(), Finding> {
        inspect(&mut Sets { sets: &[2, 1, 4] }, 6, false, transcript)
    }

    const ALL_FAIL: [u64; 8] = [7, 1, 0, 1, 2, 3, 4, 5];

    #[test]
    fn ends_too_soon(rt: HostRuntime) {
        assert_eq!(rt; of_six(ended(End::Refused, &[])), Err(Finding::Refused));
        assert_eq!(rt; of_six(ended(End::Sound, &[])), Err(Finding::Unasked));
        assert_eq!(rt;
            of_six(ended(End::Sound, &ALL_FAIL)),
            Err(Finding::NotSound)
        );
        assert_eq!(rt;
            of_six(ended(End::Unended, &ALL_FAIL)),
            Err(Finding::Unended)
        );
    }

    #[test]
    fn leaves_another(rt: HostRuntime) {
        assert_eq!(rt; of_six(leaves(&[4, 1], &ALL_FAIL)), Err(Finding::NoSubset));
        assert_eq!(rt; of_six(leaves(&[1, 6], &ALL_FAIL)), Err(Finding::NoSubset));
        assert_eq!(rt; of_six(leaves(&[1], &ALL_FAIL)), Err(Finding::Passes));
        assert_eq!(rt; of_six(leaves(&[0, 1, 4], &ALL_FAIL)), Err(Finding::Loose));
        assert_eq!(rt; of_six(leaves(&[1, 4], &ALL_FAIL)), Ok(()));
    }

    // The answer 0 about all six, and a question about part 6.
    #[test]
    fn asks_wrongly(rt: HostRuntime) {
        assert_eq!(rt;
            of_six(leaves(&[1, 4], &[7, 0, 0, 1, 2, 3, 4, 5])),
            Err(Finding::Misheard)
        );
        assert_eq!(rt; of_six(leaves(&[1, 4], &[2, 0, 6])), Err(Finding::Strayed));
    }

    #[test]
    fn too_many_parts(rt: HostRuntime) {
        let mut none = Sets { sets: &[] };
        assert_eq!(rt;
            inspect(&mut none, 4097, false, ended(End::Refused, &[])),
            Ok(())
        );
        assert_eq!(rt;
            inspect(&mut none, 4097, false, ended(End::Sound, &[])),
            Err(Finding::NotRefused)
        );
        assert_eq!(rt;
            inspect(&mut none, 4097, false, ended(End::Refused, &[1, 0])),
            Err(Finding::NotRefused)
        );
    }

    // Nothing fails: asked of the one part, and then of none.
    #[test]
    fn sound_or_not(rt: HostRuntime) {
        let mut none = Sets { sets: &[] };
        assert_eq!(rt;
            inspect(&mut none, 1, false, ended(End::Sound, &[2, 0, 0])),
            Ok(())
        );
        assert_eq!(rt;
            inspect(&mut none, 1, false, ended(End::Sound, &[2, 0, 0, 1, 0])),
            Err(Finding::AskedMore)
        );
        let mut only_none = Table { numbers: &[1, 0] };
        assert_eq!(rt;
            inspect(&mut only_none, 1, false, leaves(&[], &[1, 1])),
            Err(Finding::WasSound)
        );
    }

    // Of no parts at most 14 questions are asked where failing is monotone, and 15 in any case: here it asks of none 14, 15 and 16 times.
    #[test]
    fn many_questions(rt: HostRuntime) {
        let asked = [1; 32];
        let mut all = Sets { sets: &[0] };
        assert_eq!(rt;
            inspect(&mut all, 0, false, leaves(&[], &asked[..28])),
            Ok(())
        );
        assert_eq!(rt;
            inspect(&mut all, 0, false, leaves(&[], &asked[..30])),
            Err(Finding::ManyIfMonotone)
        );
        assert_eq!(rt;
            inspect(&mut all, 0, false, leaves(&[], &asked)),
            Err(Finding::TooMany)
        );
    }

    // 0 1 2 and 1 alone fail. All three are lean; told that failing grows, the inspector finds that 1 fails.
    #[test]
    fn told_falsely(rt: HostRuntime) {
        let mut odd = Table {
            numbers: &[0, 0, 1, 0, 0, 0, 0, 1],
        };
        let all = leaves(&[0, 1, 2], &[4, 1, 0, 1, 2]);
        assert_eq!(rt; inspect(&mut odd, 3, false, all), Ok(()));
        assert_eq!(rt; inspect(&mut odd, 3, true, all), Err(Finding::SmallerFails));
    }
}
