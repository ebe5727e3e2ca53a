// A session: the reducer with a memory of its own, and what it told last.
// It uses `bisect` and `reduce`. Who uses it knows nothing of the memory's layout.
#![tactic(auto)]

ghost use Rattle.std.specs.Prelude.{◌≡◌};
ghost use Rattle.bisect.specs.Engine.{Step};
ghost use Rattle.bisect.specs.Verdict.{number_of};
ghost use Rattle.reduce.specs.Own.{fault, progress};
ghost use Rattle.session.specs.Session.{Hears, Room, begun, meant, standing};

use bisect::{LENGTH, MOST, Verdict};
use reduce::{Event, Progress, Refusal, Told, react};
use std::marker::Model;

// What the reducer does.
#[derive(Clone, Copy, Debug, PartialEq, Eq)]
pub enum Act<'a> {
    // It asks of these.
    Ask(&'a [u64]),
    // These are left.
    Left(&'a [u64]),
    // All together don't fail.
    Sound,
    TooMany,
}

#[derive(Drop)]
pub struct Session {
    memory: [u64; LENGTH],
    row: [u64; MOST as usize],
    told: Told,
}

impl Model for Session {
    ghost Value = { Step };

    ghost view = { λ s. standing s.memory s.row s.told };

    ghost invariant = { λ s. Room s.told s.row };
}

impl Session {
    pub fn begin(parts: u64) -> Session
        ensures { result ≡ begun parts }
    {
        let mut memory = [0; LENGTH];
        let mut row = [0; MOST as usize];
        let told = react(&mut memory, Event::Parts(parts), &mut row).unwrap();
        Session { memory, row, told }
    }

    // Goes on after an answer; refused where none is awaited.
    pub fn hear(&mut self, verdict: Verdict) -> Result<(), Refusal>
        ensures { Hears (fault self.old.memory) self.old (number_of verdict) result self.new }
    {
        self.told = react(&mut self.memory, Event::Said(verdict.into()), &mut self.row)?;
        Ok(())
    }

    pub fn act(&self) -> Act<'_>
        ensures { meant result ≡ self.now.act }
    {
        match self.told {
            Told::Ask(count) => Act::Ask(&self.row[..count as usize]),
            Told::Rest(count) => Act::Left(&self.row[..count as usize]),
            Told::Sound => Act::Sound,
            Told::TooMany => Act::TooMany,
        }
    }

    // How far it has come, while it asks.
    pub fn progress(&self) -> Result<Progress, Refusal>
        ensures { result ≡ progress self.now.memory }
    {
        Progress::read(&self.memory)
    }
}

#[cfg(test)]
mod tests {
    use super::*;

    // Answers each question about six parts: what has both 1 and 4 fails.
    fn go_on(session: &mut Session) -> bool {
        let Act::Ask(question) = session.act() else {
            return false;
        };
        let fails = question.contains(&1) && question.contains(&4);
        let verdict = if fails { Verdict::Yes } else { Verdict::No };
        session.hear(verdict).is_ok()
    }

    #[test]
    fn leaves_both(rt: HostRuntime) {
        let mut session = Session::begin(6);
        assert_eq!(rt; session.act(), Act::Ask(&[0, 1, 2, 3, 4, 5]));
        let mut asked = 0u64;
        for _ in 0..20 {
            if go_on(&mut session) {
                asked = asked.saturating_add(1);
            }
        }
        assert_eq!(rt; session.act(), Act::Left(&[1, 4]));
        assert_eq!(rt; asked, 9);
        assert_eq!(rt; session.hear(Verdict::No), Err(Refusal::Unawaited));
        assert_eq!(rt; session.act(), Act::Left(&[1, 4]));
    }

    #[test]
    fn sound(rt: HostRuntime) {
        let mut session = Session::begin(3);
        assert_eq!(rt; session.hear(Verdict::Unclear), Ok(()));
        assert_eq!(rt; session.act(), Act::Sound);
        assert_eq!(rt; session.progress(), Err(Refusal::Unawaited));
    }

    #[test]
    fn too_many(rt: HostRuntime) {
        assert_eq!(rt; Session::begin(4097).act(), Act::TooMany);
    }

    // 0 to 5 fails, and of the beginnings 0 1, 0 1 2 3 and 0 to 4 only the last: 4 is needed, and 0 to 3 are open.
    #[test]
    fn progress(rt: HostRuntime) {
        let mut session = Session::begin(6);
        assert_eq!(rt; session.progress(), Ok(Progress { left: 6, needed: 0 }));
        for _ in 0..4 {
            go_on(&mut session);
        }
        assert_eq!(rt; session.progress(), Ok(Progress { left: 5, needed: 1 }));
    }
}
