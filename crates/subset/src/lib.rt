// Some of up to 4,096 parts as a lent row of bits: part p is bit p % 64 of word p / 64. A row has at most 64 words.
// It uses no other crate, and bits are known to it alone.
#![tactic(auto)]

ghost use Rattle.std.specs.Prelude.{◌≡◌, ℕ, ◌+◌, ◌-◌, ◌*◌, ◌/◌, ◌%◌, ◌^◌, ◌<◌, ◌≤◌, min, ◌&&◌, leb, List, [], ◌∷◌, map, length, take, drop, ◌==◌, nat_le, slice_index};
ghost use Rattle.std.specs.List.{filter};
ghost use Rattle.subset.specs.Examples.{Examples};
ghost use Rattle.subset.specs.Laws.{Changes, EqualSame, KnownByMembers, MembersRise, SameMembers, SubsetsStay, TakenOut, ToldBack, WordsSmall};
ghost use Rattle.subset.specs.Parts.{all_parts, has, within, without};
ghost use Rattle.subset.specs.Row.{alike, cut_out, half, joined, members, with_part, words_of};
ghost use Rattle.subset.specs.Says.{After, Told, counted, few, found, given, laid, placed, room};

// The bits of a word.
const BITS: u64 = u64::BITS as u64;

// The most words of a row.
const LONGEST: usize = 64;

// Why a row is refused.
#[derive(Clone, Copy, Debug, PartialEq, Eq)]
pub enum RowError {
    // It has too many words.
    TooLong,
    // It has no word for such a part.
    NoPlace,
    // The ranks begin behind their end.
    Backwards,
    // The rows have different lengths.
    Uneven,
}

// The word that has just the bit of a part.
fn mask(part: u64) -> u64
    ensures { result ≡ 2 ^ (part % 64) }
{
    1 << (part % BITS)
}

// The lowest n bits, all if n is more than there are.
fn low(n: u64) -> u64
    ensures { result ≡ 2 ^ min n 64 - 1 }
{
    if n < BITS { (1 << n) - 1 } else { u64::MAX }
}

// Whether a row is short enough.
fn short(words: &[u64]) -> Result<(), RowError>
    ensures { result ≡ given (few words.now) RowError.TooLong (Ok tt) }
{
    if words.len() > LONGEST {
        return Err(RowError::TooLong);
    }
    Ok(())
}

// Which word a part is in.
fn place(words: &[u64], part: u64) -> Result<usize, RowError>
    ensures { result ≡ given (placed words.now part) RowError.NoPlace (Ok (part / 64)) }
{
    let i = (part / BITS) as usize;
    if i >= words.len() {
        return Err(RowError::NoPlace);
    }
    Ok(i)
}

// A word of the row, 0 behind its last.
fn word_at(words: &[u64], i: usize) -> u64
    ensures { result ≡ slice_index words.now i }
{
    words.get(i).copied().unwrap_or(0)
}

// Whether a part is a member.
pub fn test(words: &[u64], part: u64) -> bool
    ensures { result ≡ has (members words.now) part }
{
    (word_at(words, (part / BITS) as usize) >> (part % BITS)) & 1 == 1
}

// Puts a part in.
pub fn put_in(words: &mut [u64], part: u64) -> Result<(), RowError>
    ensures said { result ≡ given (placed words.old part) RowError.NoPlace (Ok tt) }
    ensures after { After (placed words.old part) words.old (with_part part (members words.old)) words.new }
{
    let i = place(words, part)?;
    words[i] |= mask(part);
    Ok(())
}

// Takes a part out.
pub fn take_out(words: &mut [u64], part: u64) -> Result<(), RowError>
    ensures said { result ≡ given (placed words.old part) RowError.NoPlace (Ok tt) }
    ensures after { After (placed words.old part) words.old (without part (members words.old)) words.new }
{
    let i = place(words, part)?;
    words[i] &= !mask(part);
    Ok(())
}

fn ones(word: u64) -> u64
    ensures count { result ≡ length (members (word ∷ [])) }
    ensures most { result ≤ 64 }
{
    word.count_ones() as u64
}

// How many members there are; none is said of a row with too many words.
pub fn count(words: &[u64]) -> Option<u64>
    ensures { result ≡ counted (few words.now) (members words.now) }
{
    // Tested here and not in `short`, or the sum's bound isn't proved.
    if words.len() > LONGEST {
        return None;
    }
    Some(words.iter().map(|word| ones(*word)).sum())
}

// Makes the row that of the first so many parts.
pub fn fill(words: &mut [u64], parts: u64) -> Result<(), RowError>
    ensures said { result ≡ given (few words.old) RowError.TooLong (given (nat_le parts (64 * length words.old)) RowError.NoPlace (Ok tt)) }
    ensures after { After (few words.old && nat_le parts (64 * length words.old)) words.old (all_parts parts) words.new }
{
    short(words)?;
    if parts > BITS * words.len() as u64 {
        return Err(RowError::NoPlace);
    }
    for (i, word) in words.iter_mut().enumerate() {
        *word = low(parts.saturating_sub(BITS * i as u64));
    }
    Ok(())
}

// Writes the members of one word, each `base` higher, from place `told` on, and says where they end.
fn tell_word(mut word: u64, base: u64, out: &mut [u64], told: usize) -> usize
    requires base { base < 4096 }
    requires room { told + length (members (word ∷ [])) ≤ length out.old }
    ensures end { result ≡ told + length (members (word ∷ [])) }
    ensures row { out.new ≡ laid out.old told (map (λ b. base + b) (members (word ∷ []))) }
{
    let end = told + ones(word) as usize;
    for place in &mut out[told..end] {
        *place = base + word.trailing_zeros() as u64;
        word &= word - 1;
    }
    end
}

// Writes the members, rising, to the beginning of the lent row, if they have room there, and says how many they are.
// A number and no slice: of a row that is lent on, no contract says what it holds afterwards.
pub fn tell(words: &[u64], out: &mut [u64]) -> Option<u64>
    ensures { Told (room words.now out.old) (members words.now) out.old result out.new }
{
    if count(words)? > out.len() as u64 {
        return None;
    }
    let mut told = 0;
    for (i, word) in words.iter().enumerate() {
        told = tell_word(*word, BITS * i as u64, out, told);
    }
    Some(told as u64)
}

// A word without its lowest so many members.
fn drop_lowest(mut word: u64, count: u64) -> u64
    ensures { members (result ∷ []) ≡ drop count (members (word ∷ [])) }
{
    for _ in 0..count.min(ones(word)) {
        word &= word - 1;
    }
    word
}

// The least member from a part on.
pub fn next_from(words: &[u64], part: u64) -> Result<Option<u64>, RowError>
    ensures { result ≡ found (few words.now) (filter (leb part) (members words.now)) }
{
    short(words)?;
    // No `find_map`: that it finds the least member stayed open there.
    for (i, word) in words.iter().enumerate() {
        let base = BITS * i as u64;
        let left = word & !low(part.saturating_sub(base));
        if left != 0 {
            return Ok(Some(base + left.trailing_zeros() as u64));
        }
    }
    Ok(None)
}

// The member at a rank.
pub fn member(words: &[u64], rank: u64) -> Result<Option<u64>, RowError>
    ensures { result ≡ found (few words.now) (drop rank (members words.now)) }
{
    short(words)?;
    let mut left = rank;
    for (i, word) in words.iter().enumerate() {
        let here = ones(*word);
        if left < here {
            let rest = drop_lowest(*word, left);
            return Ok(Some(BITS * i as u64 + rest.trailing_zeros() as u64));
        }
        left -= here;
    }
    Ok(None)
}

// A word without the members whose rank is in from..to.
fn cut_word(word: u64, from: u64, to: u64) -> u64
    requires { from ≤ to }
    ensures { members (result ∷ []) ≡ cut_out from to (members (word ∷ [])) }
{
    word & !drop_lowest(word, from) | drop_lowest(word, to)
}

// Clears the members whose rank is in from..to.
pub fn cut(words: &mut [u64], from: u64, to: u64) -> Result<(), RowError>
    ensures said { result ≡ given (few words.old) RowError.TooLong (given (nat_le from to) RowError.Backwards (Ok tt)) }
    ensures after { After (few words.old && nat_le from to) words.old (cut_out from to (members words.old)) words.new }
{
    short(words)?;
    if from > to {
        return Err(RowError::Backwards);
    }
    let mut before = 0;
    for word in words.iter_mut() {
        let here = ones(*word);
        *word = cut_word(
            *word,
            from.saturating_sub(before),
            to.saturating_sub(before),
        );
        before += here;
    }
    Ok(())
}

// Keeps only the first so many members.
pub fn keep_first(words: &mut [u64], count: u64) -> Result<(), RowError>
    ensures said { result ≡ given (few words.old) RowError.TooLong (Ok tt) }
    ensures after { After (few words.old) words.old (take count (members words.old)) words.new }
{
    cut(words, count, u64::MAX)
}

// Half of how many members there are, rounded down.
fn half_of(words: &[u64]) -> Result<u64, RowError>
    ensures { result ≡ given (few words.now) RowError.TooLong (Ok (half (members words.now))) }
{
    let members = count(words).ok_or(RowError::TooLong)?;
    Ok(members / 2)
}

// Keeps only the first half of the members, rounded down.
pub fn keep_first_half(words: &mut [u64]) -> Result<(), RowError>
    ensures said { result ≡ given (few words.old) RowError.TooLong (Ok tt) }
    ensures after { After (few words.old) words.old (take (half (members words.old)) (members words.old)) words.new }
{
    keep_first(words, half_of(words)?)
}

// Keeps only what is behind the first half.
pub fn keep_second_half(words: &mut [u64]) -> Result<(), RowError>
    ensures said { result ≡ given (few words.old) RowError.TooLong (Ok tt) }
    ensures after { After (few words.old) words.old (drop (half (members words.old)) (members words.old)) words.new }
{
    cut(words, 0, half_of(words)?)
}

pub fn is_empty(words: &[u64]) -> bool
    ensures { result ≡ (length (members words.now) == 0) }
{
    words.iter().all(|word| *word == 0)
}

// Whether every member is one of the others, also of rows of different lengths.
pub fn is_within(words: &[u64], others: &[u64]) -> bool
    ensures { result ≡ within (members words.now) (members others.now) }
{
    words
        .iter()
        .enumerate()
        .all(|(i, word)| *word & !word_at(others, i) == 0)
}

// Whether both have the same members. No derived `==`: rows of different lengths may have the same.
pub fn equal(words: &[u64], others: &[u64]) -> bool
    ensures { result ≡ alike (members words.now) (members others.now) }
{
    is_within(words, others) && is_within(others, words)
}

// Puts the members of another row of the same length in.
pub fn union(words: &mut [u64], others: &[u64]) -> Result<(), RowError>
    ensures said { result ≡ given (length others.now == length words.old) RowError.Uneven (Ok tt) }
    ensures after { After (length others.now == length words.old) words.old (joined (64 * length words.old) (members words.old) (members others.now)) words.new }
{
    if others.len() != words.len() {
        return Err(RowError::Uneven);
    }
    // A proof learns nothing of what a zip of `iter_mut` writes.
    for (i, word) in words.iter_mut().enumerate() {
        *word |= others[i];
    }
    Ok(())
}

// What holds of rows and their members.
pub fn rows_stand() -> u8
    ensures back { ToldBack }
    ensures known { KnownByMembers }
    ensures same { SameMembers }
    ensures small { WordsSmall }
    ensures rise { MembersRise }
    ensures stay { SubsetsStay }
    ensures out { TakenOut }
    ensures equal { EqualSame }
    ensures changes { Changes }
{
    0
}

// What the words of rows say in worked examples.
pub fn examples_stand() -> u8
    ensures { Examples }
{
    0
}

#[cfg(test)]
mod tests {
    use super::*;

    // The first five members of a row, 9999 where there are fewer.
    fn first_five(words: &[u64]) -> [u64; 5] {
        let mut told = [9999; 5];
        let mut part = 0;
        for place in told.iter_mut() {
            let Ok(Some(member)) = next_from(words, part) else {
                break;
            };
            *place = member;
            part = member.saturating_add(1);
        }
        told
    }

    #[test]
    fn holds_parts_at_word_borders(rt: HostRuntime) {
        let mut words = [0; 64];
        assert!(rt; is_empty(&words));
        for part in [4095, 64, 63, 0] {
            assert_eq!(rt; put_in(&mut words, part), Ok(()));
        }
        assert_eq!(rt; put_in(&mut words, 4096), Err(RowError::NoPlace));
        assert_eq!(rt; count(&words), Some(4));
        assert_eq!(rt; first_five(&words), [0, 63, 64, 4095, 9999]);
        assert!(rt;
            test(&words, 63) && test(&words, 4095) && !test(&words, 62) && !test(&words, 4096)
        );
        assert_eq!(rt; member(&words, 2), Ok(Some(64)));
        assert_eq!(rt; member(&words, 4), Ok(None));
        assert_eq!(rt; next_from(&words, 65), Ok(Some(4095)));
        assert_eq!(rt; take_out(&mut words, 64), Ok(()));
        assert_eq!(rt; cut(&mut words, 1, 2), Ok(()));
        assert_eq!(rt; first_five(&words), [0, 4095, 9999, 9999, 9999]);
    }

    #[test]
    fn fills_halves_and_tells(rt: HostRuntime) {
        let mut words = [0; 64];
        let mut out = [7; 4096];
        assert_eq!(rt; fill(&mut words, 4096), Ok(()));
        assert_eq!(rt; count(&words), Some(4096));
        assert_eq!(rt; keep_first_half(&mut words), Ok(()));
        assert_eq!(rt; keep_second_half(&mut words), Ok(()));
        assert_eq!(rt; count(&words), Some(1024));
        assert_eq!(rt; keep_first(&mut words, 3), Ok(()));
        assert_eq!(rt; tell(&words, &mut out), Some(3));
        assert!(rt; out.len() > 3);
        assert_eq!(rt; [out[0], out[1], out[2], out[3]], [1024, 1025, 1026, 7]);
        let mut others = [0; 64];
        assert_eq!(rt; fill(&mut others, 1025), Ok(()));
        assert!(rt; !is_within(&words, &others) && !equal(&words, &others));
        assert_eq!(rt; union(&mut others, &words), Ok(()));
        assert!(rt; is_within(&words, &others));
        assert_eq!(rt; count(&others), Some(1027));
    }

    #[test]
    fn refuses(rt: HostRuntime) {
        let mut long = [1; 65];
        assert_eq!(rt; count(&long), None);
        assert_eq!(rt; fill(&mut long, 5), Err(RowError::TooLong));
        assert_eq!(rt; cut(&mut long, 0, 1), Err(RowError::TooLong));
        assert_eq!(rt; keep_first(&mut long, 0), Err(RowError::TooLong));
        assert_eq!(rt; member(&long, 0), Err(RowError::TooLong));
        let mut words = [1; 2];
        assert_eq!(rt; cut(&mut words, 2, 1), Err(RowError::Backwards));
        assert_eq!(rt; fill(&mut words, 129), Err(RowError::NoPlace));
        assert_eq!(rt; union(&mut words, &[0]), Err(RowError::Uneven));
        assert_eq!(rt; tell(&words, &mut [0]), None);
        assert_eq!(rt; words, [1, 1]);
    }
}
