// What a line says. Lines are bytes, so that one which is no text can be read too.
ghost use Rattle.std.specs.Prelude.{◌≡◌, ◌<◌, ◌≤◌, true, length};
ghost use Rattle.std.specs.Char.{is_ascii_digit};
ghost use Rattle.std.specs.List.{list_all, prefix_len, suffix_len};
ghost use Rattle.dialog.specs.Reading.{blank, trimmed, line_verdict, number_from, held, text_size};

use bisect::Verdict;

// Why a text is no number of parts.
#[derive(Clone, Copy, Debug, PartialEq, Eq)]
pub enum SizeError {
    // A number that 64 bits don't hold.
    TooMany,
    // Anything but digits.
    NoNumber,
}

// A carriage return is what a line that was ended by two bytes keeps.
fn is_blank(byte: u8) -> bool
    ensures { result ≡ blank byte }
{
    matches!(byte, b' ' | b'\t' | b'\r')
}

// Each chain stands in a function of its own, where its value is proved with no proof file.
fn blanks_before(text: &[u8]) -> usize
    ensures value { result ≡ prefix_len blank text.now }
    ensures within { result ≤ length text.now }
{
    text.iter().take_while(|byte| is_blank(**byte)).count()
}

fn blanks_behind(text: &[u8]) -> usize
    ensures value { result ≡ suffix_len blank text.now }
    ensures within { result ≤ length text.now }
{
    text.iter()
        .rev()
        .take_while(|byte| is_blank(**byte))
        .count()
}

fn trim(text: &[u8]) -> &[u8]
    ensures { result.now ≡ trimmed text.now }
{
    let rest = &text[blanks_before(text)..];
    &rest[..rest.len() - blanks_behind(rest)]
}

pub fn verdict_in(line: &[u8]) -> Option<Verdict>
    ensures { result ≡ line_verdict line.now }
{
    match trim(line) {
        [b'y'] => Some(Verdict::Yes),
        [b'n'] => Some(Verdict::No),
        [b'u'] => Some(Verdict::Unclear),
        _ => None,
    }
}

fn all_digits(text: &[u8]) -> bool
    ensures { result ≡ list_all is_ascii_digit text.now }
{
    text.iter().all(|byte| byte.is_ascii_digit())
}

fn value(digits: &[u8]) -> Option<u64>
    requires digits { list_all is_ascii_digit digits.now ≡ true }
    requires some { 0 < length digits.now }
    ensures { result ≡ held (number_from 0 digits.now) }
{
    str::from_utf8(digits).unwrap().parse().ok()
}

pub fn size_in(text: &[u8]) -> Result<u64, SizeError>
    ensures { result ≡ text_size text.now }
{
    let digits = trim(text);
    if digits.is_empty() || !all_digits(digits) {
        return Err(SizeError::NoNumber);
    }
    value(digits).ok_or(SizeError::TooMany)
}

#[cfg(test)]
mod tests {
    use super::*;

    #[test]
    fn verdicts(rt: HostRuntime) {
        assert!(rt; matches!(verdict_in(b" y\r"), Some(Verdict::Yes)));
        assert!(rt; matches!(verdict_in(b"\tn "), Some(Verdict::No)));
        assert!(rt; matches!(verdict_in(b"u"), Some(Verdict::Unclear)));
        assert!(rt; matches!(verdict_in(b"yes"), None));
        assert!(rt; matches!(verdict_in(b"Y"), None));
        assert!(rt; matches!(verdict_in(b""), None));
    }

    #[test]
    fn sizes(rt: HostRuntime) {
        assert_eq!(rt; size_in(b"6"), Ok(6));
        assert_eq!(rt; size_in(b" 006 "), Ok(6));
        assert_eq!(rt; size_in(b"0000000000000000000000006"), Ok(6));
        assert_eq!(rt; size_in(b"18446744073709551615"), Ok(u64::MAX));
        assert_eq!(rt; size_in(b"18446744073709551616"), Err(SizeError::TooMany));
        assert_eq!(rt; size_in(b"+6"), Err(SizeError::NoNumber));
        assert_eq!(rt; size_in(b"6 7"), Err(SizeError::NoNumber));
        assert_eq!(rt; size_in(b""), Err(SizeError::NoNumber));
    }
}
