// The trials of the file stdin, a line for each: its parts, and the call that it asks for.
ghost use Rattle.std.specs.Prelude.{◌≡◌, ◌≢◌, ◌<◌, ◌++◌, ◌∷◌, All, IfSome, MatchOption};

use crate::show::{Asked, Call, Lent, Service, Trial};
use std::io;

// The value of a hexadecimal digit, 0 to 9 or A to F.
fn digit_of(b: u8) -> Option<usize>
    ensures { IfSome result (λ digit. digit < 16) }
{
    match b {
        b'0'..=b'9' => Some(usize::from(b - b'0')),
        b'A'..=b'F' => Some(usize::from(b - b'A') + 10),
        _ => None,
    }
}

// The number that the digits are in a base. There is none where there are no digits, another byte is among them, or a usize cannot hold it. By hand,
// since `from_str_radix` takes small letters and a sign too.
fn number(base: usize, digits: &[u8]) -> Option<usize> {
    if digits.is_empty() {
        return None;
    }
    let mut value: usize = 0;
    for b in digits {
        let digit = digit_of(*b).filter(|digit| *digit < base)?;
        value = value.checked_mul(base)?.checked_add(digit)?;
    }
    Some(value)
}

// The word that a space and 8 hexadecimal digits are.
fn word_of(text: &[u8]) -> Option<u32> {
    let [b' ', digits @ ..] = text else {
        return None;
    };
    if digits.len() != 8 {
        return None;
    }
    u32::try_from(number(16, digits)?).ok()
}

// The words that the text is, which stand in `room` then. There are none where it is not in this form, or has more words than there is
// room for.
fn words_of<'a>(text: &[u8], room: &'a mut [u32]) -> Option<&'a [u32]> {
    let words = room.get_mut(..text.len().div_ceil(9))?;
    for (word, part) in words.iter_mut().zip(text.chunks(9)) {
        *word = word_of(part)?;
    }
    Some(words)
}

// What stands before the first byte `b`, and what stands behind it.
fn split_once(text: &[u8], b: u8) -> Option<(&[u8], &[u8])>
    ensures { MatchOption result (All (λ x. x ≢ b) text.now) (λ parts. (text.now ≡ parts.0.now ++ b ∷ parts.1.now) × All (λ x. x ≢ b) parts.0.now) }
{
    let at = text.iter().position(|x| *x == b)?;
    Some((&text[..at], &text[at + 1..]))
}

// The decimal number before the first space, and what stands behind it.
fn number_before(text: &[u8]) -> Option<(usize, &[u8])> {
    let (digits, rest) = split_once(text, b' ')?;
    Some((number(10, digits)?, rest))
}

// What is lent, and the name behind it: LENT WORK NAME.
fn lent(text: &[u8]) -> Option<(Lent, &[u8])> {
    let (out, rest) = number_before(text)?;
    let (work, name) = number_before(rest)?;
    if 64 < out || 16400 < work {
        return None;
    }
    Some((Lent { out, work }, name))
}

// The call of a service, with what is lent.
fn call(service: Service, text: &[u8]) -> Option<(Asked, &[u8])> {
    let (lent, name) = lent(text)?;
    Some((Asked::Call(Call { service, lent }), name))
}

// What is asked before the colon of a line, and the name behind it.
fn asked_by(head: &[u8]) -> Option<(Asked, &[u8])> {
    let (word, rest) = split_once(head, b' ')?;
    // By `match` on text, the plain form.
    match word {
        b"read" => Some((Asked::Reading, rest)),
        b"links" => Some((Asked::Links, rest)),
        b"report" => call(Service::Report, rest),
        b"copy" => call(Service::FairCopy, rest),
        b"trim" => call(Service::TrimmedCopy, rest),
        b"text" => {
            let (lent, name) = lent(rest)?;
            Some((Asked::Text(lent), name))
        }
        b"thread" => {
            let (i, name) = number_before(rest)?;
            Some((Asked::Thread(i), name))
        }
        _ => None,
    }
}

// The trial that a line is, with its words in `room`.
fn trial<'a>(line: &'a [u8], room: &'a mut [u32]) -> Option<Trial<'a>> {
    let (head, text) = split_once(line, b':')?;
    let words = words_of(text, room)?;
    let (asked, name) = asked_by(head)?;
    if name.is_empty() {
        return None;
    }
    Some(Trial { asked, name, words })
}

// Makes the trial of a line, or says that it is none; passes over blank lines and comments.
fn one(rt: &impl Print, line: &[u8]) -> io::Result<()> {
    if matches!(line, [] | [b'#', ..]) {
        return Ok(());
    }
    let mut room = [0u32; 64];
    match trial(line, &mut room) {
        Some(trial) => trial.make(rt),
        None => {
            print!(rt; "not a trial: ")?;
            rt.write_all(line)?;
            println!(rt)
        }
    }
}

// Makes the trials of all lines.
pub fn all(rt: &impl Print, text: &[u8]) -> io::Result<()> {
    for line in text.split(|b| *b == b'\n') {
        one(rt, line)?;
    }
    Ok(())
}
