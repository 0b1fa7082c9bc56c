// The bytes of a log as words, which stand in lent ones: questions 14 and 15, and 11 of the lent words. The bytes of a reader.
#![tactic(auto)]

ghost use Rattle.std.specs.Prelude.{◌≡◌, ◌+◌, ◌*◌, ◌<◌, ◌≤◌, IfOk, length, take};
ghost use Rattle.std.specs.Io.{ReadsAtMost};
ghost use Rattle.std.specs.Io.KnownBytes.{Consumes, IsAtEnd};
ghost use Rattle.input.specs.Input.{words_of, word_at, WordsTaken};

use logs::{Reason, Refusal};
use std::io;
use std::io::Read;

// The most bytes: those of the longest log that passes, 2 + 120 + 2 * 4,096 words, which has 120 voices words.
pub const MOST_BYTES: usize = 33256;

// The word of the four bytes from `at` on, the lowest first.
fn word_at(bytes: &[u8], at: usize) -> u32
    requires { at + 4 ≤ length bytes.now }
    ensures { result ≡ word_at bytes.now at }
{
    u32::from_le_bytes([bytes[at], bytes[at + 1], bytes[at + 2], bytes[at + 3]])
}

// Writes the words of the bytes, which are four for each.
fn fill(bytes: &[u8], words: &mut [u32])
    requires { length bytes.now ≡ 4 * length words.old }
    ensures { words.new ≡ words_of bytes.now }
{
    // The place of the bytes is computed: `zip` beside `iter_mut` leaves the checker without the fact that both are at one place.
    for (i, word) in words.iter_mut().enumerate() {
        // Never so, by the contract: without this way out the loop would become a call of C's `memcpy`, and the archive asks a caller for `memset`
        // alone.
        if bytes.len() < 4 * i + 4 {
            return;
        }
        *word = word_at(bytes, 4 * i);
    }
}

// Questions 14, 15 and 11; then the lent words begin with the words of the bytes, four bytes to a word, the lowest first. Gives the count of
// these words.
pub fn words_of(bytes: &[u8], words: &mut [u32]) -> Result<usize, Refusal>
    ensures { WordsTaken bytes.now words.old words.new result }
{
    let length = bytes.len();
    if MOST_BYTES < length {
        return Err(Reason::TooManyBytes.at(MOST_BYTES));
    }
    if length % 4 != 0 {
        return Err(Reason::PartOfAWord.at(length));
    }
    let count = length / 4;
    if words.len() < count {
        return Err(Reason::OutputTooShort.at(count));
    }
    fill(bytes, &mut words[..count]);
    Ok(count)
}

// Reads until the buffer is full or the input ends, and gives the count of bytes that it put at the start of the buffer; the error where
// a read fails. What stands behind these bytes afterwards is the reader's choice.
pub fn read_all<R: Read>(reader: &mut R, buffer: &mut [u8]) -> io::Result<usize>
    ensures within { ReadsAtMost result buffer.new }
    ensures bytes { IfOk result (λ n. Consumes (R.remaining reader.old) (R.remaining reader.new) (take n buffer.new)) }
    ensures end { IfOk result (λ n. n < length buffer.new → IsAtEnd (R.remaining reader.new)) }
{
    // By hand, since only the reader tells how far a read went.
    let mut done = 0;
    while done < buffer.len() {
        let more = reader.read(&mut buffer[done..])?;
        if more == 0 {
            return Ok(done);
        }
        done += more;
    }
    Ok(done)
}
