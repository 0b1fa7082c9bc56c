// The bits of a word and of a row, one by one, the lowest first. A bit is a usize, as places are, and `as` makes it one of a u32.
ghost use Rattle.std.specs.Prelude.{◌≡◌, ◌+◌, ◌-◌, ◌<◌, ◌≤◌, length};
ghost use Rattle.std.specs.Iterator.{at_most};
ghost use lib.Count.{count_trailing_zeros};

// The bits of a word that are left to give.
#[derive(Clone, Copy)]
pub struct Ones {
    pub rest: u32,
}

// The bits of a word.
pub fn ones_of(word: u32) -> Ones
    ensures { result ≡ record { rest = word } }
{
    Ones { rest: word }
}

impl Iterator for Ones {
    type Item = usize;

    ghost use Rattle.bits.specs.Ones.{GivesOne};

    ghost next_gives = { GivesOne };

    ghost remaining = { λ s. at_most (32 - count_trailing_zeros 32 s.rest) };

    fn next(&mut self) -> Option<usize> {
        let rest = self.rest;
        if rest == 0 {
            return None;
        }
        let bit = rest.trailing_zeros();
        self.rest = rest ^ (1 << bit);
        Some(bit as usize)
    }
}

// The bits of a row that are left to give: those of the words behind `place`, and in the word there those of `ones`.
#[derive(Clone, Copy)]
pub struct Row<'a> {
    pub words: &'a [u32],
    pub row: usize,
    pub place: usize,
    pub ones: Ones,
    ghost within: { row + 8 ≤ length words.now },
    ghost below: { place < 8 },
}

impl<'a> Iterator for Row<'a> {
    type Item = usize;

    ghost use Rattle.bits.specs.Ones.{GivesBit, bits_left};

    ghost next_gives = { GivesBit };

    ghost remaining = { λ s. at_most (bits_left s) };

    fn next(&mut self) -> Option<usize> {
        let words = self.words;
        let row = self.row;
        let mut place = self.place;
        let mut ones = self.ones;
        loop {
            if let Some(bit) = ones.next() {
                self.place = place;
                self.ones = ones;
                return Some(32 * place + bit);
            }
            place += 1;
            if place == 8 {
                return None;
            }
            ones = ones_of(words[row + place]);
        }
    }
}
