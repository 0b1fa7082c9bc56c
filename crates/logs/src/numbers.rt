// The numbers of words, as they are printed.
ghost use Rattle.std.specs.Prelude.{Some};
ghost use Rattle.logs.specs.Words.{kind_code};
ghost use Rattle.logs.specs.Shown.{numbers_shown};

use crate::{Kind, number_of};
use std::fmt;

// The numbers of the words of a kind, with one space before each.
#[derive(Clone, Copy, Debug)]
pub struct Numbers<'a> {
    pub kind: Kind,
    pub words: &'a [u32],
}

impl fmt::Display for Numbers<'_> {
    ghost output = { λ n. Some (numbers_shown (kind_code n.kind) n.words.now) };

    fn fmt<W: fmt::Write>(&self, f: &mut fmt::Formatter<W>) -> fmt::Result {
        for w in self.words {
            if self.kind.is_of(*w) {
                write!(f, " {}", number_of(*w))?;
            }
        }
        Ok(())
    }
}
