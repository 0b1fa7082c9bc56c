// A log that has passed questions 1 to 10 and 18 to 21, its groups and its voices.
ghost use Rattle.std.specs.Prelude.{◌≡◌, ◌+◌, ◌-◌, ◌≤◌, IfOk, length, replicate};
ghost use Rattle.std.specs.Iterator.{at_most};
ghost use Rattle.logs.specs.Answer.{result_answer};
ghost use Rattle.logs.specs.Log.{questions, content_of, graph_of, voices_count, PassedLog, PassesWith};
ghost use Rattle.logs.specs.Groups.{Starts};
ghost use Rattle.logs.specs.Voices.{VoicesRead, voices_behind};

use crate::{Ceilings, Head, Kind, Refusal, VoicesWord, group_end, number_of, read_within};

// A log that passes questions 1 to 10 and 18 to 21: its words, and its counts of episodes, of to words and of voices words.
#[derive(Clone, Copy)]
pub struct Log<'a> {
    pub words: &'a [u32],
    pub episodes: usize,
    pub to_words: usize,
    pub voices_words: usize,
    ghost passes: { PassesWith words.now episodes to_words },
    ghost voices: { voices_words ≡ voices_count words.now },
}

// How many voices words stand behind the head, up to the first word of another kind.
fn voices_behind(words: &[u32]) -> usize
    ensures { result ≡ voices_behind words.now }
{
    words
        .iter()
        .skip(1)
        .take_while(|w| Kind::Voices.is_of(**w))
        .count()
}

impl<'a> Log<'a> {
    // Questions 1 to 10 and 18 to 21, at a caller's ceilings.
    pub fn read(most: Ceilings, words: &'a [u32]) -> Result<Log<'a>, Refusal>
        ensures answer { result_answer (λ l. (l.episodes, l.to_words)) result ≡ questions most words.now }
        ensures same { IfOk result (λ l. l.words.now ≡ words.now) }
    {
        let reading = read_within(most, words)?;
        Ok(Log {
            words,
            episodes: reading.episodes,
            to_words: reading.to_words,
            voices_words: reading.voices_words,
        })
    }

    // The log of words that are known to pass, with `n` episodes. No question is asked again: the end says how many to words there are, and the voices
    // words stand behind the head.
    pub fn passed(words: &'a [u32], n: usize) -> Log<'a>
        requires { PassedLog words.now × ((graph_of words.now).n ≡ n) }
        ensures { (result.words.now ≡ words.now) × (result.episodes ≡ n) }
    {
        Log {
            words,
            episodes: n,
            to_words: number_of(words[words.len() - 1]),
            voices_words: voices_behind(words),
        }
    }
}

// Gives each entry one voice.
fn one_voice(table: &mut [u32])
    ensures { table.new ≡ replicate (length table.old) 1 }
{
    table.fill(1);
}

// A group of a log: the episode of its from word, and its to words.
#[derive(Clone, Copy)]
pub struct Group<'a> {
    pub from: usize,
    pub to_words: &'a [u32],
}

// The groups of a log from place `at` on: one starts there, or the last word stands there.
#[derive(Clone, Copy)]
pub struct Groups<'a> {
    pub log: Log<'a>,
    pub at: usize,
    ghost here: { Starts log.words.now at },
}

impl<'a> Log<'a> {
    // Its version.
    pub fn version(self) -> u32
        ensures { result ≡ (content_of self.entry.words.now).version }
    {
        Head::from(self.words[0]).version
    }

    // The groups, in order: they start behind the head and the voices words.
    pub fn groups(self) -> Groups<'a>
        ensures { (result.log ≡ self.entry) × (result.at ≡ self.entry.voices_words + 1) }
    {
        Groups {
            log: self,
            at: self.voices_words + 1,
        }
    }

    // The voices of each episode, at the start of a table.
    pub fn read_voices(self, table: &mut [u32])
        requires { self.episodes ≤ length table.old }
        ensures { VoicesRead (content_of self.entry.words.now).voices self.entry.episodes table.old table.new }
    {
        one_voice(&mut table[..self.episodes]);
        for w in &self.words[1..self.voices_words + 1] {
            let mark = VoicesWord::from(*w);
            table[mark.episode] = mark.voices;
        }
    }
}

impl<'a> Iterator for Groups<'a> {
    type Item = Group<'a>;

    ghost use Rattle.logs.specs.Passing.{GivesGroup};

    ghost next_gives = { GivesGroup };

    ghost remaining = { λ s. at_most (length s.log.words.now - s.at) };

    fn next(&mut self) -> Option<Group<'a>> {
        let words = self.log.words;
        let at = self.at;
        if at == words.len() - 1 {
            return None;
        }
        let end = group_end(words, at + 2);
        self.at = end;
        Some(Group {
            from: number_of(words[at]),
            to_words: &words[at + 1..end],
        })
    }
}
