// The reading of a log: questions 1 to 10, and 18 to 21. `as` stands between u32 and usize, since neither has a `From` for the other, and for an enum's
// number.
#![tactic(auto)]

ghost use Rattle.std.specs.Prelude.{◌≡◌, false, ℕ, ◌+◌, ◌^◌, ◌<◌, ◌≤◌, ltb, eqb, List, [], ◌++◌, length, get_or, drop, OnOk, IfOk};
ghost use Rattle.logs.specs.Words.{kind, number, word, Small, head_episodes, head_version, head_of, to_episode, to_pause, to_word, voices_episode, voices_given, voices_word, kind_code};
ghost use Rattle.logs.specs.Content.{short_enough};
ghost use Rattle.logs.specs.Kinds.{KindOf};
ghost use Rattle.logs.specs.Answer.{given, question, reason_number, result_answer, numbered, head_figures, to_figures, voices_figures, word_answer, read_answer};
ghost use Rattle.logs.specs.Log.{service, to_before_last, head_word, group_word, end_word, voices_asked, questions, marks_of, content_of, voices_count};
ghost use Rattle.logs.specs.Places.{log_word_at, Noted, Stopped, BehindVoices, VoicesEnd};
ghost use Rattle.logs.specs.Groups.{before, ToWords, short_links, short_before};
ghost use Rattle.logs.specs.Hear.{Next, where_short};

pub mod numbers;
pub mod passed;

pub use numbers::Numbers;
pub use passed::{Group, Log};
use std::error::Error;
use std::fmt;

// The most episodes and the most to words that a caller takes.
#[derive(Clone, Copy, Debug, PartialEq, Eq)]
pub struct Ceilings {
    pub episodes: usize,
    pub words: usize,
}

// The kinds of words of logs and reports.
#[derive(Clone, Copy, Debug, PartialEq, Eq)]
pub enum Kind {
    Head = 1,
    From = 2,
    To = 3,
    Width = 4,
    Apart = 5,
    Thread = 6,
    Step = 7,
    Loop = 8,
    Voices = 9,
    End = 15,
}

impl Kind {
    pub fn code(self) -> u32
        ensures { result ≡ kind_code self }
    {
        self as u32
    }

    // Whether the word `w` is of this kind.
    pub fn is_of(self, w: u32) -> bool
        ensures { result ≡ eqb (kind w) (kind_code self) }
    {
        Kind::try_from(w) == Ok(self)
    }

    // The word of this kind with a number. The kind's code stands in the top 4 bits, as it does in `ToWord::word`: no form is plainer.
    pub fn word(self, number: usize) -> u32
        requires { Small number }
        ensures { result ≡ word (kind_code self) number }
    {
        self.code() * 0x1000_0000 + number as u32
    }
}

// The kind of a word.
impl TryFrom<u32> for Kind {
    type Error = Reason;

    ghost try_from_gives = { KindOf };

    fn try_from(w: u32) -> Result<Kind, Reason> {
        match kind_of(w) {
            1 => Ok(Kind::Head),
            2 => Ok(Kind::From),
            3 => Ok(Kind::To),
            4 => Ok(Kind::Width),
            5 => Ok(Kind::Apart),
            6 => Ok(Kind::Thread),
            7 => Ok(Kind::Step),
            8 => Ok(Kind::Loop),
            9 => Ok(Kind::Voices),
            15 => Ok(Kind::End),
            _ => Err(Reason::UnknownKind),
        }
    }
}

// The number of a word's kind, also where `Kind` has none of that number.
pub fn kind_of(w: u32) -> u32
    ensures { result ≡ kind w }
{
    w / 0x1000_0000
}

pub fn number_of(w: u32) -> usize
    ensures { result ≡ number w }
{
    (w % 0x1000_0000) as usize
}

// A to word: its later episode and its pause in minutes.
#[derive(Clone, Copy, Debug, PartialEq, Eq)]
pub struct ToWord {
    pub episode: usize,
    pub pause: u32,
}

impl From<u32> for ToWord {
    ghost from_gives = { λ w t. (t.episode ≡ to_episode w) × (t.pause ≡ to_pause w) };

    fn from(w: u32) -> ToWord {
        let number = w % 0x1000_0000;
        ToWord {
            episode: (number % 0x1_0000) as usize,
            pause: number / 0x1_0000,
        }
    }
}

impl ToWord {
    // The to word of this episode and this pause.
    pub fn word(self) -> u32
        requires { (self.episode < 2 ^ 16) × (self.pause < 2 ^ 12) }
        ensures { result ≡ to_word self.episode self.pause }
    {
        Kind::To.code() * 0x1000_0000 + self.pause * 0x1_0000 + self.episode as u32
    }
}

// A voices word: its episode and how many voices that has.
#[derive(Clone, Copy, Debug, PartialEq, Eq)]
pub struct VoicesWord {
    pub episode: usize,
    pub voices: u32,
}

impl From<u32> for VoicesWord {
    ghost from_gives = { λ w v. (v.episode ≡ voices_episode w) × (v.voices ≡ voices_given w) };

    fn from(w: u32) -> VoicesWord {
        let number = number_of(w);
        VoicesWord {
            episode: number % 0x1_0000,
            voices: (number / 0x1_0000) as u32,
        }
    }
}

impl VoicesWord {
    // The voices word of this episode and these voices.
    pub fn word(self) -> u32
        requires { (self.episode < 2 ^ 16) × (self.voices < 2 ^ 12) }
        ensures { result ≡ voices_word self.episode self.voices }
    {
        Kind::Voices.code() * 0x1000_0000 + self.voices * 0x1_0000 + self.episode as u32
    }
}

// A head: its version and its count of episodes.
#[derive(Clone, Copy, Debug, PartialEq, Eq)]
pub struct Head {
    pub version: u32,
    pub episodes: usize,
}

impl From<u32> for Head {
    ghost from_gives = { λ w h. (h.version ≡ head_version w) × (h.episodes ≡ head_episodes w) };

    fn from(w: u32) -> Head {
        let number = w % 0x1000_0000;
        Head {
            version: number / 0x100_0000,
            episodes: (number % 0x100_0000) as usize,
        }
    }
}

impl Head {
    // The head with these figures.
    pub fn word(self) -> u32
        requires { (self.version < 2 ^ 4) × (self.episodes < 2 ^ 24) }
        ensures { result ≡ head_of self.version self.episodes }
    {
        Kind::Head.code() * 0x1000_0000 + (self.version * 0x100_0000 + self.episodes as u32)
    }
}

// Whether a pause lets a link count: in version 0 each does.
pub fn short_enough(version: u32, pause: u32) -> bool
    ensures { result ≡ short_enough version pause }
{
    version == 0 || pause <= 360
}

// Why a call is refused: the questions that are answered no, by their numbers.
#[derive(Clone, Copy, Debug, PartialEq, Eq)]
pub enum Reason {
    TooShort = 1,
    NoHead = 2,
    TooManyEpisodes = 3,
    UnknownKind = 4,
    ToBeforeFrom = 5,
    FromWithoutTo = 6,
    NoSuchEpisode = 7,
    TooManyToWords = 8,
    NoEnd = 9,
    WrongCount = 10,
    OutputTooShort = 11,
    WorkTooShort = 12,
    Loop = 13,
    TooManyBytes = 14,
    PartOfAWord = 15,
    NotAReport = 16,
    NoSuchThread = 17,
    UnknownVersion = 18,
    TooManyVoices = 19,
    TooManyForVoices = 20,
    VoicesAgain = 21,
}

impl Reason {
    // The refusal for this reason at a place.
    pub fn at(self, place: usize) -> Refusal
        ensures { result ≡ record { reason = self; place = place } }
    {
        Refusal {
            reason: self,
            place,
        }
    }
}

// A refusal: its reason and its place.
#[derive(Clone, Copy, Debug, PartialEq, Eq)]
pub struct Refusal {
    pub reason: Reason,
    pub place: usize,
}

impl Refusal {
    pub fn number(self) -> u32
        ensures { result ≡ reason_number self.reason }
    {
        self.reason as u32
    }
}

impl fmt::Display for Refusal {
    ghost use Rattle.std.specs.Prelude.{Some};
    ghost use Rattle.logs.specs.Shown.{refusal_shown};

    ghost output = { λ r. Some (refusal_shown (reason_number r.reason) r.place) };

    fn fmt<W: fmt::Write>(&self, f: &mut fmt::Formatter<W>) -> fmt::Result {
        write!(f, "refused {} at {}", self.number(), self.place)
    }
}

impl Error for Refusal {}

// A log word between head and end, or the end: its number, which of a to word is its episode and its pause.
#[derive(Clone, Copy, Debug, PartialEq, Eq)]
pub enum LogWord {
    From(usize),
    To(ToWord),
    End(usize),
}

// What a log passes with: its count of episodes, of to words and of voices words.
#[derive(Clone, Copy, Debug, PartialEq, Eq)]
pub struct Reading {
    pub episodes: usize,
    pub to_words: usize,
    pub voices_words: usize,
}

// Questions 2, 18 and 3, of the head: its version and its count of episodes.
pub fn head_word(most: Ceilings, w: u32) -> Result<Head, Refusal>
    ensures { result_answer head_figures result ≡ head_word most w }
{
    let head = Head::from(w);
    let ceiling = most.episodes;
    if !Kind::Head.is_of(w) {
        return Err(Reason::NoHead.at(0));
    }
    if 1 < head.version {
        return Err(Reason::UnknownVersion.at(0));
    }
    if ceiling < head.episodes {
        return Err(Reason::TooManyEpisodes.at(0));
    }
    Ok(head)
}

// Whether the word at `at` is not the last, and is a to word.
pub fn to_before_last(log: &[u32], at: usize) -> bool
    requires { at < length log.now }
    ensures { result ≡ to_before_last log.now at }
{
    let w = log[at];
    at != log.len() - 1 && Kind::To.is_of(w)
}

// The place behind the to words that stand from `start` on.
pub fn group_end(log: &[u32], start: usize) -> usize
    requires { start < length log.now }
    ensures { ToWords log.now start result × (to_before_last log.now result ≡ false) }
{
    let last = log.len() - 1;
    for (k, w) in log[start..last].iter().enumerate() {
        if !Kind::To.is_of(*w) {
            return start + k;
        }
    }
    last
}

// Questions 9 and 10, of the last word, `w` at `at`: its number.
#[tactic(auto, unfolding(crate::specs::Log::end_word))]
fn end_word(w: u32, at: usize, count: usize) -> Result<usize, Refusal>
    ensures { result_answer (numbered 15) result ≡ end_word at w count }
{
    let number = number_of(w);
    if !Kind::End.is_of(w) {
        return Err(Reason::NoEnd.at(at));
    }
    if number != count {
        return Err(Reason::WrongCount.at(at));
    }
    Ok(number)
}

// What hears the links of a log one by one, as the log is read.
pub trait Hear {
    // the links that it has heard: those that a to word gives with a pause that lets them count
    ghost heard: { Self → List (ℕ × ℕ) → Type 0 };

    // of how many episodes it takes logs
    ghost takes: { ℕ → Type 0 };

    // the row of a from word's episode
    ghost row_of: { ℕ → ℕ };

    fn row(from: usize) -> usize
        requires { (n : ℕ) × takes n × (from < n) }
        ensures { result ≡ row_of from };

    // Hears the link to episode `to` from the episode with that row where `short` says that its pause lets it count.
    fn hear(&mut self, row: usize, to: usize, short: bool)
        requires { Next takes row_of (heard self.old) row to }
        ensures { (next : Next takes row_of (heard self.old) row to) → heard self.new (next.links ++ where_short short (next.from, to)) };
}

// Tells a hearer of a to word in a log of this version, from the episode with that row. In version 0 its pause is not looked at.
fn tell<H: Hear>(version: u32, hearer: &mut H, row: usize, to: ToWord)
    requires { Next H.takes H.row_of (H.heard hearer.old) row to.episode }
    ensures { (next : Next H.takes H.row_of (H.heard hearer.old) row to.episode)
        → H.heard hearer.new (next.links ++ where_short (short_enough version to.pause) (next.from, to.episode)) }
{
    if version == 0 {
        hearer.hear(row, to.episode, true);
    } else {
        hearer.hear(row, to.episode, short_enough(version, to.pause));
    }
}

// The most episodes of a log with a voices word, and the most voices of an episode.
const MOST_WITH_VOICES: usize = 120;

const MOST_VOICES: u32 = 2;

// A place of the log, whether a from word stands before it, and the count of to words before it.
#[derive(Clone, Copy)]
struct Stop {
    place: usize,
    from: bool,
    count: usize,
}

// What questions 4 to 10 are asked of: a log, with the count of episodes of its head, at a caller's ceilings.
#[derive(Clone, Copy)]
pub struct Questions<'a> {
    pub most: Ceilings,
    pub log: &'a [u32],
    pub n: usize,
}

impl<'a> Questions<'a> {
    // Questions 20, 7, 19 and 21, of the voices word at `at`, behind the head and voices words; `seen` notes the episodes of these.
    #[tactic(auto, unfolding(crate::specs::Log::voices_asked))]
    fn voices_word(self, at: usize, seen: &[bool; MOST_WITH_VOICES]) -> Result<VoicesWord, Refusal>
        requires { (at < length self.log.now) × (kind (get_or self.log.now at 0) ≡ 9) × Noted seen.now (marks_of (before self.log.now at)) }
        ensures { result_answer voices_figures result ≡ voices_asked self.entry.n at (get_or self.entry.log.now at 0) (marks_of (before self.entry.log.now at)) }
    {
        let mark = VoicesWord::from(self.log[at]);
        let episode = mark.episode;
        if MOST_WITH_VOICES < self.n {
            return Err(Reason::TooManyForVoices.at(at));
        }
        if self.n <= episode {
            return Err(Reason::NoSuchEpisode.at(at));
        }
        if MOST_VOICES < mark.voices {
            return Err(Reason::TooManyVoices.at(at));
        }
        if seen[episode] {
            return Err(Reason::VoicesAgain.at(at));
        }
        Ok(mark)
    }

    // The place behind the voices words that stand behind the head, where each of them passes.
    fn voices_end(self) -> Result<usize, Refusal>
        requires { 2 ≤ length self.log.now }
        ensures { VoicesEnd self.entry.most self.entry.log.now self.entry.n result }
    {
        let log = self.log;
        let last = log.len() - 1;
        let mut seen = [false; MOST_WITH_VOICES];
        let mut at = 1;
        while at < last && Kind::Voices.is_of(log[at]) {
            let mark = self.voices_word(at, &seen)?;
            let episode = mark.episode;
            seen[episode] = true;
            at += 1;
        }
        Ok(at)
    }

    // Questions 6 and 7, of a from word at `at`: its number.
    fn from_word(self, at: usize, earlier: usize) -> Result<usize, Refusal>
        requires { at + 1 < length self.log.now }
        ensures { result_answer (numbered 2) result ≡ question 6 at (to_before_last self.entry.log.now (at + 1)) (question 7 at (ltb earlier self.entry.n) (given (2, earlier, 0))) }
    {
        let follows = to_before_last(self.log, at + 1);
        if !follows {
            return Err(Reason::FromWithoutTo.at(at));
        }
        if self.n <= earlier {
            return Err(Reason::NoSuchEpisode.at(at));
        }
        Ok(earlier)
    }

    // Questions 7 and 8, of a to word at `at` that has a from word before it.
    pub fn to_word(self, at: usize, w: u32, count: usize) -> Result<ToWord, Refusal>
        ensures { result_answer to_figures result ≡ question 7 at (ltb (to_episode w) self.entry.n) (question 8 at (ltb count self.entry.most.words) (given (3, to_episode w, to_pause w))) }
    {
        let ceiling = self.most.words;
        let to = ToWord::from(w);
        if self.n <= to.episode {
            return Err(Reason::NoSuchEpisode.at(at));
        }
        if ceiling <= count {
            return Err(Reason::TooManyToWords.at(at));
        }
        Ok(to)
    }

    // Questions 4 to 8, of the word at `at`, which is neither the head nor the last. Whether a from word came before it is asked of the caller: what
    // is promised holds of either, at each place.
    #[tactic(auto, using(crate::proofs::Asked::from_asked, crate::proofs::Asked::group_to, crate::proofs::Asked::group_other))]
    pub fn group_word(self, at: usize, from: bool, count: usize) -> Result<LogWord, Refusal>
        requires { at + 1 < length self.log.now }
        ensures { word_answer result ≡ group_word self.entry.most self.entry.n at (get_or self.entry.log.now at 0) (drop (at + 1) self.entry.log.now) from count }
    {
        let w = self.log[at];
        match Kind::try_from(w).map_err(|reason| reason.at(at))? {
            Kind::From => Ok(LogWord::From(self.from_word(at, number_of(w))?)),
            Kind::To if from => Ok(LogWord::To(self.to_word(at, w, count)?)),
            Kind::To => Err(Reason::ToBeforeFrom.at(at)),
            _ => Err(Reason::UnknownKind.at(at)),
        }
    }

    // Questions 4 to 10, of the word at `at` behind the head. Behind the log stands no end. As in `group_word`, `from` is asked of the caller.
    #[tactic(auto, using(crate::proofs::Places::word_behind))]
    pub fn log_word(self, at: usize, from: bool, count: usize) -> Result<LogWord, Refusal>
        ensures { word_answer result ≡ log_word_at self.entry.most self.entry.log.now self.entry.n at from count }
    {
        if self.log.len() <= at {
            Err(Reason::NoEnd.at(at))
        } else if at + 1 < self.log.len() {
            self.group_word(at, from, count)
        } else {
            Ok(LogWord::End(end_word(self.log[at], at, count)?))
        }
    }

    // The place of the first word from `start` on and before the end that earns a refusal, or else of the last word; before `start` stand the head and
    // voices words. The links before it that their pauses let count in this version, which is the log's, are heard.
    fn first_stop<H: Hear>(self, start: usize, version: u32, hearer: &mut H) -> Stop
        requires { BehindVoices self.log.now start × (version ≡ (content_of self.log.now).version) × (self.n ≤ self.most.episodes) × H.takes self.most.episodes
            × H.heard hearer.old [] }
        ensures { Stopped self.entry.most self.entry.log.now self.entry.n start result.place result.count
            × H.heard hearer.new (short_before self.entry.log.now result.place) × (result.from ≡ ltb start result.place) }
    {
        let log = self.log;
        let last = log.len() - 1;
        let mut at = start;
        // How many words before `at` are no to words: the head, the voices words and the from words.
        let mut others = start;
        // Left by a label that carries the place, as the scope asks; an iterator has groups only of a log that has passed.
        let (place, from) = 'log: loop {
            if at == last {
                break 'log (at, others < at);
            }
            // A group starts with its from word, which answers question 5 for its to words, and question 6 says that it has one. So behind `start`
            // a to word stands before `at`, and `others` is less; a to word at `start` has no from word before it, and is refused.
            let Ok(LogWord::From(from)) = self.group_word(at, others < at, at - others) else {
                break 'log (at, others < at);
            };
            let row = H::row(from);
            at += 1;
            others += 1;
            // Its to words.
            loop {
                let Ok(to) = self.to_word(at, log[at], at - others) else {
                    break 'log (at, true);
                };
                tell(version, hearer, row, to);
                at += 1;
                if !to_before_last(log, at) {
                    break;
                }
            }
        };
        let count = place - others;
        Stop { place, from, count }
    }
}

// Questions 1 to 10 and 18 to 21, at a caller's ceilings, in one pass over the log. Where they are answered yes, the links that their pauses let count have
// been heard in their order.
#[tactic(auto, using(crate::proofs::Whole::too_short, crate::proofs::Whole::head_first, crate::proofs::Whole::word_stopped, crate::proofs::Hearing::all_links, crate::proofs::Hearing::all_voices, crate::proofs::Whole::voices_refused, crate::proofs::Hearing::its_version))]
pub fn read_hearing<H: Hear>(
    most: Ceilings,
    log: &[u32],
    hearer: &mut H,
) -> Result<Reading, Refusal>
    requires { H.takes most.episodes × H.heard hearer.old [] }
    ensures answer { read_answer result ≡ questions most log.now }
    ensures heard { OnOk result (H.heard hearer.new (short_links log.now)) }
    ensures voices { IfOk result (λ r. r.voices_words ≡ voices_count log.now) }
{
    if log.len() < 2 {
        return Err(Reason::TooShort.at(0));
    }
    let head = head_word(most, log[0])?;
    let n = head.episodes;
    let asked = Questions { most, log, n };
    let start = asked.voices_end()?;
    let stop = asked.first_stop(start, head.version, hearer);
    asked.log_word(stop.place, stop.from, stop.count)?;
    Ok(Reading {
        episodes: n,
        to_words: stop.count,
        voices_words: start - 1,
    })
}

// Hears nothing.
impl Hear for () {
    ghost heard = { λ _ _. Unit {0} };

    ghost takes = { λ _. Unit {0} };

    ghost row_of = { λ from. from };

    fn row(from: usize) -> usize {
        from
    }

    fn hear(&mut self, _row: usize, _to: usize, _short: bool) {}
}

// Questions 1 to 10 and 18 to 21, at a caller's ceilings.
pub fn read_within(most: Ceilings, log: &[u32]) -> Result<Reading, Refusal>
    ensures answer { read_answer result ≡ questions most log.now }
    ensures voices { IfOk result (λ r. r.voices_words ≡ voices_count log.now) }
{
    read_hearing(most, log, &mut ())
}

// The service's ceilings.
pub fn service_ceilings() -> Ceilings
    ensures { result ≡ service }
{
    Ceilings {
        episodes: 200,
        words: 4096,
    }
}

// Questions 1 to 10 and 18 to 21, at the service's ceilings.
pub fn read(log: &[u32]) -> Result<Reading, Refusal>
    ensures { read_answer result ≡ questions service log.now }
{
    read_within(service_ceilings(), log)
}
