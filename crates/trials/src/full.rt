// Logs of full size: 200 episodes, or 120 with voices words, and 4,096 to words or one more.
ghost use Rattle.std.specs.Prelude.{◌^◌, ◌<◌, ◌≤◌};

use crate::show::{Asked, Service, Trial};
use logs::{Kind, VoicesWord};
use std::{array, io};

// What is asked of each log.
const EACH: [Asked; 5] = [
    Asked::Reading,
    Asked::Links,
    Asked::Outcome(Service::Report),
    Asked::Outcome(Service::FairCopy),
    Asked::Outcome(Service::TrimmedCopy),
];

// The trial of a log.
fn trial(rt: &impl Print, asked: Asked, name: &str, words: &[u32]) -> io::Result<()> {
    let name = name.as_bytes();
    Trial { asked, name, words }.make(rt)
}

// The trials of a log.
fn trials(rt: &impl Print, name: &str, log: &[u32]) -> io::Result<()> {
    for asked in EACH {
        trial(rt, asked, name, log)?;
    }
    Ok(())
}

// The figures of a log: its episodes, its words with head and end, and its to words.
#[derive(Clone, Copy)]
struct Size {
    episodes: usize,
    words: usize,
    to_words: usize,
    ghost within: { (episodes ≤ 200) × (2 ≤ words) × (words ≤ 8316) × (to_words ≤ 4097) },
}

// The trials of a log of this size: the head, the words that `word_at` gives for each place behind it, and the end. They stand in an array with
// room for the most, since nothing is allocated.
fn filled<F: Fn(usize) -> u32>(
    rt: &impl Print,
    name: &str,
    size: Size,
    word_at: F,
) -> io::Result<()>
    requires { F.IsAlwaysCallable word_at }
{
    let n = size.words;
    let mut words: [u32; 8316] = array::from_fn(word_at);
    words[0] = Kind::Head.word(size.episodes);
    words[n - 1] = Kind::End.word(size.to_words);
    trials(rt, name, &words[..n])
}

// The trials of a log of 200 episodes with `n` words and `count` to words.
fn of_200<F: Fn(usize) -> u32>(
    rt: &impl Print,
    name: &str,
    n: usize,
    count: usize,
    word_at: F,
) -> io::Result<()>
    requires called { F.IsAlwaysCallable word_at }
    requires within { (2 ≤ n) × (n ≤ 8316) × (count ≤ 4097) }
{
    let size = Size {
        episodes: 200,
        words: n,
        to_words: count,
    };
    filled(rt, name, size, word_at)
}

// One group, 0 to 1 again and again: the to words stand at 2 and behind it, the 4,096th at 4,097, the 4,097th at 4,098.
pub fn one_group(rt: &impl Print) -> io::Result<()> {
    let word = |i| {
        if i == 1 {
            Kind::From.word(0)
        } else {
            Kind::To.word(1)
        }
    };
    of_200(rt, "4,096 to words", 4099, 4096, word)?;
    of_200(rt, "4,097 to words", 4100, 4097, word)
}

// The same with 4,097 to words, of which the last is not below n either: 7 is asked first.
pub fn last_too_large(rt: &impl Print) -> io::Result<()> {
    let mut words = [Kind::To.word(1); 4100];
    words[0] = Kind::Head.word(200);
    words[1] = Kind::From.word(0);
    words[4098] = Kind::To.word(200);
    words[4099] = Kind::End.word(4097);
    let name = "4,097 to words, the last 200 of 200";
    trial(rt, Asked::Reading, name, &words)
}

// The word at place `i` where groups of two words, 0 to 1 again and again, begin at odd places.
fn pair(i: usize) -> u32 {
    if i % 2 == 1 {
        Kind::From.word(0)
    } else {
        Kind::To.word(1)
    }
}

// Groups of two words, 0 to 1 again and again: the to words stand at 2, 4 and so on, the 4,096th at 8,192, the 4,097th at 8,194.
pub fn pairs(rt: &impl Print) -> io::Result<()> {
    of_200(rt, "4,096 groups", 8194, 4096, pair)?;
    of_200(rt, "4,097 groups", 8196, 4097, pair)
}

// The word of an episode at place `i`, where from words stand at odd places and to words at even ones.
fn link(i: usize, episode: usize) -> u32
    requires { episode < 200 }
{
    let kind = if i % 2 == 1 { Kind::From } else { Kind::To };
    kind.word(episode)
}

// Word 2k + 1 is the from word of episode k, and word 2k the to word of episode k: the links 0-1 to 198-199, and then 199-0.
pub fn chains(rt: &impl Print) -> io::Result<()> {
    let word = |i| link(i, i / 2 % 200);
    // Width 1, one member, one thread of 200.
    of_200(rt, "a chain of 200", 400, 199, word)?;
    of_200(rt, "a loop of 200", 402, 200, word)
}

// No links: n threads of one episode.
fn single(rt: &impl Print, name: &str, n: usize) -> io::Result<()>
    requires { n ≤ 201 }
{
    trials(rt, name, &[Kind::Head.word(n), Kind::End.word(0)])
}

pub fn single_episodes(rt: &impl Print) -> io::Result<()> {
    single(rt, "200 episodes", 200)?;
    single(rt, "201 episodes", 201)
}

// The word at place `i` of 1 to 120, or to 121, where these are voices words that give each episode so many voices: first 1, then the others up to
// 119, then 0.
fn mark(i: usize, voices: u32) -> u32
    requires { voices < 2 ^ 12 }
{
    let episode = i % 120;
    VoicesWord { episode, voices }.word()
}

// Duets without links. Of 120: width 240, 120 members, 240 threads of one episode. Of 121 the first voices word is refused.
pub fn duets(rt: &impl Print) -> io::Result<()> {
    let duet = |i| mark(i, 2);
    let size = Size {
        episodes: 120,
        words: 122,
        to_words: 0,
    };
    filled(rt, "120 duets", size, duet)?;
    let size = Size {
        episodes: 121,
        words: 123,
        to_words: 0,
    };
    filled(rt, "121 duets", size, duet)
}

// 120 duets, and behind them the links 0-1 to 118-119: word 2k + 121 is the from word of episode k, and word 2k + 120 the to word of episode k.
pub fn chain_of_duets(rt: &impl Print) -> io::Result<()> {
    let word = |i| {
        if i < 121 {
            mark(i, 2)
        } else {
            link(i, (i / 2 % 120 + 60) % 120)
        }
    };
    let size = Size {
        episodes: 120,
        words: 360,
        to_words: 119,
    };
    // Width 2, one member, two threads of 120.
    filled(rt, "a chain of 120 duets", size, word)
}

// 120 doors: no member and no thread.
pub fn doors(rt: &impl Print) -> io::Result<()> {
    let size = Size {
        episodes: 120,
        words: 122,
        to_words: 0,
    };
    filled(rt, "120 doors", size, |i| mark(i, 0))
}

// The longest logs: 120 voices words that say 1, and behind them groups of two words, 0 to 1 again and again. The 4,097th to word stands at 8,314.
pub fn longest(rt: &impl Print) -> io::Result<()> {
    let word = |i| if i < 121 { mark(i, 1) } else { pair(i) };
    // Width 119, 119 members: one thread 0 1 and 118 of one episode.
    let size = Size {
        episodes: 120,
        words: 8314,
        to_words: 4096,
    };
    filled(rt, "120 voices words, 4,096 groups", size, word)?;
    let size = Size {
        episodes: 120,
        words: 8316,
        to_words: 4097,
    };
    filled(rt, "120 voices words, 4,097 groups", size, word)
}
