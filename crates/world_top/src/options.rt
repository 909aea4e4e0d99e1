//! The options of `run`, and the numbers of `gen`.

ghost use Rattle.std.specs.Prelude.{◌≡◌, ◌<◌, ◌∷◌, [], length, map, IfSome, IsNone, MatchOption};
ghost use Rattle.world_top.specs.Words.{HasWorkers, IsInRange, apart, gen_with as gen_in, number_between as number_in, options_apart};
ghost use Rattle.world_top.specs.Words.{run_spelled as run_with_numbers, run_with as run_in};

use super::Verb;
use arrayvec::ArrayVec;
use entity_id::read_nat;
use world_maker::COUNT_LIMIT;

// The most ticks and the most workers that words can ask for.
const TICK_COUNT_LIMIT: u64 = 1_000_000;

// The greatest number that words can name a made world by.
const WORLD_NUMBER_LIMIT: u64 = 4_294_967_295;

const WORKER_LIMIT: u64 = 16;

// Two options, each with its number.
const WORD_COUNT: usize = 4;

/// The run that the words behind `run` ask for: both options, in either order, each with its number as
/// the next word or behind `=`. None where they ask for none. No memory.
pub fn run_with(options: &[String]) -> Option<Verb>
    ensures verb { result ≡ run_in (options_apart options.now) }
    ensures range { IfSome result IsInRange }
    ensures workers { IfSome result HasWorkers }
{
    let words = words_apart(options)?;
    match words.as_slice() {
        [first, x, second, y] => run_of(first, x, second, y),
        _ => None,
    }
}

// The run that four words ask for.
fn run_of(first: &[u8], x: &[u8], second: &[u8], y: &[u8]) -> Option<Verb>
    ensures verb { result ≡ run_in (first.now ∷ x.now ∷ second.now ∷ y.now ∷ []) }
    ensures range { IfSome result IsInRange }
    ensures workers { IfSome result HasWorkers }
{
    if first == b"--ticks".as_slice() && second == b"--workers".as_slice() {
        return run_spelled(x, y);
    }
    if first == b"--workers".as_slice() && second == b"--ticks".as_slice() {
        return run_spelled(y, x);
    }
    None
}

// The words of options, with those apart that `=` joins. None where they are too many.
fn words_apart<'a>(options: &'a [String]) -> Option<ArrayVec<&'a [u8], WORD_COUNT>>
    ensures some { IfSome result (λ words.
        map (λ word. word.now) words.items ≡ options_apart options.now) }
    ensures none { IsNone result →
        WORD_COUNT < length (options_apart options.now) }
{
    let mut words = ArrayVec::new();
    for option in options {
        let (name, number) = split_option(option.as_bytes());
        if words.is_full() {
            return None;
        }
        words.push(name);
        if let Some(number) = number {
            if words.is_full() {
                return None;
            }
            words.push(number);
        }
    }
    Some(words)
}

// A word, and in one that joins an option with its number that number.
fn split_option(word: &[u8]) -> (&[u8], Option<&[u8]>)
    ensures { MatchOption result.1
        (apart word.now ≡ result.0.now ∷ [])
        (λ number. apart word.now ≡ result.0.now ∷ number.now ∷ []) }
{
    if let Some(number) = word.strip_prefix(b"--ticks=") {
        return (b"--ticks", Some(number));
    }
    if let Some(number) = word.strip_prefix(b"--workers=") {
        return (b"--workers", Some(number));
    }
    (word, None)
}

// A run whose numbers these words spell.
fn run_spelled(ticks: &[u8], workers: &[u8]) -> Option<Verb>
    ensures verb { result ≡ run_with_numbers ticks.now workers.now }
    ensures range { IfSome result IsInRange }
    ensures workers { IfSome result HasWorkers }
{
    let ticks = number_between(0, TICK_COUNT_LIMIT, ticks)?;
    let workers = number_between(1, WORKER_LIMIT, workers)?;
    Some(Verb::Run { ticks, workers })
}

/// The made world that the words behind `gen` ask for: its number, how many entities it has, and for how
/// many ticks its systems run, in this order. None where they ask for none. No memory.
pub fn gen_with(words: &[String]) -> Option<Verb>
    ensures verb { result ≡ gen_in words.now }
    ensures range { IfSome result IsInRange }
    ensures workers { IfSome result HasWorkers }
{
    let [number, count, ticks] = words else {
        return None;
    };
    let number = number_between(0, WORLD_NUMBER_LIMIT, number.as_bytes())?;
    let count = number_between(0, u64::from(COUNT_LIMIT), count.as_bytes())?;
    let ticks = number_between(0, TICK_COUNT_LIMIT, ticks.as_bytes())?;
    Some(Verb::Gen {
        number: number as u32,
        count: count as u32,
        ticks,
    })
}

// The number that a word spells in decimal, without sign and without a leading zero, from a least to a
// greatest one.
fn number_between(least: u64, greatest: u64, word: &[u8]) -> Option<u64>
    ensures { result ≡ number_in least greatest word.now }
{
    let number = read_nat(word, greatest)?;
    if number < least { None } else { Some(number) }
}
