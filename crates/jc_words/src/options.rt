//! The options.

ghost use Rattle.std.specs.Prelude.{◌≡◌, ◌≤◌, Some, None, IfSome, MatchOption, ◌∷◌, length, map, string_bytes};
ghost use Rattle.jc_words.specs.Options.{cut_of, option_named, options_of, pairs_of, with_pair};
ghost use Rattle.jc_words.specs.Values.{lock_said, moment_said, number_said};
ghost use Rattle.jc_words.specs.declared.words.LockKind.TheVariants.{Mutex};
ghost use Rattle.jc_words.specs.Words.{setting};
ghost use Rattle.jc_words.specs.SaidOptions.{IsSaidBy, given};

use crate::numbers::{read_moment, read_number};
use crate::words::LockKind;
use jc_moment::Moment;
use jc_types::Shape;

// The greatest number of threads.
const MOST_THREADS: u32 = 16;

/// The name of an option.
#[derive(Clone, Copy, PartialEq, Eq, Debug)]
pub enum OptionName {
    Threads,
    Lock,
    Controllers,
    Workers,
    Window,
    Events,
    Start,
}

/// The value that each option is given, if any.
#[derive(Clone, Copy)]
pub struct Said<'w> {
    threads: Option<&'w str>,
    lock: Option<&'w str>,
    controllers: Option<&'w str>,
    workers: Option<&'w str>,
    window: Option<&'w str>,
    events: Option<&'w str>,
    start: Option<&'w str>,
}

// The option that has the word.
fn option_named(word: &str) -> Option<OptionName>
    ensures { result ≡ option_named word.now }
{
    match word {
        "--threads" => Some(OptionName::Threads),
        "--lock" => Some(OptionName::Lock),
        "--controllers" => Some(OptionName::Controllers),
        "--workers" => Some(OptionName::Workers),
        "--window" => Some(OptionName::Window),
        "--events" => Some(OptionName::Events),
        "--start" => Some(OptionName::Start),
        _ => None,
    }
}

// What stands before the first `=` of a word, and what behind it.
#[tactic(auto, unfolding(crate::specs::Options::cut_of))]
fn cut(word: &str) -> Option<(&str, &str)>
    ensures { MatchOption result (cut_of word.now ≡ None)
        (λ parts. cut_of word.now ≡ Some (parts.0.now, parts.1.now)) }
{
    word.split_once('=')
}

// The first option, its value, and the words behind them.
fn first_option<'w>(
    word: &'w str,
    behind: &'w [String],
) -> Option<(OptionName, &'w str, &'w [String])>
    ensures pairs { MatchOption result (pairs_of (word.now ∷ map string_bytes behind.now) ≡ None)
        (λ first. pairs_of (word.now ∷ map string_bytes behind.now)
        ≡ with_pair (Some first.0) first.1.now (pairs_of (map string_bytes first.2.now))) }
    ensures fewer { IfSome result (λ first. length first.2.now ≤ length behind.now) }
{
    if let Some((name, value)) = cut(word) {
        return Some((option_named(name)?, value, behind));
    }
    let (value, rest) = behind.split_first()?;
    Some((option_named(word)?, value.as_str(), rest))
}

/// What the options say; `None` where they are not in the grammar.
pub fn read_options<'w>(words: &'w [String]) -> Option<Said<'w>>
    ensures { MatchOption result (options_of (map string_bytes words.now) ≡ None)
        (λ said. IsSaidBy said (options_of (map string_bytes words.now))) }
{
    let mut said = Said::new();
    let mut left = words;
    'reading: while let Some((word, behind)) = left.split_first() {
        let (name, value, rest) = first_option(word.as_str(), behind)?;
        if said.value(name).is_some() {
            return None;
        }
        said.set(name, value);
        left = rest;
    }
    Some(said)
}

// The number that a value says, and the default where there is none.
fn number_or(value: Option<&str>, low: u32, high: u32, default: u32) -> Option<u32>
    ensures { result ≡ setting default (number_said low high) (given value.entry) }
{
    match value {
        Some(text) => read_number(text, low, high),
        None => Some(default),
    }
}

// The same of a moment.
fn moment_or(value: Option<&str>, default: Moment) -> Option<Moment>
    ensures { result ≡ setting default moment_said (given value.entry) }
{
    match value {
        Some(text) => read_moment(text),
        None => Some(default),
    }
}

// The lock that the text names.
fn read_lock(text: &str) -> Option<LockKind>
    ensures { result ≡ lock_said text.now }
{
    match text {
        "mutex" => Some(LockKind::Mutex),
        "turn" => Some(LockKind::Turn),
        _ => None,
    }
}

// The same of a lock.
fn lock_or(value: Option<&str>) -> Option<LockKind>
    ensures { result ≡ setting Mutex lock_said (given value.entry) }
{
    match value {
        Some(text) => read_lock(text),
        None => Some(LockKind::Mutex),
    }
}

impl<'w> Said<'w> {
    ghost use Rattle.std.specs.Prelude.{◌≡◌, [], ◌∷◌, if◌then◌else◌};
    ghost use Rattle.jc_words.specs.Options.{same_name};
    ghost use Rattle.jc_words.specs.SaidOptions.{given, values_in};
    ghost use Rattle.jc_words.specs.Words.{setting, shape_alone, shape_said, default_shape, most_threads};
    ghost use Rattle.jc_words.specs.Values.{lock_said, number_said};
    ghost use Rattle.jc_words.specs.declared.words.LockKind.TheVariants.{Mutex};
    ghost use Rattle.jc_words.specs.declared.options.OptionName.{OptionName};
    ghost use Rattle.jc_words.specs.declared.options.OptionName.TheVariants.{Lock, Threads};

    // Nothing yet.
    fn new() -> Said<'w>
        ensures { (name : OptionName) → values_in result name ≡ [] }
    {
        Said {
            threads: None,
            lock: None,
            controllers: None,
            workers: None,
            window: None,
            events: None,
            start: None,
        }
    }

    // The value that the option is given.
    fn value(&self, name: OptionName) -> Option<&'w str>
        ensures { given result ≡ values_in self.now name }
    {
        match name {
            OptionName::Threads => self.threads,
            OptionName::Lock => self.lock,
            OptionName::Controllers => self.controllers,
            OptionName::Workers => self.workers,
            OptionName::Window => self.window,
            OptionName::Events => self.events,
            OptionName::Start => self.start,
        }
    }

    // The option is given the value.
    fn set(&mut self, name: OptionName, value: &'w str)
        ensures { (other : OptionName) → values_in self.new other
            ≡ if same_name name other then value.now ∷ [] else values_in self.old other }
    {
        match name {
            OptionName::Threads => self.threads = Some(value),
            OptionName::Lock => self.lock = Some(value),
            OptionName::Controllers => self.controllers = Some(value),
            OptionName::Workers => self.workers = Some(value),
            OptionName::Window => self.window = Some(value),
            OptionName::Events => self.events = Some(value),
            OptionName::Start => self.start = Some(value),
        }
    }

    /// The number of threads.
    pub fn threads(&self) -> Option<u32>
        ensures { result ≡ setting 0 (number_said 0 most_threads) (values_in self.now Threads) }
    {
        number_or(self.threads, 0, MOST_THREADS, 0)
    }

    /// The lock.
    pub fn lock(&self) -> Option<LockKind>
        ensures { result ≡ setting Mutex lock_said (values_in self.now Lock) }
    {
        lock_or(self.lock)
    }

    /// The shape; what no option says is as in `default`.
    #[tactic(auto, unfolding(crate::specs::Words::shape_said))]
    pub fn shape(&self, default: Shape) -> Option<Shape>
        requires { default ≡ default_shape }
        ensures { result ≡ shape_said (values_in self.now) }
    {
        Some(Shape {
            controllers: number_or(self.controllers, 1, 4, default.controllers)?,
            workers: number_or(self.workers, 1, 16, default.workers)?,
            window: number_or(self.window, 1, 200_000, default.window)?,
            events: number_or(self.events, 1, 200_000, default.events)?,
            start: moment_or(self.start, default.start)?,
        })
    }

    /// The shape, where neither threads nor a lock are given.
    pub fn shape_alone(&self, default: Shape) -> Option<Shape>
        requires { default ≡ default_shape }
        ensures { result ≡ shape_alone (values_in self.now) }
    {
        if self.threads.is_some() || self.lock.is_some() {
            return None;
        }
        self.shape(default)
    }
}
