//! What the words ask for.

ghost use Rattle.std.specs.Prelude.{◌≡◌, List, [], ◌∷◌, map, string_bytes};
ghost use Rattle.jc_words.specs.Words.{default_shape, generate_order, order_of, run_order, run_said, shape_asked};
ghost use Rattle.jc_words.specs.SaidOptions.{values_in};

use crate::numbers::read_number;
use crate::options::{Said, read_options};
use jc_moment::Moment;
use jc_types::Shape;

/// The lock by which the seats of a run share its cluster.
#[derive(Clone, Copy, PartialEq, Eq, Debug)]
pub enum LockKind {
    /// A mutex, with a condition variable on which a seat waits that has nothing to do.
    Mutex,
    /// A turn lock: a seat that does not get the cluster tries again.
    Turn,
}

/// What the words ask for.
#[derive(Clone, Copy, PartialEq, Eq, Debug)]
pub enum Order {
    /// A script is read and played in the shape, with so many threads that share the cluster by the
    /// lock; 0: the play of one thread, which needs no lock.
    Run {
        threads: u32,
        lock: LockKind,
        shape: Shape,
    },
    /// A script is read and played in the shape on one thread until nothing is left to do, and then once more
    /// with the commands of a reaper behind it.
    Reap {
        shape: Shape,
    },
    /// A report is read, and audited by the shape.
    Audit {
        shape: Shape,
    },
    /// A generated script is played in the shape that no option changes.
    Generate {
        number: u32,
        jobs: u32,
        pods: u32,
    },
}

/// The shape of a run where no option says another: one controller of one worker, a window of 1,000 versions, 200,000
/// events, and a start at 2024-01-01T00:00:00Z.
pub fn default_shape() -> Shape
    ensures { result ≡ default_shape }
{
    Shape {
        controllers: 1,
        workers: 1,
        window: 1_000,
        events: 200_000,
        start: default_start(),
    }
}

// 2024-01-01T00:00:00Z.
fn default_start() -> Moment
    ensures { result ≡ 1704067200 }
{
    match Moment::from_seconds(1_704_067_200) {
        Some(moment) => moment,
        None => unreachable!(),
    }
}

// What the values of the options ask for.
#[tactic(auto, unfolding(crate::specs::Words::run_said))]
fn said_order(said: &Said) -> Option<Order>
    ensures { result ≡ run_said (values_in said.now) }
{
    Some(Order::Run {
        threads: said.threads()?,
        lock: said.lock()?,
        shape: said.shape(default_shape())?,
    })
}

// What the words behind `run` ask for.
fn run_order(words: &[String]) -> Option<Order>
    ensures { result ≡ run_order (map string_bytes words.now) }
{
    said_order(&read_options(words)?)
}

// The shape that the words behind `reap` or `audit` ask for.
fn shape_asked(words: &[String]) -> Option<Shape>
    ensures { result ≡ shape_asked (map string_bytes words.now) }
{
    read_options(words)?.shape_alone(default_shape())
}

// What the words behind `generate` ask for.
#[tactic(auto, unfolding(crate::specs::Words::three_numbers))]
fn generate_order(words: &[String]) -> Option<Order>
    ensures { result ≡ generate_order (map string_bytes words.now) }
{
    let [number, jobs, pods] = words else {
        return None;
    };
    Some(Order::Generate {
        number: read_number(number.as_str(), 0, u32::MAX)?,
        jobs: read_number(jobs.as_str(), 1, 100)?,
        pods: read_number(pods.as_str(), 1, 20)?,
    })
}

/// What the words after the program's name ask for; `None` exactly where they are not in the grammar. It takes no
/// memory.
///
/// They are `run` and options, `reap` or `audit` and options but for `threads` and `lock`, or `generate NUMBER JOBS PODS`. An option is `--NAME VALUE` or `--NAME=VALUE`, in any
/// order and each name at most once: `threads` (0 to 16), `lock` (`mutex`, which stands where no option says it, or
/// `turn`), `controllers` (1 to 4), `workers` (1 to 16), `window` and `events` (1 to 200,000), and `start` (the text of a
/// moment). NUMBER is 0 to 4,294,967,295, JOBS 1 to 100 and PODS 1 to 20. A number is `0`, or digits that do not begin
/// with 0.
#[tactic(auto, unfolding(crate::specs::Words::order_of))]
pub fn read_words(words: &[String]) -> Option<Order>
    ensures { result ≡ order_of (map string_bytes words.now) }
{
    let (verb, rest) = words.split_first()?;
    match verb.as_str() {
        "run" => run_order(rest),
        "reap" => Some(Order::Reap {
            shape: shape_asked(rest)?,
        }),
        "audit" => Some(Order::Audit {
            shape: shape_asked(rest)?,
        }),
        "generate" => generate_order(rest),
        _ => None,
    }
}
