//! Generated scripts, printed as if each command was done.

use jc_gen::generate;
use jc_lines::print_event;
use jc_types::{Event, Past, Reply, Script, Version};
use std::alloc::{AllocError, Global};

// The line of the script's command of that number, which is done; none where there is no such command.
fn line(alloc: Global, out: &mut String, script: &Script, number: u32) -> Result<(), AllocError> {
    if number as usize >= script.commands.len() {
        return Ok(());
    }
    let past = Past {
        event: Event::Command { lane: 0, number },
        reply: Reply::Done,
        length: Version(1),
    };
    print_event(out, alloc, script, u64::from(number) + 1, &past)
}

/// The lines of the first ten commands of the generated script of three numbers: the number that it comes from, its Jobs and
/// the completions of each.
///
/// # Errors
/// `AllocError` where there is no memory.
pub fn generated(alloc: Global, text: &str) -> Result<String, AllocError> {
    let words: Vec<&str> = text.split_whitespace().collect(alloc)?;
    let mut numbers = Vec::new(alloc);
    for word in &words {
        numbers.push(word.parse::<u32>().unwrap_or(0))?;
    }
    let [number, jobs, pods] = numbers.as_slice() else {
        return String::from_str(alloc, "three numbers");
    };
    if *jobs < 1 || *jobs > 100 || *pods < 1 || *pods > 20 {
        return String::from_str(alloc, "no such sizes");
    }
    let script = generate(alloc, *number, *jobs, *pods)?;
    let mut out = String::from_str(alloc, "\n")?;
    for number in 0..10u32 {
        line(alloc, &mut out, &script, number)?;
    }
    Ok(out)
}
