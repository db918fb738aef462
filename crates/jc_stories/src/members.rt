//! What is read of the members of a JSON object, and which changes of a specification are refused.

use jc_json::{
    FieldFault, Trail, is_written, need_number, need_text, new_room, read_line, read_owned,
};
use jc_manifest::{UpdateFault, check_update, read_job};
use jc_types::{Field, SpecChange};
use std::alloc::{AllocError, Global};

// The refusal and its path.
fn refused(alloc: Global, fault: FieldFault) -> Result<String, AllocError> {
    match fault {
        FieldFault::Missing { path } => format!(in alloc; "missing {}", path.as_str()),
        FieldFault::WrongType { path } => format!(in alloc; "wrong type {}", path.as_str()),
        FieldFault::OutOfRange { path } => format!(in alloc; "out of range {}", path.as_str()),
        FieldFault::Want => Err(AllocError),
    }
}

/// The text of the member of the first word, of the object behind it. A `-` is the empty name.
///
/// # Errors
/// `AllocError` where there is no memory.
pub fn text(alloc: Global, text: &str) -> Result<String, AllocError> {
    let (name, line) = text.split_once(' ').unwrap_or((text, ""));
    let name = if name == "-" { "" } else { name };
    let mut room = new_room(alloc);
    let Ok(value) = read_line(line.as_bytes(), &mut room) else {
        return String::from_str(alloc, "not JSON");
    };
    match need_text(alloc, &value, &Trail::new(alloc), name) {
        Ok(text) => String::from_str(alloc, text),
        Err(fault) => refused(alloc, fault),
    }
}

/// The whole number of the member `n` between the first two words, of the object behind them.
///
/// # Errors
/// `AllocError` where there is no memory.
pub fn number(alloc: Global, text: &str) -> Result<String, AllocError> {
    let (least, rest) = text.split_once(' ').unwrap_or((text, ""));
    let (greatest, line) = rest.split_once(' ').unwrap_or((rest, ""));
    let (Ok(least), Ok(greatest)) = (least.parse::<i64>(), greatest.parse::<i64>()) else {
        return String::from_str(alloc, "two numbers");
    };
    let mut room = new_room(alloc);
    let Ok(value) = read_line(line.as_bytes(), &mut room) else {
        return String::from_str(alloc, "not JSON");
    };
    match need_number(alloc, &value, &Trail::new(alloc), "n", least, greatest) {
        Ok(number) => format!(in alloc; "{number}"),
        Err(fault) => refused(alloc, fault),
    }
}

/// Whether the JSON behind the first word is, written without blanks and with its members in byte order, that word.
///
/// # Errors
/// `AllocError` where there is no memory.
pub fn written(alloc: Global, text: &str) -> Result<String, AllocError> {
    let (form, line) = text.split_once(' ').unwrap_or((text, ""));
    let Ok(value) = read_owned(alloc, line.as_bytes()) else {
        return String::from_str(alloc, "not JSON");
    };
    let same = is_written(alloc, &value, form)?;
    format!(in alloc; "{same}")
}

// The number of the word, or none.
fn given(word: Option<&&str>) -> Option<u32> {
    match word {
        Some(word) => word.parse().ok(),
        None => None,
    }
}

// The change of these words: parallelism, completions, deadline and backoff limit, where they are numbers.
fn change(words: &[&str]) -> SpecChange {
    SpecChange {
        parallelism: given(words.get(0)),
        completions: given(words.get(1)),
        suspend: None,
        deadline: given(words.get(2)),
        backoff_limit: given(words.get(3)),
    }
}

// The name of the member.
fn field(field: Field) -> &'static str {
    match field {
        Field::Completions => "completions",
        Field::Parallelism => "parallelism",
        Field::BackoffLimit => "backoffLimit",
        Field::Deadline => "activeDeadlineSeconds",
    }
}

/// How the change of the first four words is refused, of the manifest behind them.
///
/// # Errors
/// `AllocError` where there is no memory.
pub fn update(alloc: Global, text: &str) -> Result<String, AllocError> {
    let words: Vec<&str> = text.split_whitespace().collect(alloc)?;
    let line = words.get(4).unwrap_or(&"");
    let mut room = new_room(alloc);
    let Ok(value) = read_line(line.as_bytes(), &mut room) else {
        return String::from_str(alloc, "not JSON");
    };
    let Ok((_, old)) = read_job(alloc, &value, &Trail::new(alloc)) else {
        return String::from_str(alloc, "no manifest");
    };
    match check_update(&old, &change(&words)) {
        None => String::from_str(alloc, "allowed"),
        Some(UpdateFault::Immutable { field: name }) => format!(in alloc;
            "immutable {}",
            field(name)
        ),
        Some(UpdateFault::Invalid { field: name }) => format!(in alloc; "invalid {}", field(name)),
    }
}
