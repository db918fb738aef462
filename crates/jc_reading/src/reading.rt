//! What the line of an event says: its number, its tag and its act, read back from the words.

ghost use Rattle.std.specs.Prelude.{◌≡◌, IfOk};
ghost use Rattle.serde_json.specs.View.{view};
ghost use Rattle.jc_reading.specs.LineReadings.{number_below, digits_from, fault_said, kind_said, digits_said, pod_said, tag_said, verb_named, verb_said, version_printed};

use jc_types::{Fault, Kind, Uid, Version};

/// The number of 64 bits that decimal digits spell; zeros may stand in front of it.
#[tactic(auto, unfolding(crate::specs::LineReadings::digits_said))]
pub fn read_number(word: &[u8]) -> Option<u64>
    ensures { result ≡ digits_said word.now }
{
    let mut number: u64 = 0;
    for i in 0..word.len() {
        let byte = word[i];
        if !byte.is_ascii_digit() {
            return None;
        }
        let digit = u64::from(byte - 48);
        number = number.checked_mul(10)?.checked_add(digit)?;
    }
    Some(number)
}

/// A number below the bound.
pub fn number_below(word: &[u8], bound: u64) -> Option<u64>
    ensures { result ≡ number_below word.now bound }
{
    let number = read_number(word)?;
    if number < bound { Some(number) } else { None }
}

/// A pod by its number.
pub fn read_pod(word: &[u8]) -> Option<Uid>
    ensures { result ≡ pod_said word.now }
{
    let number = number_below(word, 4_294_967_296)?;
    if 0 < number {
        Some(Uid(number as u32))
    } else {
        None
    }
}

/// The version that an update wants, or that any will do.
pub fn read_printed_version(word: &[u8]) -> Option<Option<Version>>
    ensures { result ≡ version_printed word.now }
{
    match word {
        b"any" => Some(None),
        [b'v', digits @ ..] => Some(Some(Version(number_below(digits, 4_294_967_296)? as u32))),
        _ => None,
    }
}

/// The lane of a command, or that the event is one of the system.
pub fn read_tag(word: &[u8]) -> Option<Option<u8>>
    ensures { result ≡ tag_said word.now }
{
    match word {
        b"-" => Some(None),
        [b'@', digits @ ..] => Some(Some(number_below(digits, 16)? as u8)),
        _ => None,
    }
}

/// The kind of objects that a word names.
pub fn read_kind(word: &[u8]) -> Option<Kind>
    ensures { result ≡ kind_said word.now }
{
    match word {
        b"jobs" => Some(Kind::Jobs),
        b"pods" => Some(Kind::Pods),
        _ => None,
    }
}

/// The fault that a word names.
pub fn read_fault(word: &[u8]) -> Option<Fault>
    ensures { result ≡ fault_said word.now }
{
    match word {
        b"drop" => Some(Fault::Drop),
        b"lose" => Some(Fault::Lose),
        _ => None,
    }
}

/// What kind of act a line begins with.
#[derive(Clone, Copy)]
pub enum Verb {
    Create,
    Update,
    Delete,
    Mark,
    Strip,
    Finish,
    Report,
    Fate,
    Clock,
    List,
    Deliver,
    Begin,
    Step,
    Node,
    Restart,
    Fault,
    Settle,
}

// The verb of that text.
fn verb_named(text: &str) -> Option<Verb>
    ensures { result ≡ verb_named text.now }
{
    match text {
        "create" => Some(Verb::Create),
        "update" => Some(Verb::Update),
        "delete" => Some(Verb::Delete),
        "mark" => Some(Verb::Mark),
        "strip" => Some(Verb::Strip),
        "finish" => Some(Verb::Finish),
        "report" => Some(Verb::Report),
        "fate" => Some(Verb::Fate),
        "clock" => Some(Verb::Clock),
        "list" => Some(Verb::List),
        "deliver" => Some(Verb::Deliver),
        "begin" => Some(Verb::Begin),
        "step" => Some(Verb::Step),
        "node" => Some(Verb::Node),
        "restart" => Some(Verb::Restart),
        "fault" => Some(Verb::Fault),
        "settled" => Some(Verb::Settle),
        _ => None,
    }
}

/// The verb that a word names, where it is text.
#[tactic(auto, unfolding(crate::specs::LineReadings::verb_said))]
pub fn read_verb(word: &[u8]) -> Option<Verb>
    ensures { result ≡ verb_said word.now }
{
    match str::from_utf8(word) {
        Ok(text) => verb_named(text),
        Err(_) => None,
    }
}
