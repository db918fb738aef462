//! The texts of keys, of versions and of pods. Fixed words come with the blank behind them, in one piece.

ghost use Rattle.std.specs.Prelude.{◌≡◌, ◌+◌, ◌++◌, OnOk, decimal, length, string_bytes};
ghost use Rattle.jc_print.specs.Puts.{PutsAtMost};
ghost use Rattle.jc_texts.specs.ReportWords.{key_text};

use jc_print::put_long;
use jc_types::{Key, Uid, Version, Want};

/// Puts a key behind the text, as `default/pi`.
///
/// # Errors
///
/// Want of memory.
pub fn print_key(out: &mut String, key: &Key) -> Result<(), Want>
    ensures text { OnOk result (string_bytes out.new ≡ string_bytes out.old ++ key_text key.now) }
    ensures most { PutsAtMost (length (key_text key.now)) out.old out.new result }
{
    out.push_str(key.namespace.as_str())?;
    out.push_str("/")?;
    out.push_str(key.name.as_str())?;
    Ok(())
}

/// Puts words behind the text that end in the `v` of a version, and the version's number.
///
/// # Errors
///
/// Want of memory.
pub fn print_version(out: &mut String, words: &str, version: Version) -> Result<(), Want>
    ensures text { OnOk result (string_bytes out.new
        ≡ string_bytes out.old ++ (words.now ++ decimal version.0)) }
    ensures most { PutsAtMost (length words.now + 40) out.old out.new result }
{
    out.push_str(words)?;
    put_long(out, u64::from(version.0))
}

/// Puts words behind the text, and the pod that they are said of.
///
/// # Errors
///
/// Want of memory.
pub fn print_pod(out: &mut String, words: &str, pod: Uid) -> Result<(), Want>
    ensures text { OnOk result (string_bytes out.new
        ≡ string_bytes out.old ++ (words.now ++ decimal pod.0)) }
    ensures most { PutsAtMost (length words.now + 40) out.old out.new result }
{
    out.push_str(words)?;
    put_long(out, u64::from(pod.0))
}
