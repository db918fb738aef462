//! Texts that go out by pages: they are put behind each other on one, and where that has no room for more it is written.

ghost use Rattle.std.specs.Prelude.{◌≡◌, ◌+◌, ◌-◌, ◌≤◌, ◌++◌, [], OnErr, OnOk, drop, length, string_bytes, take, true};
ghost use Rattle.std.specs.Io.KnownBytes.{Appends};
ghost use Rattle.std.specs.String.{string_capacity, string_len};
ghost use Rattle.jc_io.specs.Faults.{HasCause};
ghost use Rattle.jc_io.specs.Moved.{AppendsFront};
ghost use Rattle.jc_log.specs.Deeds.{deed};
ghost use Rattle.jc_verdicts.specs.Verdicts.{IsPlace};
ghost use Rattle.jc_lines.specs.Events.{event_line};
ghost use Rattle.jc_lines.specs.LongLines.{page_len};
ghost use Rattle.jc_lines.specs.Short.{is_short};
ghost use Rattle.jc_report.specs.Sent.{Sends};

use jc_io::{Sink, WriteFault, write_part};
use jc_lines::put_short_event;
use jc_types::{Past, Script};

// The most bytes of a short line.
const SHORT_LEN: usize = 1100;

/// Writes what stands on the page.
///
/// # Errors
///
/// As `write_part`.
pub(crate) fn write_page<K: Sink>(page: &mut String, sink: &mut K) -> Result<(), WriteFault>
    ensures all { OnOk result
        (Appends (K.held sink.old) (K.held sink.new) (string_bytes page.old)) }
    ensures blank { OnOk result (string_bytes page.new ≡ []) }
    ensures empty { OnOk result (string_len page.new ≡ 0) }
    ensures room { string_capacity page.new ≡ string_capacity page.old }
    ensures front { OnErr result
        (AppendsFront (K.held sink.old) (K.held sink.new) (string_bytes page.old)) }
    ensures fault { HasCause (K.faults sink.old) (K.faults sink.new) result }
    ensures later { K.faults sink.old ≤ K.faults sink.new }
    ensures not_finished { K.finished sink.new ≡ K.finished sink.old }
{
    write_part(sink, page.as_bytes())?;
    page.clear();
    Ok(())
}

// Has the page have room for so many bytes: where it has none, it is written.
fn make_room<K: Sink>(page: &mut String, room: usize, sink: &mut K) -> Result<(), WriteFault>
    requires fits { room ≤ string_capacity page.old }
    ensures sends { OnOk result (Sends (K.held sink.old) (string_bytes page.old)
        (K.held sink.new) (string_bytes page.new) []) }
    ensures made { OnOk result (string_len page.new + room ≤ string_capacity page.new) }
    ensures room { string_capacity page.new ≡ string_capacity page.old }
    ensures front { OnErr result
        (AppendsFront (K.held sink.old) (K.held sink.new) (string_bytes page.old)) }
    ensures fault { HasCause (K.faults sink.old) (K.faults sink.new) result }
    ensures later { K.faults sink.old ≤ K.faults sink.new }
    ensures not_finished { K.finished sink.new ≡ K.finished sink.old }
{
    if page.capacity() - page.len() >= room {
        return Ok(());
    }
    write_page(page, sink)
}

/// Puts the line of an event on the page, where it is short.
///
/// # Errors
///
/// As `write_part`.
pub(crate) fn send_short<K: Sink>(
    script: &Script,
    number: u64,
    past: &Past,
    page: &mut String,
    sink: &mut K,
) -> Result<(), WriteFault>
    requires place { IsPlace script.now.commands past.now.event }
    requires short { is_short (deed script.now past.now) ≡ true }
    requires room { page_len ≤ string_capacity page.old }
    ensures sends { OnOk result (Sends (K.held sink.old) (string_bytes page.old)
        (K.held sink.new) (string_bytes page.new) (event_line number (deed script.now past.now))) }
    ensures room { OnOk result (page_len ≤ string_capacity page.new) }
    ensures front { OnErr result (AppendsFront (K.held sink.old) (K.held sink.new)
        (string_bytes page.old ++ event_line number (deed script.now past.now))) }
    ensures fault { HasCause (K.faults sink.old) (K.faults sink.new) result }
    ensures later { K.faults sink.old ≤ K.faults sink.new }
    ensures not_finished { K.finished sink.new ≡ K.finished sink.old }
{
    make_room(page, SHORT_LEN, sink)?;
    match put_short_event(page, script, number, past) {
        Ok(()) => Ok(()),
        Err(_) => unreachable!(),
    }
}

// Writes the page, and bytes for which no page is needed.
fn send_bytes<K: Sink>(bytes: &[u8], page: &mut String, sink: &mut K) -> Result<(), WriteFault>
    ensures sends { OnOk result (Sends (K.held sink.old) (string_bytes page.old)
        (K.held sink.new) (string_bytes page.new) bytes.now) }
    ensures room { string_capacity page.new ≡ string_capacity page.old }
    ensures front { OnErr result (AppendsFront (K.held sink.old) (K.held sink.new)
        (string_bytes page.old ++ bytes.now)) }
    ensures fault { HasCause (K.faults sink.old) (K.faults sink.new) result }
    ensures later { K.faults sink.old ≤ K.faults sink.new }
    ensures not_finished { K.finished sink.new ≡ K.finished sink.old }
{
    write_page(page, sink)?;
    write_part(sink, bytes)?;
    Ok(())
}

// Puts a text on the page that has room for it.
fn put_text<K: Sink>(text: &str, page: &mut String, sink: &mut K) -> Result<(), WriteFault>
    requires fits { length text.now ≤ string_capacity page.old }
    ensures sends { OnOk result (Sends (K.held sink.old) (string_bytes page.old)
        (K.held sink.new) (string_bytes page.new) text.now) }
    ensures room { string_capacity page.old ≤ string_capacity page.new }
    ensures front { OnErr result (AppendsFront (K.held sink.old) (K.held sink.new)
        (string_bytes page.old ++ text.now)) }
    ensures fault { HasCause (K.faults sink.old) (K.faults sink.new) result }
    ensures later { K.faults sink.old ≤ K.faults sink.new }
    ensures not_finished { K.finished sink.new ≡ K.finished sink.old }
{
    make_room(page, text.len(), sink)?;
    match page.push_str(text) {
        Ok(()) => Ok(()),
        Err(_) => unreachable!(),
    }
}

/// Puts a text on the page, or writes both, where a page has no room for it.
///
/// # Errors
///
/// As `write_part`.
pub(crate) fn send_text<K: Sink>(
    text: &str,
    page: &mut String,
    sink: &mut K,
) -> Result<(), WriteFault>
    ensures sends { OnOk result (Sends (K.held sink.old) (string_bytes page.old)
        (K.held sink.new) (string_bytes page.new) text.now) }
    ensures room { string_capacity page.old ≤ string_capacity page.new }
    ensures front { OnErr result (AppendsFront (K.held sink.old) (K.held sink.new)
        (string_bytes page.old ++ text.now)) }
    ensures fault { HasCause (K.faults sink.old) (K.faults sink.new) result }
    ensures later { K.faults sink.old ≤ K.faults sink.new }
    ensures not_finished { K.finished sink.new ≡ K.finished sink.old }
{
    if text.len() <= page.capacity() {
        return put_text(text, page, sink);
    }
    send_bytes(text.as_bytes(), page, sink)
}

/// Puts a piece of a text on the page. That it begins and ends between characters is asked, as bytes go out in any case.
///
/// # Errors
///
/// As `write_part`.
pub(crate) fn send_piece<K: Sink>(
    text: &str,
    from: usize,
    to: usize,
    page: &mut String,
    sink: &mut K,
) -> Result<(), WriteFault>
    requires order { from ≤ to }
    requires within { to ≤ length text.now }
    ensures sends { OnOk result (Sends (K.held sink.old) (string_bytes page.old)
        (K.held sink.new) (string_bytes page.new) (take (to - from) (drop from text.now))) }
    ensures room { string_capacity page.old ≤ string_capacity page.new }
    ensures front { OnErr result (AppendsFront (K.held sink.old) (K.held sink.new)
        (string_bytes page.old ++ take (to - from) (drop from text.now))) }
    ensures fault { HasCause (K.faults sink.old) (K.faults sink.new) result }
    ensures later { K.faults sink.old ≤ K.faults sink.new }
    ensures not_finished { K.finished sink.new ≡ K.finished sink.old }
{
    if text.is_char_boundary(from) && text.is_char_boundary(to) {
        return send_text(&text[from..to], page, sink);
    }
    send_bytes(&text.as_bytes()[from..to], page, sink)
}
