//! Which lines take no memory, and are short whatever their numbers are.

ghost use Rattle.std.specs.Prelude.{◌≡◌};
ghost use Rattle.jc_log.specs.Deeds.{act_of_event, deed};
ghost use Rattle.jc_verdicts.specs.Verdicts.{IsPlace};
ghost use Rattle.jc_texts.specs.Short.{is_short, is_short_act};

use jc_texts::{is_short_action, is_short_reply};
use jc_types::{Event, Past, Script};

// Whether so is the text of what the event does.
#[inline(always)]
fn is_short_event(script: &Script, event: &Event) -> bool
    requires { IsPlace script.now.commands event.now }
    ensures { result ≡ is_short_act (act_of_event script.now.commands event.now) }
{
    match event {
        Event::System(_) => true,
        Event::Command { number, .. } => {
            is_short_action(&script.commands.as_slice()[*number as usize].action)
        }
    }
}

/// Whether the line of the event takes no memory, and is short whatever its numbers are: it has no JSON, no moment, no name
/// of a container, and no key but a short one.
#[inline(always)]
pub fn is_short(script: &Script, past: &Past) -> bool
    requires { IsPlace script.now.commands past.now.event }
    ensures { result ≡ is_short (deed script.now past.now) }
{
    is_short_event(script, &past.event) && is_short_reply(&past.reply)
}
