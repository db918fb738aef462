//! The event that is kept, with its reply, once all else has changed.

ghost use Rattle.std.specs.Prelude.{◌≡◌, ◌<◌, ◌^◌, ◌∷◌, ◌++◌, [], length};
ghost use Rattle.jc_runs.specs.TextlessReplies.{HasNoText};
ghost use Rattle.jc_lanes.specs.Places.{MovesOn};
ghost use Rattle.jc_team.specs.RepliesAgain.{IsReplyText};

use jc_lanes::Lanes;
use jc_team::{ReplyText, Told};
use jc_types::{Event, Past, Pasts, Reply, Script, Version};

// Keeps the event with its reply, in the room that there is, goes on in its lane, and gives the reply's text. It
// takes no memory.
pub(crate) fn record_told(
    history: &mut Pasts,
    lanes: &mut Lanes,
    script: &Script,
    event: Event,
    told: Told,
    end: Version,
) -> ReplyText
    requires room { 0 < history.old.room }
    requires fits { length script.now.commands < 2 ^ 32 }
    ensures kept { history.new.items
        ≡ history.old.items ++ record { event = event; reply = told; length = end } ∷ [] }
    ensures lanes { MovesOn script.now.commands event lanes.old lanes.new }
    ensures text { IsReplyText told result }
{
    let (reply, text) = told.into_parts();
    lanes.advance(script.commands.as_slice(), &event);
    history.push_reserved(Past {
        event,
        reply,
        length: end,
    });
    text
}

// Keeps the event with its reply, which has no text. It takes no memory.
pub(crate) fn record(
    history: &mut Pasts,
    lanes: &mut Lanes,
    script: &Script,
    event: Event,
    reply: Reply,
    end: Version,
) -> ReplyText
    requires room { 0 < history.old.room }
    requires fits { length script.now.commands < 2 ^ 32 }
    requires no_text { HasNoText reply }
    ensures kept { history.new.items
        ≡ history.old.items ++ record { event = event; reply = reply; length = end } ∷ [] }
    ensures lanes { MovesOn script.now.commands event lanes.old lanes.new }
    ensures text { IsReplyText reply result }
{
    record_told(history, lanes, script, event, Told::of(reply), end)
}
