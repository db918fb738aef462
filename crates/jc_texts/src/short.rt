//! Which texts take no memory, and are short whatever their numbers are.

ghost use Rattle.std.specs.Prelude.{◌≡◌};
ghost use Rattle.jc_log.specs.Deeds.{act_of_action};
ghost use Rattle.jc_texts.specs.Short.{is_short_act, is_short_answer, is_short_key, is_short_reply};

use jc_types::{Action1, Answer, Key, Reply};

// Whether the names of the key are short.
fn is_short_key(key: &Key) -> bool
    ensures { result ≡ is_short_key key.now }
{
    key.namespace.as_str().len() + key.name.as_str().len() < 300
}

/// Whether the text of what the command does has no JSON, and names no key but a short one.
pub fn is_short_action(action: &Action1) -> bool
    ensures { result ≡ is_short_act (act_of_action action.now) }
{
    match action {
        Action1::Create { .. }
        | Action1::Update { .. }
        | Action1::Report { .. }
        | Action1::Fate { .. } => false,
        Action1::Delete { key } => is_short_key(key),
        _ => true,
    }
}

// Whether the answer names no container.
fn is_short_answer(answer: &Answer) -> bool
    ensures { result ≡ is_short_answer answer.now }
{
    !matches!(answer, Answer::NoContainer { .. })
}

/// Whether the reply names no container, no key but a short one, and no moment.
#[inline(always)]
pub fn is_short_reply(reply: &Reply) -> bool
    ensures { result ≡ is_short_reply reply.now }
{
    match reply {
        Reply::NoContainer { .. } | Reply::Now { .. } => false,
        Reply::Begun { key, .. } => is_short_key(key),
        Reply::Stepped { answer, .. } => is_short_answer(answer),
        _ => true,
    }
}
