//! A reply beside its text, and replies once more.

ghost use Rattle.std.specs.Prelude.{◌≡◌};
ghost use Rattle.jc_runs.specs.TextlessReplies.{AnswersNoText, HasNoText};
ghost use Rattle.jc_team.specs.RepliesAgain.{IsReplyText};

use jc_types::{Answer, Key, Name, Reply};
use std::marker::Model;

/// The text of a reply, once more: with it the reply is given again, and takes no memory.
#[derive(Drop)]
pub enum ReplyText {
    /// It has none.
    None,
    /// The key of a sync that began.
    Key(Key),
    /// The name of a container that is not there.
    Name(Name),
}

/// The reply to an event, and its text once more: the reply is kept, and can be given again.
#[derive(Drop)]
pub struct Told {
    reply: Reply,
    text: ReplyText,
}

impl Model for Told {
    ghost use Rattle.jc_types.specs.declared.replies.Reply.{Reply};
    ghost use Rattle.jc_team.specs.RepliesAgain.{IsReplyText};

    ghost Value = { Reply };

    ghost view = { λ t. t.reply };

    ghost invariant = { λ t. IsReplyText t.reply t.text };
}

impl Told {
    /// A reply that has no text. It takes no memory.
    pub fn of(reply: Reply) -> Told
        requires { HasNoText reply }
        ensures { result ≡ reply }
    {
        Told {
            reply,
            text: ReplyText::None,
        }
    }

    /// A reply with its text.
    pub fn with(reply: Reply, text: ReplyText) -> Told
        requires its_own { IsReplyText reply text }
        ensures { result ≡ reply }
    {
        Told { reply, text }
    }

    /// The reply, and its text once more.
    pub fn into_parts(self) -> (Reply, ReplyText)
        ensures reply { result.0 ≡ self }
        ensures text { IsReplyText self result.1 }
    {
        (self.reply, self.text)
    }
}

// A value of an enum once more. The first variants hold texts, and do not come. Each other one
// is listed with its fields.
macro_rules! again_variant {
    ($value:expr, $name:ident { $($text:ident)* } { $($variant:ident { $($field:ident),* },)* }) => {
        match $value {
            $($name::$text { .. } => unreachable!(),)*
            $($name::$variant { $($field),* } => $name::$variant { $($field: *$field),* },)*
        }
    };
}

// The answer once more. It takes no memory.
fn answer_again(answer: &Answer) -> Answer
    requires { AnswersNoText answer.now }
    ensures { result ≡ answer.now }
{
    again_variant!(answer, Answer { NoContainer } {
        Created { uid, version },
        Written { version },
        Unchanged { version },
        Released { version },
        Removed { version },
        Conflict { current },
        NotFound {},
        AlreadyExists {},
        Immutable { field },
        Invalid { field },
        Final { phase },
        BadStep { from, to },
        NotTracked {},
        Unavailable {},
    })
}

// A reply without a text once more. It takes no memory.
fn textless_again(reply: &Reply) -> Reply
    requires { HasNoText reply.now }
    ensures { result ≡ reply.now }
{
    if let Reply::Stepped { request, answer } = reply {
        return Reply::Stepped {
            request: *request,
            answer: answer_again(answer),
        };
    }
    again_variant!(reply, Reply { Stepped NoContainer Begun } {
        Created { uid, version },
        Written { version },
        Unchanged { version },
        Released { version },
        Removed { version },
        Conflict { current },
        NotFound {},
        AlreadyExists {},
        Immutable { field },
        Invalid { field },
        Final { phase },
        BadStep { from, to },
        NotTracked {},
        Now { moment },
        ClockEnd {},
        Listed { at },
        Delivered { version },
        UpToDate {},
        Expired { floor },
        NotSynced {},
        NoKey {},
        Behind { kind, need, have },
        WorkerBusy {},
        Ended {},
        Idle {},
        NodeDone { pod, phase, version },
        Done {},
    })
}

// The reply to the begin of a sync once more, with its key.
fn begun_again(reply: &Reply, key: Key) -> Reply
    requires { IsReplyText reply.now (ReplyText.Key key) }
    ensures { result ≡ reply.now }
{
    let Reply::Begun {
        jobs_at,
        pods_at,
        ..
    } = reply
    else {
        unreachable!()
    };
    Reply::Begun {
        key,
        jobs_at: *jobs_at,
        pods_at: *pods_at,
    }
}

// The reply that there is no such container once more, with its name.
fn no_container_again(reply: &Reply, name: Name) -> Reply
    requires { IsReplyText reply.now (ReplyText.Name name) }
    ensures { result ≡ reply.now }
{
    let Reply::NoContainer { .. } = reply else {
        unreachable!()
    };
    Reply::NoContainer { name }
}

/// The reply once more, with its text. It takes no memory.
pub fn again(reply: &Reply, text: ReplyText) -> Reply
    requires { IsReplyText reply.now text }
    ensures { result ≡ reply.now }
{
    match text {
        ReplyText::None => textless_again(reply),
        ReplyText::Key(key) => begun_again(reply, key),
        ReplyText::Name(name) => no_container_again(reply, name),
    }
}
