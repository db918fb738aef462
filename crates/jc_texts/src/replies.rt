//! The texts of requests, of answers and of replies.

ghost use Rattle.std.specs.Prelude.{◌≡◌, ◌+◌, ◌++◌, OnOk, codes, decimal, length, string_bytes, false, true};
ghost use Rattle.jc_types.specs.declared.replies.Answer.TheVariants as answer;
ghost use Rattle.jc_types.specs.declared.replies.Reply.TheVariants as reply;
ghost use Rattle.jc_types.specs.declared.replies.Request.TheVariants as request;
ghost use Rattle.jc_print.specs.Puts.{PutsAtMost};
ghost use Rattle.jc_texts.specs.Short.{is_short_answer, is_short_reply};
ghost use Rattle.jc_texts.specs.ReplyTexts.{TellsThree, answer_text, index_text, reply_text, request_text};
ghost use Rattle.jc_texts.specs.ReportWords.{key_text, phase_word};

use crate::keys::{print_key, print_pod, print_version};
use crate::short::is_short_reply;
use crate::words::{field_word, objects_word, phase_word};
use jc_moment::Moment;
use jc_print::{put_decimal, put_long};
use jc_types::{Answer, Key, Kind, Name, Phase, Reply, Request, Uid, Version, Want};
use std::alloc::Global;

// A word.
fn print_word(out: &mut String, word: &str) -> Result<(), Want>
    ensures text { OnOk result (string_bytes out.new ≡ string_bytes out.old ++ word.now) }
    ensures most { PutsAtMost (length word.now) out.old out.new result }
{
    out.push_str(word)
}

// Words and what they are said of.
fn print_pair(out: &mut String, words: &str, of: &str) -> Result<(), Want>
    ensures text { OnOk result (string_bytes out.new ≡ string_bytes out.old ++ (words.now ++ of.now)) }
    ensures most { PutsAtMost (length words.now + length of.now) out.old out.new result }
{
    out.push_str(words)?;
    out.push_str(of)
}

fn print_created(out: &mut String, uid: Uid, version: Version) -> Result<(), Want>
    ensures text { OnOk result (string_bytes out.new
        ≡ string_bytes out.old ++ answer_text (answer.Created uid version)) }
    ensures most { PutsAtMost 100 out.old out.new result }
{
    out.push_str("created ")?;
    put_long(out, u64::from(uid.0))?;
    out.push_str(" v")?;
    put_long(out, u64::from(version.0))
}

fn print_bad_step(out: &mut String, from: Phase, to: Phase) -> Result<(), Want>
    ensures text { OnOk result (string_bytes out.new
        ≡ string_bytes out.old ++ answer_text (answer.BadStep from to)) }
    ensures most { PutsAtMost 100 out.old out.new result }
{
    print_pair(out, "bad-step ", phase_word(from))?;
    out.push_str(" ")?;
    out.push_str(phase_word(to))
}

fn print_no_container(out: &mut String, name: &Name) -> Result<(), Want>
    ensures { OnOk result (string_bytes out.new
        ≡ string_bytes out.old ++ answer_text (answer.NoContainer name.now)) }
{
    print_pair(out, "no-container ", name.as_str())
}

fn print_moment(out: &mut String, alloc: Global, moment: Moment) -> Result<(), Want>
    ensures { OnOk result (string_bytes out.new
        ≡ string_bytes out.old ++ reply_text (reply.Now moment)) }
{
    let text = moment.text(alloc)?;
    out.push_str("now ")?;
    out.push_str(text.as_str())?;
    Ok(())
}

fn print_begun(out: &mut String, key: &Key, jobs_at: Version, pods_at: Version) -> Result<(), Want>
    ensures text { OnOk result (string_bytes out.new
        ≡ string_bytes out.old ++ reply_text (reply.Begun key.now jobs_at pods_at)) }
    ensures most { PutsAtMost (length (key_text key.now) + 100) out.old out.new result }
{
    out.push_str("begun ")?;
    print_key(out, key)?;
    out.push_str(" jobs v")?;
    put_long(out, u64::from(jobs_at.0))?;
    out.push_str(" pods v")?;
    put_long(out, u64::from(pods_at.0))
}

fn print_behind(out: &mut String, kind: Kind, need: Version, have: Version) -> Result<(), Want>
    ensures text { OnOk result (string_bytes out.new
        ≡ string_bytes out.old ++ reply_text (reply.Behind kind need have)) }
    ensures most { PutsAtMost 200 out.old out.new result }
{
    print_pair(out, "behind ", objects_word(kind))?;
    print_version(out, " need v", need)?;
    print_version(out, " have v", have)
}

// The phase of a pod that was written, with the words around it.
fn print_phase(out: &mut String, phase: Phase) -> Result<(), Want>
    ensures text { OnOk result (string_bytes out.new
        ≡ string_bytes out.old ++ (codes " " ++ (phase_word phase ++ codes " written v"))) }
    ensures most { PutsAtMost 40 out.old out.new result }
{
    match phase {
        Phase::Pending => out.push_str(" Pending written v"),
        Phase::Running => out.push_str(" Running written v"),
        Phase::Succeeded => out.push_str(" Succeeded written v"),
        Phase::Failed => out.push_str(" Failed written v"),
    }
}

fn print_node(out: &mut String, pod: Uid, phase: Phase, version: Version) -> Result<(), Want>
    ensures text { OnOk result (string_bytes out.new
        ≡ string_bytes out.old ++ reply_text (reply.NodeDone pod phase version)) }
    ensures most { PutsAtMost 150 out.old out.new result }
{
    out.push_str("pod ")?;
    put_long(out, u64::from(pod.0))?;
    print_phase(out, phase)?;
    put_long(out, u64::from(version.0))
}

// Of words that are known where they are put the bytes are written with no call: so it is with those that come often.
fn print_delivered(out: &mut String, version: Version) -> Result<(), Want>
    ensures text { OnOk result (string_bytes out.new
        ≡ string_bytes out.old ++ reply_text (reply.Delivered version)) }
    ensures most { PutsAtMost 60 out.old out.new result }
{
    out.push_str("entry v")?;
    put_long(out, u64::from(version.0))
}

fn print_written(out: &mut String, version: Version) -> Result<(), Want>
    ensures text { OnOk result (string_bytes out.new
        ≡ string_bytes out.old ++ answer_text (answer.Written version)) }
    ensures most { PutsAtMost 60 out.old out.new result }
{
    out.push_str("written v")?;
    put_long(out, u64::from(version.0))
}

fn print_released(out: &mut String, version: Version) -> Result<(), Want>
    ensures text { OnOk result (string_bytes out.new
        ≡ string_bytes out.old ++ answer_text (answer.Released version)) }
    ensures most { PutsAtMost 60 out.old out.new result }
{
    out.push_str("released v")?;
    put_long(out, u64::from(version.0))
}

// A short reply that tells of three things.
fn print_three(out: &mut String, reply: &Reply) -> Result<(), Want>
    requires three { TellsThree reply.now }
    requires short { is_short_reply reply.now ≡ true }
    ensures text { OnOk result (string_bytes out.new
        ≡ string_bytes out.old ++ reply_text reply.now) }
    ensures most { PutsAtMost 500 out.old out.new result }
{
    match reply {
        Reply::Begun {
            key,
            jobs_at,
            pods_at,
        } => print_begun(out, key, *jobs_at, *pods_at),
        Reply::Behind { kind, need, have } => print_behind(out, *kind, *need, *have),
        Reply::NodeDone {
            pod,
            phase,
            version,
        } => print_node(out, *pod, *phase, *version),
        _ => unreachable!(),
    }
}

// The index of a pod, or a dash where it has none.
fn print_index(out: &mut String, index: Option<u32>) -> Result<(), Want>
    ensures text { OnOk result (string_bytes out.new ≡ string_bytes out.old ++ index_text index) }
    ensures most { PutsAtMost 40 out.old out.new result }
{
    match index {
        None => out.push_str("-"),
        Some(index) => put_decimal(out, index),
    }
}

// Words and the index that they are said of.
fn print_indexed(out: &mut String, words: &str, index: Option<u32>) -> Result<(), Want>
    ensures text { OnOk result (string_bytes out.new
        ≡ string_bytes out.old ++ (words.now ++ index_text index)) }
    ensures most { PutsAtMost (length words.now + 40) out.old out.new result }
{
    out.push_str(words)?;
    print_index(out, index)
}

// A request that names an index, or none, and a blank.
fn print_made(out: &mut String, words: &str, index: Option<u32>) -> Result<(), Want>
    ensures text { OnOk result (string_bytes out.new
        ≡ string_bytes out.old ++ ((words.now ++ index_text index) ++ codes " ")) }
    ensures most { PutsAtMost (length words.now + 41) out.old out.new result }
{
    print_indexed(out, words, index)?;
    out.push_str(" ")
}

// A request that names a pod, and a blank.
fn print_asked(out: &mut String, words: &str, pod: Uid) -> Result<(), Want>
    ensures text { OnOk result (string_bytes out.new
        ≡ string_bytes out.old ++ ((words.now ++ decimal pod.0) ++ codes " ")) }
    ensures most { PutsAtMost (length words.now + 41) out.old out.new result }
{
    print_pod(out, words, pod)?;
    out.push_str(" ")
}

fn print_release(out: &mut String, pod: Uid) -> Result<(), Want>
    ensures text { OnOk result (string_bytes out.new
        ≡ string_bytes out.old ++ (request_text (request.Release pod) ++ codes " ")) }
    ensures most { PutsAtMost 60 out.old out.new result }
{
    out.push_str("release ")?;
    put_long(out, u64::from(pod.0))?;
    out.push_str(" ")
}

// A request of a sync, and the blank in front of its answer.
#[inline(always)]
fn print_request(out: &mut String, request: &Request) -> Result<(), Want>
    ensures text { OnOk result (string_bytes out.new
        ≡ string_bytes out.old ++ (request_text request.now ++ codes " ")) }
    ensures most { PutsAtMost 60 out.old out.new result }
{
    match request {
        Request::CreatePod { index } => print_made(out, "create-pod ", *index),
        Request::MarkPod { pod } => print_asked(out, "mark ", *pod),
        Request::LetGo { pod } => print_asked(out, "let-go ", *pod),
        Request::Status => out.push_str("status "),
        Request::Release { pod } => print_release(out, *pod),
    }
}

// The answer to a request, where it names no container.
fn print_answer(out: &mut String, answer: &Answer) -> Result<(), Want>
    requires short { is_short_answer answer.now ≡ true }
    ensures text { OnOk result (string_bytes out.new
        ≡ string_bytes out.old ++ answer_text answer.now) }
    ensures most { PutsAtMost 100 out.old out.new result }
{
    match answer {
        Answer::Created { uid, version } => print_created(out, *uid, *version),
        Answer::Written { version } => print_written(out, *version),
        Answer::Unchanged { version } => print_version(out, "unchanged v", *version),
        Answer::Released { version } => print_released(out, *version),
        Answer::Removed { version } => print_version(out, "removed v", *version),
        Answer::Conflict { current } => print_version(out, "conflict v", *current),
        Answer::NotFound => print_word(out, "not-found"),
        Answer::AlreadyExists => print_word(out, "exists"),
        Answer::Immutable { field } => print_pair(out, "immutable ", field_word(*field)),
        Answer::Invalid { field } => print_pair(out, "invalid ", field_word(*field)),
        Answer::Final { phase } => print_pair(out, "final ", phase_word(*phase)),
        Answer::BadStep { from, to } => print_bad_step(out, *from, *to),
        Answer::NoContainer { .. } => unreachable!(),
        Answer::NotTracked => print_word(out, "not-tracked"),
        Answer::Unavailable => print_word(out, "unavailable"),
    }
}

// A request, and what it was answered, where that names no container.
#[inline(always)]
fn print_stepped(out: &mut String, request: &Request, answer: &Answer) -> Result<(), Want>
    requires short { is_short_answer answer.now ≡ true }
    ensures text { OnOk result (string_bytes out.new
        ≡ string_bytes out.old ++ reply_text (reply.Stepped request.now answer.now)) }
    ensures most { PutsAtMost 160 out.old out.new result }
{
    print_request(out, request)?;
    print_answer(out, answer)
}

/// Puts a short reply behind the text: it takes no memory where the text has room for 500 bytes.
///
/// # Errors
///
/// Want of memory.
#[inline(always)]
pub fn print_short_reply(out: &mut String, reply: &Reply) -> Result<(), Want>
    requires short { is_short_reply reply.now ≡ true }
    ensures text { OnOk result (string_bytes out.new
        ≡ string_bytes out.old ++ reply_text reply.now) }
    ensures most { PutsAtMost 500 out.old out.new result }
{
    match reply {
        Reply::Created { uid, version } => print_created(out, *uid, *version),
        Reply::Written { version } => print_version(out, "written v", *version),
        Reply::Unchanged { version } => print_version(out, "unchanged v", *version),
        Reply::Released { version } => print_version(out, "released v", *version),
        Reply::Removed { version } => print_version(out, "removed v", *version),
        Reply::Conflict { current } => print_version(out, "conflict v", *current),
        Reply::NotFound => print_word(out, "not-found"),
        Reply::AlreadyExists => print_word(out, "exists"),
        Reply::Immutable { field } => print_pair(out, "immutable ", field_word(*field)),
        Reply::Invalid { field } => print_pair(out, "invalid ", field_word(*field)),
        Reply::Final { phase } => print_pair(out, "final ", phase_word(*phase)),
        Reply::BadStep { from, to } => print_bad_step(out, *from, *to),
        Reply::NotTracked => print_word(out, "not-tracked"),
        Reply::NoContainer { .. } | Reply::Now { .. } => unreachable!(),
        Reply::ClockEnd => print_word(out, "clock-end"),
        Reply::Listed { at } => print_version(out, "listed v", *at),
        Reply::Delivered { version } => print_delivered(out, *version),
        Reply::UpToDate => print_word(out, "up-to-date"),
        Reply::Expired { floor } => print_version(out, "expired v", *floor),
        Reply::NotSynced => print_word(out, "not-synced"),
        Reply::Begun { .. } => print_three(out, reply),
        Reply::NoKey => print_word(out, "no-key"),
        Reply::Behind { .. } => print_three(out, reply),
        Reply::WorkerBusy => print_word(out, "worker-busy"),
        Reply::Stepped { request, answer } => print_stepped(out, request, answer),
        Reply::Ended => out.push_str("ended"),
        Reply::Idle => print_word(out, "idle"),
        Reply::NodeDone { .. } => print_three(out, reply),
        Reply::Done => print_word(out, "done"),
    }
}

// A request, and that the container of the answer is not there.
fn print_stepped_at(out: &mut String, request: &Request, name: &Name) -> Result<(), Want>
    ensures { OnOk result (string_bytes out.new ≡ string_bytes out.old
        ++ reply_text (reply.Stepped request.now (answer.NoContainer name.now))) }
{
    print_request(out, request)?;
    print_no_container(out, name)
}

// A reply that is not short.
fn print_long_reply(out: &mut String, alloc: Global, reply: &Reply) -> Result<(), Want>
    requires { is_short_reply reply.now ≡ false }
    ensures { OnOk result (string_bytes out.new
        ≡ string_bytes out.old ++ reply_text reply.now) }
{
    match reply {
        Reply::NoContainer { name } => print_no_container(out, name),
        Reply::Now { moment } => print_moment(out, alloc, *moment),
        Reply::Begun {
            key,
            jobs_at,
            pods_at,
        } => print_begun(out, key, *jobs_at, *pods_at),
        Reply::Stepped {
            request,
            answer: Answer::NoContainer { name },
        } => print_stepped_at(out, request, name),
        _ => unreachable!(),
    }
}

/// Puts the reply to an event behind the text.
///
/// # Errors
///
/// Want of memory.
pub fn print_reply(out: &mut String, alloc: Global, reply: &Reply) -> Result<(), Want>
    ensures { OnOk result (string_bytes out.new
        ≡ string_bytes out.old ++ reply_text reply.now) }
{
    if is_short_reply(reply) {
        return print_short_reply(out, reply);
    }
    print_long_reply(out, alloc, reply)
}
