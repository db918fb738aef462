//! Lines of events with answers and replies that no script comes to. What is expected is in the form of the report's
//! description, and was printed by another implementation of it.

use crate::samples::moment;
use jc_lines::print_event;
use jc_types::{
    Answer, Commands, Event, Field, Name, Past, Phase, Reply, Request, Script, Sys, Uid, Version,
    Want,
};
use std::alloc::Global;
use std::process::Abort;
use std::test::Fail;

// The line of the twelfth event, a step of the node, with the reply.
fn line(alloc: Global, out: &mut String, reply: Reply) -> Result<(), Want> {
    let script = Script {
        commands: Commands::new(alloc),
    };
    let past = Past {
        event: Event::System(Sys::Node),
        reply,
        length: Version(1),
    };
    print_event(out, alloc, &script, 12, &past)
}

// The line of the twelfth event, a step of a sync in which a status was to be written, with the answer.
fn answered(alloc: Global, out: &mut String, answer: Answer) -> Result<(), Want> {
    let request = Request::Status;
    line(alloc, out, Reply::Stepped { request, answer })
}

#[test]
fn prints_answers_that_do_not_come(rt: HostRuntime) -> Result<(), Fail> {
    let alloc = rt.alloc();
    let mut out = String::new(alloc);
    let version = Version(10);
    let phase = Phase::Succeeded;
    let (from, to) = (Phase::Running, Phase::Pending);
    answered(alloc, &mut out, Answer::Unchanged { version })?;
    answered(alloc, &mut out, Answer::Removed { version })?;
    answered(alloc, &mut out, Answer::AlreadyExists)?;
    answered(
        alloc,
        &mut out,
        Answer::Immutable {
            field: Field::Completions,
        },
    )?;
    answered(
        alloc,
        &mut out,
        Answer::Invalid {
            field: Field::Parallelism,
        },
    )?;
    answered(alloc, &mut out, Answer::Final { phase })?;
    answered(alloc, &mut out, Answer::BadStep { from, to })?;
    let name = Name::from_text(alloc, "side")?;
    answered(alloc, &mut out, Answer::NoContainer { name })?;
    assert_eq!(rt;
        out.as_str(),
        "12 - node -> status unchanged v10\n12 - node -> status removed v10\n12 - node -> status exists\n12 - node -> status immutable completions\n12 - node -> status invalid parallelism\n12 - node -> status final Succeeded\n12 - node -> status bad-step Running Pending\n12 - node -> status no-container side\n"
    );
    Ok(())
}

#[test]
fn prints_replies_that_do_not_come(rt: HostRuntime) -> Result<(), Fail> {
    let alloc = rt.alloc();
    let mut out = String::new(alloc);
    line(
        alloc,
        &mut out,
        Reply::Immutable {
            field: Field::BackoffLimit,
        },
    )?;
    line(
        alloc,
        &mut out,
        Reply::Invalid {
            field: Field::Deadline,
        },
    )?;
    line(
        alloc,
        &mut out,
        Reply::Now {
            moment: moment(1_704_067_260)?,
        },
    )?;
    let request = Request::LetGo { pod: Uid(4) };
    let answer = Answer::NotFound;
    line(alloc, &mut out, Reply::Stepped { request, answer })?;
    assert_eq!(rt;
        out.as_str(),
        "12 - node -> immutable backoffLimit\n12 - node -> invalid activeDeadlineSeconds\n12 - node -> now 2024-01-01T00:01:00Z\n12 - node -> let-go 4 not-found\n"
    );
    Ok(())
}
