//! A diary and its log, with a mark in between.

ghost use Rattle.std.specs.Prelude.{◌≡◌, ◌≤◌, true, IfOk, OnErr, length, []};
ghost use mathlib.Core.List.{IsPrefix};

use crate::{ListTag, Log, Mark};
use jc_types::{Event, History, Past, Pasts, Reply, Version, Want};
use std::alloc::Global;
use std::marker::{Brand, Model, PhantomData};
use std::test::Fail;

// Which log it is.
trait NameTag {
    ghost use Rattle.atomic_table.specs.Seated.{TableId};

    ghost name: { TableId };
}

impl NameTag for Brand {
    ghost use Rattle.std.specs.Prelude.{[]};

    ghost name = { record {
      words = 0;
      slots = 0;
      views_name = 0;
      atom = 0;
      block = 0;
      offset = 0;
      slot_names = [];
    } };
}

// A diary, and the log of that name, which has seen a beginning of it.
#[derive(Drop)]
struct Diary<N: NameTag> {
    history: History,
    log: Log,
    of: PhantomData<N>,
}

impl<N: NameTag> Model for Diary<N> {
    ghost use Rattle.std.specs.Prelude.{◌≡◌, List};
    ghost use Rattle.jc_types.specs.declared.runs.Past.{Past};
    ghost use mathlib.Core.List.{IsPrefix};

    ghost Value = { List Past };

    ghost view = { λ d. d.history.events.items };

    ghost invariant = { λ d. (d.log.name ≡ N.name)
        × IsPrefix d.log.seen d.history.events.items };
}

// The log has now seen the whole diary.
fn show<L: ListTag>(log: &mut Log, history: &History)
    requires list { history.now.events.items ≡ L.list }
    requires longer { IsPrefix log.old.seen L.list }
    ensures { (log.new.seen ≡ L.list) × (log.new.name ≡ log.old.name) }
{
    log.grow::<L>();
}

impl<N: NameTag> Diary<N> {
    // Notes one thing more, and marks what there is then.
    fn note(&mut self, number: u32) -> Result<Mark, Want>
        ensures { IfOk result (λ mark. (mark.name ≡ N.name) × (mark.seen ≡ self.new)) }
    {
        self.history.events.push(Past {
            event: Event::Command { lane: 0, number },
            reply: Reply::NotFound,
            length: Version(0),
        })?;
        show::<Brand>(&mut self.log, &self.history);
        Ok(self.log.mark())
    }

    // How long the diary is: as long as it was at the mark, at least.
    fn length_since(&mut self, mark: Mark) -> usize
        requires { mark.name ≡ N.name }
        ensures { length mark.seen ≤ result }
    {
        self.log.recall(mark);
        self.history.events.len()
    }
}

// Notes two things, with a mark between. How long the diary was at the mark, and how long it is then: no
// shorter.
fn play<N: NameTag>(history: History, log: Log) -> Result<(usize, usize), Want>
    requires name { log.name ≡ N.name }
    requires new { log.seen ≡ [] }
    ensures { IfOk result (λ lengths. lengths.0 ≤ lengths.1) }
{
    let mut diary = Diary::<N> {
        history,
        log,
        of: PhantomData,
    };
    let mark = diary.note(1)?;
    let before = diary.history.events.len();
    let _later = diary.note(2)?;
    Ok((before, diary.length_since(mark)))
}

#[test]
fn a_diary_is_no_shorter_than_at_a_mark(rt: HostRuntime) -> Result<(), Fail> {
    let history = History {
        events: Pasts::new(rt.alloc()),
    };
    let log = Log::new(rt.alloc())?;
    let lengths = play::<Brand>(history, log)?;
    assert!(rt; lengths == (1, 2));
    Ok(())
}
