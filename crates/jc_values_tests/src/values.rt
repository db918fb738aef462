//! Copies and equality of the values of a run.

use crate::samples::{POD, PodRow, job as job_of, key, main_container, no_status, pod_of, spec};
use jc_moment::Moment;
use jc_ranges::Ranges;
use jc_states::{Basis, Pods};
use jc_types::*;
use std::alloc::Global;
use std::process::Abort;
use std::test::Fail;

fn pattern(alloc: Global) -> Result<Pattern, Want> {
    Ok(Pattern {
        kind: Text::from_str(alloc, "DisruptionTarget")?,
        truth: Truth::True,
    })
}

// A rule on exit codes.
fn exit_codes_rule(alloc: Global) -> Result<FailureRule, Want> {
    let mut values = Codes::new(alloc);
    values.push(42)?;
    Ok(FailureRule {
        action: Action::FailJob,
        requirement: Requirement::ExitCodes {
            container: Some(Name::from_text(alloc, "main")?),
            operator: Operator::Within,
            values,
        },
    })
}

// A rule on conditions.
fn conditions_rule(alloc: Global) -> Result<FailureRule, Want> {
    let mut patterns = Patterns::new(alloc);
    patterns.push(pattern(alloc)?)?;
    Ok(FailureRule {
        action: Action::Ignore,
        requirement: Requirement::Conditions { patterns },
    })
}

// A failure policy with a rule of either kind.
fn failure(alloc: Global) -> Result<FailurePolicy, Want> {
    let mut rules = FailureRules::new(alloc);
    rules.push(exit_codes_rule(alloc)?)?;
    rules.push(conditions_rule(alloc)?)?;
    Ok(FailurePolicy { rules })
}

// A rule that is met by two successes.
fn success_rule(alloc: Global) -> SuccessRule {
    SuccessRule {
        indexes: Some(Ranges::new(alloc)),
        count: Some(2),
    }
}

// A success policy with that rule.
fn success(alloc: Global) -> Result<SuccessPolicy, Want> {
    let mut rules = SuccessRules::new(alloc);
    rules.push(success_rule(alloc))?;
    Ok(SuccessPolicy { rules })
}

// A specification with both policies.
fn spec_with_policies(alloc: Global) -> Result<JobSpec, Want> {
    let mut spec = spec(alloc)?;
    spec.failure = Some(failure(alloc)?);
    spec.success = Some(success(alloc)?);
    Ok(spec)
}

fn condition(now: Moment) -> Condition {
    Condition {
        kind: CondKind::Complete,
        status: true,
        reason: Reason::CompletionsReached,
        since: now,
    }
}

// A status that counts so many pods, and lists one more.
fn status(alloc: Global, now: Moment, succeeded: u64) -> Result<JobStatus, Want> {
    let mut uncounted = Uids::new(alloc);
    uncounted.push(Uid(2))?;
    let mut conditions = Conditions::new(alloc);
    conditions.push(condition(now))?;
    let mut status = no_status(alloc);
    status.start = Some(now);
    status.succeeded = succeeded;
    status.uncounted_succeeded = uncounted;
    status.conditions = conditions;
    Ok(status)
}

fn job(alloc: Global, now: Moment, succeeded: u64) -> Result<Job, Want> {
    job_of(alloc, now, status(alloc, now, succeeded)?)
}

fn container(alloc: Global) -> Result<Container, Want> {
    main_container(alloc, Some(0), 0)
}

fn pod(alloc: Global, now: Moment, marked: bool) -> Result<Pod, Want> {
    let mut pod = pod_of(alloc, key(alloc)?, now, PodRow { marked, ..POD });
    pod.containers.push(container(alloc)?)?;
    Ok(pod)
}

// A list of the one pod.
fn pods(alloc: Global, now: Moment, marked: bool) -> Result<Arc<Pods>, Want> {
    let mut pods = Pods::new(alloc);
    pods.put(Arc::new(alloc, pod(alloc, now, marked)?)?)?;
    Ok(Arc::new(alloc, pods)?)
}

// What a sync sees of a Job with one pod.
fn basis(alloc: Global, now: Moment, marked: bool) -> Result<Basis, Want> {
    let key = key(alloc)?;
    let pods = pods(alloc, now, marked)?;
    let job = job(alloc, now, 0)?;
    Ok(Basis {
        key,
        job: Some(Arc::new(alloc, job)?),
        pods,
        jobs_at: Version(4),
        pods_at: Version(4),
        now,
        backoff: Backoff {
            failures: 0,
            last: None,
        },
    })
}

fn container_change(alloc: Global) -> Result<ContainerChange, Want> {
    Ok(ContainerChange {
        name: Name::from_text(alloc, "main")?,
        exit: Some(0),
        restarts: None,
    })
}

fn report(alloc: Global) -> Result<PhaseChange, Want> {
    let mut containers = ContainerChanges::new(alloc);
    containers.push(container_change(alloc)?)?;
    let mut conditions = PodConditions::new(alloc);
    conditions.push(pattern(alloc)?)?;
    Ok(PhaseChange {
        phase: Phase::Succeeded,
        containers,
        conditions,
    })
}

fn end(alloc: Global) -> Result<End, Want> {
    Ok(End {
        exit: 143,
        restarts: 1,
        condition: Some(Text::from_str(alloc, "DisruptionTarget")?),
    })
}

fn create(alloc: Global) -> Result<Action1, Want> {
    Ok(Action1::Create {
        key: key(alloc)?,
        spec: Arc::new(alloc, spec(alloc)?)?,
    })
}

fn update(alloc: Global) -> Result<Action1, Want> {
    Ok(Action1::Update {
        key: key(alloc)?,
        version: Some(Version(1)),
        change: SpecChange {
            parallelism: Some(2),
            completions: None,
            suspend: None,
            deadline: None,
            backoff_limit: None,
        },
    })
}

fn fate(alloc: Global) -> Result<Action1, Want> {
    let mut ends = Ends::new(alloc);
    ends.push(end(alloc)?)?;
    Ok(Action1::Fate {
        key: key(alloc)?,
        ends,
    })
}

fn reported(alloc: Global) -> Result<Action1, Want> {
    let change = report(alloc)?;
    Ok(Action1::Report {
        pod: Uid(2),
        change,
    })
}

// The command of the lane 1 with the action.
fn command(action: Result<Action1, Want>) -> Result<Command, Want> {
    let action = action?;
    Ok(Command { lane: 1, action })
}

fn script(alloc: Global) -> Result<Script, Want> {
    let mut commands = Commands::new(alloc);
    commands.push(command(update(alloc))?)?;
    Ok(Script { commands })
}

// A history of one event with the reply.
fn history(alloc: Global, reply: Reply) -> Result<History, Want> {
    let mut events = Pasts::new(alloc);
    events.push(Past {
        event: Event::Command { lane: 0, number: 0 },
        reply,
        length: Version(1),
    })?;
    Ok(History { events })
}

fn begun(alloc: Global) -> Result<Reply, Want> {
    Ok(Reply::Begun {
        key: key(alloc)?,
        jobs_at: Version(1),
        pods_at: Version(1),
    })
}

fn behind(need: u32, have: u32) -> Reply {
    Reply::Behind {
        kind: Kind::Jobs,
        need: Version(need),
        have: Version(have),
    }
}

fn created() -> Reply {
    Reply::Stepped {
        request: Request::CreatePod { index: None },
        answer: Answer::Created {
            uid: Uid(2),
            version: Version(2),
        },
    }
}

fn no_container(alloc: Global) -> Result<Reply, Want> {
    Ok(Reply::NoContainer {
        name: Name::from_text(alloc, "x")?,
    })
}

fn job_put(alloc: Global, now: Moment) -> Result<Entry, Want> {
    Ok(Entry::JobPut(Arc::new(alloc, job(alloc, now, 0)?)?))
}

fn pod_gone(alloc: Global, now: Moment) -> Result<Entry, Want> {
    Ok(Entry::PodGone(Arc::new(alloc, pod(alloc, now, false)?)?))
}

// A value that threads may share.
fn crosses_threads<T: Send + Sync + Drop>(made: Result<T, Want>) -> Result<(), Want> {
    let _value = made?;
    Ok(())
}

// So many indexes with one failure each.
fn index_counts(alloc: Global, many: u32) -> Result<IndexCounts, Want> {
    let mut counts = IndexCounts::new(alloc);
    for index in 0..many {
        counts.push(IndexCount {
            index,
            failures: 1,
            fail: false,
        })?;
    }
    Ok(counts)
}

// The list of the item alone.
fn list_of<T: Copied + Same + Drop>(
    rt: &impl Abort,
    alloc: Global,
    item: &T,
) -> Result<ListOf<T>, Want> {
    let copied = item.copy()?;
    let mut list = ListOf::new(alloc);
    assert!(rt; list.is_empty());
    list.push(copied)?;
    Ok(list)
}

// The list of two is not that of one, and each of its items is the one.
fn sees_two<T: Copied + Same + Drop>(
    rt: &impl Abort,
    list: &ListOf<T>,
    longer: &ListOf<T>,
    item: &T,
) {
    assert_eq!(rt; list.len(), 1);
    assert_eq!(rt; longer.len(), 2);
    assert!(rt; !longer.is_same(list));
    for held in longer.as_slice() {
        assert!(rt; held.is_same(item));
    }
}

// A copy of the list is the same, and one that grows leaves it as it was.
fn grows<T: Copied + Same + Drop>(rt: &impl Abort, list: &ListOf<T>, item: &T) -> Result<(), Want> {
    let copied = item.copy()?;
    let mut longer = list.copy()?;
    assert!(rt; longer.is_same(list));
    longer.push(copied)?;
    sees_two(rt, list, &longer, item);
    Ok(())
}

// An item that is pushed is there, and a copy that grows leaves the list as it was.
fn keeps<T: Copied + Same + Drop>(
    rt: &impl Abort,
    alloc: Global,
    made: Result<T, Want>,
) -> Result<(), Want> {
    let item = made?;
    let list = list_of(rt, alloc, &item)?;
    grows(rt, &list, &item)
}

// A copy of the first value is that one and not the other.
fn tells_apart<T: Copied + Same + Drop>(
    rt: &impl Abort,
    made: Result<T, Want>,
    other: Result<T, Want>,
) -> Result<(), Want> {
    let value = made?;
    let other = other?;
    let copied = value.copy()?;
    assert!(rt; copied.is_same(&value));
    assert!(rt; !copied.is_same(&other));
    Ok(())
}

fn keeps_small_ones(rt: &impl Abort, alloc: Global, now: Moment) -> Result<(), Want> {
    keeps(rt, alloc, Ok(Uid(2)))?;
    keeps(rt, alloc, Name::from_text(alloc, "main"))?;
    keeps(rt, alloc, Ok(42))?;
    keeps(rt, alloc, Ok(Some(4_u32)))?;
    keeps(rt, alloc, Ok((Uid(2), Version(4))))?;
    keeps(rt, alloc, pattern(alloc))?;
    keeps(rt, alloc, container(alloc))?;
    keeps(rt, alloc, Ok(condition(now)))?;
    keeps(rt, alloc, end(alloc))?;
    keeps(rt, alloc, container_change(alloc))
}

fn keeps_rules(rt: &impl Abort, alloc: Global) -> Result<(), Want> {
    keeps(rt, alloc, exit_codes_rule(alloc))?;
    keeps(rt, alloc, conditions_rule(alloc))?;
    keeps(rt, alloc, Ok(success_rule(alloc)))?;
    tells_apart(rt, spec_with_policies(alloc), spec(alloc))
}

fn keeps_objects(rt: &impl Abort, alloc: Global, now: Moment) -> Result<(), Want> {
    keeps(rt, alloc, job_put(alloc, now))?;
    keeps(rt, alloc, pod_gone(alloc, now))?;
    tells_apart(rt, job(alloc, now, 0), job(alloc, now, 1))?;
    tells_apart(rt, pod(alloc, now, false), pod(alloc, now, true))?;
    tells_apart(rt, index_counts(alloc, 200), index_counts(alloc, 199))?;
    tells_apart(rt, basis(alloc, now, false), basis(alloc, now, true))?;
    crosses_threads(basis(alloc, now, false))
}

fn keeps_command(
    rt: &impl Abort,
    alloc: Global,
    action: Result<Action1, Want>,
) -> Result<(), Want> {
    keeps(rt, alloc, command(action))
}

fn keeps_commands(rt: &impl Abort, alloc: Global) -> Result<(), Want> {
    keeps_command(rt, alloc, create(alloc))?;
    keeps_command(rt, alloc, update(alloc))?;
    keeps_command(rt, alloc, fate(alloc))?;
    keeps_command(rt, alloc, reported(alloc))?;
    let (controller, worker) = (0, 1);
    keeps_command(rt, alloc, Ok(Action1::Sync { controller, worker }))?;
    keeps_command(rt, alloc, Ok(Action1::Settle))?;
    crosses_threads(script(alloc))?;
    keeps_script(rt, script(alloc))
}

fn keeps_script(rt: &impl Abort, made: Result<Script, Want>) -> Result<(), Want> {
    let script = made?;
    let copied = script.copy()?;
    assert!(rt; copied.is_same(&script));
    Ok(())
}

fn keeps_replies(rt: &impl Abort, alloc: Global, now: Moment) -> Result<(), Want> {
    keeps(rt, alloc, begun(alloc))?;
    keeps(rt, alloc, Ok(created()))?;
    keeps(rt, alloc, no_container(alloc))?;
    keeps(rt, alloc, Ok(Reply::Now { moment: now }))?;
    tells_apart(rt, Ok(behind(3, 1)), Ok(behind(1, 3)))
}

fn keeps_history(rt: &impl Abort, made: Result<History, Want>) -> Result<(), Want> {
    let history = made?;
    let copied = history.copy()?;
    assert_eq!(rt; copied.events.len(), history.events.len());
    crosses_threads(Ok(history))
}

// What a sync has counted of one pod.
fn counted(alloc: Global) -> CountIn {
    CountIn {
        uncounted_succeeded: Uids::new(alloc),
        uncounted_failed: Uids::new(alloc),
        succeeded: 1,
        failed: 0,
        completed: Ranges::new(alloc),
        failed_indexes: Ranges::new(alloc),
        index_failures: IndexCounts::new(alloc),
        releases: Uids::new(alloc),
        new_succeeded: 1,
        new_failed: 0,
        judged_failed: Uids::new(alloc),
        left_succeeded: 0,
        left_failed: 2,
    }
}

// The counts are the same.
fn sees_counts(rt: &impl Abort, copied: &CountIn, counted: &CountIn) {
    assert_eq!(rt; copied.succeeded, counted.succeeded);
    assert_eq!(rt; copied.left_failed, counted.left_failed);
    assert!(rt; copied.releases.is_same(&counted.releases));
}

// A copy's list that grows leaves that of the value as it was.
fn grows_alone(rt: &impl Abort, copied: &mut Uids, releases: &Uids) -> Result<(), Want> {
    copied.push(Uid(2))?;
    assert!(rt; releases.is_empty());
    Ok(())
}

// The same of a copy.
fn keeps_counts(rt: &impl Abort, counted: &CountIn) -> Result<(), Want> {
    let mut copied = counted.copy()?;
    sees_counts(rt, &copied, counted);
    grows_alone(rt, &mut copied.releases, &counted.releases)
}

// 2024-01-01T00:00:00Z, by `date -u -d`.
fn new_year(rt: &impl Abort) -> Moment {
    Moment::from_seconds(1_704_067_200).expect(rt, "a moment")
}

#[test]
fn small_values(rt: HostRuntime) -> Result<(), Fail> {
    keeps_small_ones(&rt, rt.alloc(), new_year(&rt))?;
    Ok(())
}

#[test]
fn rules_of_policies(rt: HostRuntime) -> Result<(), Fail> {
    keeps_rules(&rt, rt.alloc())?;
    Ok(())
}

#[test]
fn the_objects_of_a_run(rt: HostRuntime) -> Result<(), Fail> {
    keeps_objects(&rt, rt.alloc(), new_year(&rt))?;
    Ok(())
}

#[test]
fn commands_of_a_script(rt: HostRuntime) -> Result<(), Fail> {
    keeps_commands(&rt, rt.alloc())?;
    Ok(())
}

#[test]
fn replies_and_histories(rt: HostRuntime) -> Result<(), Fail> {
    keeps_replies(&rt, rt.alloc(), new_year(&rt))?;
    keeps_history(&rt, history(rt.alloc(), created()))?;
    Ok(())
}

#[test]
fn counts_of_a_sync(rt: HostRuntime) -> Result<(), Fail> {
    keeps_counts(&rt, &counted(rt.alloc()))?;
    Ok(())
}
