//! Runs on threads. They stand here, since no crate but the program and those that it runs by may start a thread, and the
//! program has the fewest functions of them, which are proved twice.

ghost use Rattle.std.specs.Prelude.{◌<◌, ◌≤◌, ◌^◌, IfOk, length};
ghost use Rattle.std.specs.List.{AllByRecursion as Each};
ghost use Rattle.jc_ctl.specs.ValidActions.{AreValidCommands};
ghost use Rattle.jc_ctl.specs.Plays.{IsScriptFor};

use jc_ctl::{
    Cluster, FreeGate, Gate, Status, default_shape, report as printed, run_program, run_turn,
};
use jc_io::{MemSink, MemSource};
use jc_script::{read_script, scripts_fit_their_shape};
use jc_types::{Key, Script, Shape};
use std::alloc::Global;
use std::process::Abort;
use std::sync::atomic::{AtomicBool, AtomicU32, Ordering};
use std::sync::{Mutex, Wait};
use std::test::Fail;
use std::thread::Threads;

// The script's line that creates a Job of so many pods.
fn create(alloc: Global, name: &str, completions: u32, lane: u32) -> Result<String, Fail> {
    Ok(format!(in alloc;
        r#"{{"do":"create","job":{{"apiVersion":"batch/v1","kind":"Job","metadata":{{"name":"{name}"}},"spec":{{"completions":{completions},"template":{{"spec":{{"restartPolicy":"Never","containers":[{{"name":"main"}}]}}}}}}}},"lane":{lane}}}"#
    )?)
}

// The line that has each of its pods exit with 0.
fn fate(alloc: Global, name: &str, lane: u32) -> Result<String, Fail> {
    Ok(format!(in alloc;
        "\n{{\"do\":\"fate\",\"name\":\"{name}\",\"ends\":[{{\"exitCode\":0}}],\"lane\":{lane}}}\n"
    )?)
}

// Puts both lines.
fn put_job(
    alloc: Global,
    script: &mut String,
    name: &str,
    completions: u32,
    lane: u32,
) -> Result<(), Fail> {
    script.push_str(&create(alloc, name, completions, lane)?)?;
    script.push_str(&fate(alloc, name, lane)?)?;
    Ok(())
}

// The locks by which seats may share the cluster.
const LOCKS: [&str; 2] = ["mutex", "turn"];

// More events than any of the runs has that end well.
const MANY_EVENTS: u32 = 100_000;

// Fewer events than twenty Jobs have.
const FEW_EVENTS: u32 = 100;

// A run of two workers that is asked for: on so many threads, which share the cluster by the lock, with room for so many
// events.
#[derive(Clone, Copy)]
struct Asked<'a> {
    threads: u32,
    lock: &'a str,
    events: u32,
}

impl<'a> Asked<'a> {
    // The words of the run.
    fn words(&self, alloc: Global) -> Result<Vec<String>, Fail> {
        let mut words = Vec::new(alloc);
        words.push(String::from_str(alloc, "run")?)?;
        words.push(format!(in alloc; "--threads={}", self.threads)?)?;
        words.push(String::from_str(alloc, "--workers=2")?)?;
        words.push(format!(in alloc; "--lock={}", self.lock)?)?;
        words.push(format!(in alloc; "--events={}", self.events)?)?;
        Ok(words)
    }

    // The words of an audit of its report.
    fn audit_words(&self, alloc: Global) -> Result<Vec<String>, Fail> {
        let mut words = Vec::new(alloc);
        words.push(String::from_str(alloc, "audit")?)?;
        words.push(String::from_str(alloc, "--workers=2")?)?;
        words.push(format!(in alloc; "--events={}", self.events)?)?;
        Ok(words)
    }
}

// What the program writes of the input, and how it ends.
fn written<R: Threads + Wait + Sync, G: Gate + Sync>(
    rt: &R,
    alloc: Global,
    words: &[String],
    input: &str,
    gate: &G,
) -> Result<(String, Status), Fail> {
    let mut source = MemSource::new(input.as_bytes().to_vec(alloc)?, Vec::new(alloc));
    let mut sink = MemSink::new(alloc, 1_000_000, Vec::new(alloc))?;
    let status = run_program(rt, alloc, words, &mut source, &mut sink, gate);
    Ok((
        String::from_str(alloc, str::from_utf8(sink.held())?)?,
        status,
    ))
}

// An audit with the options of the run says yes to the report.
fn see_audit<R: Threads + Wait + Sync + Abort>(
    rt: &R,
    alloc: Global,
    asked: Asked<'_>,
    report: &str,
) -> Result<(), Fail> {
    let words = asked.audit_words(alloc)?;
    let (verdict, status) = written(rt, alloc, &words, report, &FreeGate)?;
    assert!(rt; matches!(status, Status::Ok), "the audit ends well");
    assert_eq!(rt; verdict.as_str(), "yes\n");
    Ok(())
}

// The report of a run that ends well, which an audit says yes to.
fn report<R: Threads + Wait + Sync + Abort, G: Gate + Sync>(
    rt: &R,
    alloc: Global,
    asked: Asked<'_>,
    script: &str,
    gate: &G,
) -> Result<String, Fail> {
    let words = asked.words(alloc)?;
    let (report, status) = written(rt, alloc, &words, script, gate)?;
    assert!(rt; matches!(status, Status::Ok), "the run ends well");
    see_audit(rt, alloc, asked, &report)?;
    Ok(report)
}

// How often the part stands in the text.
fn times(text: &str, part: &str) -> usize {
    text.split(part).count() - 1
}

// Twenty Jobs on three lanes.
fn twenty_jobs(alloc: Global) -> Result<String, Fail> {
    let mut script = String::new(alloc);
    for job in 0..20u32 {
        let name = format!(in alloc; "j{job}")?;
        put_job(alloc, &mut script, &name, 3, job % 3)?;
    }
    Ok(script)
}

// Each of them is Complete with three pods that were counted.
fn see_jobs_end(rt: &impl Abort, alloc: Global, report: &str) -> Result<(), Fail> {
    for job in 0..20u32 {
        let verdicts = format!(in alloc; "\nverdicts default/j{job} succeeded 3 failed 0\n")?;
        assert_eq!(rt; times(report, &verdicts), 1, "Job {job}");
    }
    let complete = "\"reason\":\"CompletionsReached\",\"status\":\"True\",\"type\":\"Complete\"";
    assert_eq!(rt; times(report, complete), 20);
    assert_eq!(rt; times(report, "\"succeeded\":3}\n"), 20);
    Ok(())
}

// Twenty Jobs come to their end on so many threads.
fn see_threads<R: Threads + Wait + Sync + Abort>(
    rt: &R,
    alloc: Global,
    script: &str,
    threads: u32,
    lock: &str,
) -> Result<(), Fail> {
    let asked = Asked {
        threads,
        lock,
        events: MANY_EVENTS,
    };
    let told = report(rt, alloc, asked, script, &FreeGate)?;
    see_jobs_end(rt, alloc, &told)
}

// Twenty Jobs come to their end on any number of threads, by either lock.
#[test]
fn jobs_end_on_threads(rt: HostRuntime) -> Result<(), Fail> {
    let alloc = rt.alloc();
    let script = twenty_jobs(alloc)?;
    for lock in LOCKS {
        for threads in [1u32, 2, 4, 16] {
            see_threads(&rt, alloc, &script, threads, lock)?;
        }
    }
    Ok(())
}

// A run on four threads whose history is full before the Jobs have ended: its report has as many events as there is room
// for, and says so, and an audit says yes to it.
fn see_full_history<R: Threads + Wait + Sync + Abort>(
    rt: &R,
    alloc: Global,
    script: &str,
    lock: &str,
) -> Result<(), Fail> {
    let asked = Asked {
        threads: 4,
        lock,
        events: FEW_EVENTS,
    };
    let words = asked.words(alloc)?;
    let (told, status) = written(rt, alloc, &words, script, &FreeGate)?;
    assert!(rt;
        matches!(status, Status::HistoryFull),
        "the history is full"
    );
    assert_eq!(rt; times(&told, " -> "), FEW_EVENTS as usize);
    see_audit(rt, alloc, asked, &told)
}

// The same by either lock.
#[test]
fn full_histories_pass_audits(rt: HostRuntime) -> Result<(), Fail> {
    let alloc = rt.alloc();
    let script = twenty_jobs(alloc)?;
    for lock in LOCKS {
        see_full_history(&rt, alloc, &script, lock)?;
    }
    Ok(())
}

// How often the first plan's seat looks whether a second has come, before the test has failed.
const TURNS: u32 = 500_000_000;

// A plan that was made: by which seat, and of the Job of which name.
#[derive(Drop)]
struct Made {
    seat: u32,
    name: String,
}

// A gate that lets the first plan pass only once a second has come. It keeps what was made.
#[derive(Drop)]
struct Meeting<'a, R: Wait> {
    rt: &'a R,
    alloc: Global,
    came: AtomicU32,
    is_late: AtomicBool,
    made: Mutex<Vec<Made>>,
}

impl<'a, R: Wait> Meeting<'a, R> {
    // A gate to which no plan has come.
    fn new(rt: &'a R, alloc: Global) -> Self {
        Meeting {
            rt,
            alloc,
            came: AtomicU32::new(0),
            is_late: AtomicBool::new(false),
            made: Mutex::new(Vec::new(alloc)),
        }
    }

    // Keeps that the plan was made. Where there is no memory for it, it is missed later.
    fn keep(&self, seat: u32, name: &str) {
        let Ok(name) = String::from_str(self.alloc, name) else {
            return;
        };
        let mut made = self.made.lock(self.rt);
        let _kept = made.push(Made { seat, name });
    }

    // Waits until two plans have come.
    fn wait(&self) {
        for _ in 0..TURNS {
            if self.came.load(Ordering::SeqCst) >= 2 {
                return;
            }
        }
        self.is_late.store(true, Ordering::SeqCst);
    }
}

impl<'a, R: Wait> Gate for Meeting<'a, R> {
    fn planned(&self, seat: u32, key: &Key) {
        self.keep(seat, key.name.as_str());
        self.came.fetch_add(1, Ordering::SeqCst);
        self.wait();
    }
}

// Four Jobs of one pod, two on each of two lanes.
fn four_jobs(alloc: Global) -> Result<String, Fail> {
    let mut script = String::new(alloc);
    for (name, lane) in [("a", 0u32), ("b", 0), ("c", 1), ("d", 1)] {
        put_job(alloc, &mut script, name, 1, lane)?;
    }
    Ok(script)
}

// The first two plans were made by two seats, and each sync of the report had its plan.
fn see_plans(rt: &impl Abort, alloc: Global, made: &[Made], report: &str) -> Result<(), Fail> {
    assert!(rt; made.len() >= 2, "two plans were made");
    assert!(rt; made[0].seat != made[1].seat, "by two seats");
    assert_eq!(rt;
        made.len(),
        times(report, "-> begun "),
        "each sync had its plan"
    );
    for name in ["a", "b", "c", "d"] {
        let begun = format!(in alloc; "-> begun default/{name} jobs ")?;
        let count = made
            .iter()
            .filter(|plan| plan.name.as_str() == name)
            .count();
        assert_eq!(rt; count, times(report, &begun), "plans of {name}");
    }
    Ok(())
}

// The first two plans came to the gate at once, and each sync of the report had its plan.
fn see_gate<R: Wait + Abort>(
    rt: &R,
    alloc: Global,
    gate: &Meeting<'_, R>,
    report: &str,
) -> Result<(), Fail> {
    assert!(rt;
        !gate.is_late.load(Ordering::SeqCst),
        "two plans were made at once"
    );
    let made = gate.made.lock(rt);
    see_plans(rt, alloc, &made, report)
}

// Two seats make their plans beside each other: each holds up its first plan until the other's has come,
// and no plan is made under the lock. Each sync that begins has its plan made so.
fn see_meeting<R: Threads + Wait + Sync + Abort>(
    rt: &R,
    alloc: Global,
    script: &str,
    lock: &str,
) -> Result<(), Fail> {
    let asked = Asked {
        threads: 2,
        lock,
        events: MANY_EVENTS,
    };
    let gate = Meeting::new(rt, alloc);
    let told = report(rt, alloc, asked, script, &gate)?;
    see_gate(rt, alloc, &gate, &told)
}

// The same by either lock.
#[test]
fn plans_are_made_beside_each_other(rt: HostRuntime) -> Result<(), Fail> {
    let alloc = rt.alloc();
    let script = four_jobs(alloc)?;
    for lock in LOCKS {
        see_meeting(&rt, alloc, &script, lock)?;
    }
    Ok(())
}

// The script that a text says, such as the shape can play.
fn script_in(alloc: Global, text: &str, shape: &Shape) -> Result<Script, Fail>
    requires some_controllers { 0 < shape.now.controllers }
    requires some_workers { 0 < shape.now.workers }
    ensures valid_actions { IfOk result
        (λ script. AreValidCommands script.commands) }
    ensures fits_shape { IfOk result (λ script. IsScriptFor script shape.now) }
    ensures fits { IfOk result (λ script. length script.commands < 2 ^ 32) }
{
    scripts_fit_their_shape();
    if text.len() > 1_000_000 {
        return Err(Fail::new("a long script"));
    }
    match read_script(alloc, text.as_bytes(), shape) {
        Ok(script) => Ok(script),
        Err(_) => Err(Fail::new("the script")),
    }
}

// What two seats of a turn lock leave of the script, by the call itself that gives them this lock.
fn left_by_turn<R: Threads + Wait + Sync, G: Gate + Sync>(
    rt: &R,
    alloc: Global,
    script: &Script,
    shape: &Shape,
    gate: &G,
) -> Result<Cluster, Fail>
    requires valid_actions { AreValidCommands script.now.commands }
    requires fits_shape { IsScriptFor script.now shape.now }
    requires fits { length script.now.commands < 2 ^ 32 }
    requires few_events { shape.now.events ≤ 200000 }
{
    match run_turn(rt, alloc, script, shape, 2, gate) {
        Ok(cluster) => Ok(cluster),
        Err(_) => Err(Fail::new("the run")),
    }
}

// What is printed of a cluster whose history is not full.
fn text_of(alloc: Global, cluster: &Cluster) -> Result<String, Fail> {
    let text = printed(alloc, cluster, false)?;
    Ok(String::from_str(alloc, str::from_utf8(&text)?)?)
}

// What is printed of what those seats leave.
fn turn_text<R: Threads + Wait + Sync, G: Gate + Sync>(
    rt: &R,
    alloc: Global,
    script: &Script,
    shape: &Shape,
    gate: &G,
) -> Result<String, Fail>
    requires valid_actions { AreValidCommands script.now.commands }
    requires fits_shape { IsScriptFor script.now shape.now }
    requires fits { length script.now.commands < 2 ^ 32 }
    requires few_events { shape.now.events ≤ 200000 }
{
    let cluster = left_by_turn(rt, alloc, script, shape, gate)?;
    text_of(alloc, &cluster)
}

// The report of two seats of a turn lock that play the script in the text.
fn turn_report<R: Threads + Wait + Sync, G: Gate + Sync>(
    rt: &R,
    alloc: Global,
    text: &str,
    gate: &G,
) -> Result<String, Fail> {
    let shape = Shape {
        workers: 2,
        events: MANY_EVENTS,
        ..default_shape()
    };
    let script = script_in(alloc, text, &shape)?;
    turn_text(rt, alloc, &script, &shape, gate)
}

// Each of the four Jobs has its pod counted.
fn see_four_counted(rt: &impl Abort, alloc: Global, report: &str) -> Result<(), Fail> {
    for name in ["a", "b", "c", "d"] {
        let verdicts = format!(in alloc; "\nverdicts default/{name} succeeded 1 failed 0\n")?;
        assert_eq!(rt; times(report, &verdicts), 1, "Job {name}");
    }
    Ok(())
}

// Two seats of a turn lock make their plans beside each other. All pods have been counted then, and an audit says yes.
#[test]
fn seats_of_a_turn_lock_plan_beside_each_other(rt: HostRuntime) -> Result<(), Fail> {
    let alloc = rt.alloc();
    let gate = Meeting::new(&rt, alloc);
    let told = turn_report(&rt, alloc, &four_jobs(alloc)?, &gate)?;
    let asked = Asked {
        threads: 2,
        lock: "turn",
        events: MANY_EVENTS,
    };
    see_audit(&rt, alloc, asked, &told)?;
    see_four_counted(&rt, alloc, &told)?;
    see_gate(&rt, alloc, &gate, &told)
}
