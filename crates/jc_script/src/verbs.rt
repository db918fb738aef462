//! The words of `do`.

ghost use Rattle.std.specs.Prelude.{◌≡◌, codes, map};
ghost use Rattle.jc_json.specs.View.{view};
ghost use Rattle.jc_members.specs.LineCauses.{Says};
ghost use Rattle.jc_members.specs.Members.{word_in};
ghost use Rattle.jc_script.specs.Verbs.{verb_of, line_members, verb_in};

use jc_json::{Trail, Value, need_text};
use jc_members::{LineFault, broken, check_known};
use std::alloc::Global;

/// The commands, each by its word in `do`.
#[derive(Clone, Copy)]
pub enum Verb {
    Create,
    Update,
    Delete,
    Mark,
    Strip,
    Finish,
    Phase,
    Fate,
    Clock,
    List,
    Deliver,
    Begin,
    Sync,
    Step,
    Node,
    Restart,
    Fault,
    Settle,
}

// The command of that word.
fn verb_of(text: &str) -> Option<Verb>
    ensures { result ≡ verb_of text.now }
{
    match text {
        "create" => Some(Verb::Create),
        "update" => Some(Verb::Update),
        "delete" => Some(Verb::Delete),
        "mark" => Some(Verb::Mark),
        "strip" => Some(Verb::Strip),
        "finish" => Some(Verb::Finish),
        "phase" => Some(Verb::Phase),
        "fate" => Some(Verb::Fate),
        "clock" => Some(Verb::Clock),
        "list" => Some(Verb::List),
        "deliver" => Some(Verb::Deliver),
        "begin" => Some(Verb::Begin),
        "sync" => Some(Verb::Sync),
        "step" => Some(Verb::Step),
        "node" => Some(Verb::Node),
        "restart" => Some(Verb::Restart),
        "fault" => Some(Verb::Fault),
        "settle" => Some(Verb::Settle),
        _ => None,
    }
}

// The members that the command's line may have.
fn line_members(verb: Verb) -> &'static [&'static str]
    ensures { map (λ k. k.now) result.now ≡ line_members verb }
{
    match verb {
        Verb::Create => &["do", "lane", "job"],
        Verb::Update => &["do", "lane", "name", "namespace", "version", "spec"],
        Verb::Delete => &["do", "lane", "name", "namespace"],
        Verb::Mark => &["do", "lane", "pod"],
        Verb::Strip => &["do", "lane", "pod"],
        Verb::Finish => &["do", "lane", "pod", "exit"],
        Verb::Phase => &[
            "do",
            "lane",
            "pod",
            "phase",
            "exitCodes",
            "restartCounts",
            "conditions",
        ],
        Verb::Fate => &["do", "lane", "name", "namespace", "ends"],
        Verb::Clock => &["do", "lane", "add"],
        Verb::List => &["do", "lane", "controller", "kind"],
        Verb::Deliver => &["do", "lane", "controller", "kind", "times"],
        Verb::Begin => &["do", "lane", "controller", "worker"],
        Verb::Sync => &["do", "lane", "controller", "worker"],
        Verb::Step => &["do", "lane", "controller", "worker", "times"],
        Verb::Node => &["do", "lane", "times"],
        Verb::Restart => &["do", "lane", "controller"],
        Verb::Fault => &["do", "lane", "controller", "worker", "kind"],
        Verb::Settle => &["do", "lane"],
    }
}

// The command that a line gives, by its member `do`.
#[tactic(auto, unfolding(jc_members::specs::Members::word_in))]
fn read_word(alloc: Global, value: &Value, path: &Trail) -> Result<Verb, LineFault>
    ensures { Says (λ verb. verb) result
        (word_in path.now (codes "do") verb_of (view value.now)) }
{
    let text = need_text(alloc, value, path, "do")?;
    match verb_of(text) {
        Some(verb) => Ok(verb),
        None => Err(broken(path, "do", 29)),
    }
}

/// The command that a line gives, whose members are all known.
#[tactic(auto, unfolding(crate::specs::Verbs::verb_in))]
pub fn read_verb(alloc: Global, value: &Value) -> Result<Verb, LineFault>
    ensures { Says (λ verb. verb) result (verb_in (view value.now)) }
{
    let path = Trail::new(alloc);
    let verb = read_word(alloc, value, &path)?;
    check_known(alloc, value, &path, line_members(verb))?;
    Ok(verb)
}
