//! A failure rule that names the exit code 0, which no manifest may: a container that exits with 0 never meets it.

ghost use Rattle.std.specs.Prelude.{◌≡◌, IfOk, length};

use crate::samples::{POD, PodRow, key, main_container, moment, pod_of};
use jc_failpol::action;
use jc_types::{
    Action, Codes, FailurePolicy, FailureRule, FailureRules, Operator, Phase, Pod, Requirement,
};
use std::alloc::Global;
use std::test::Fail;

// The policy that fails the Job where a container exits with 0 or 3.
fn policy(alloc: Global) -> Result<FailurePolicy, Fail>
    ensures { IfOk result (λ policy. length policy.rules ≡ 1) }
{
    let mut values = Codes::new(alloc);
    values.push(0)?;
    values.push(3)?;
    let mut rules = FailureRules::new(alloc);
    rules.push(FailureRule {
        action: Action::FailJob,
        requirement: Requirement::ExitCodes {
            container: None,
            operator: Operator::Within,
            values,
        },
    })?;
    Ok(FailurePolicy { rules })
}

// A failed pod whose container has exited so.
fn pod(alloc: Global, exit: i32) -> Result<Pod, Fail> {
    let row = PodRow {
        phase: Phase::Failed,
        ..POD
    };
    let mut pod = pod_of(alloc, key(alloc)?, moment(0)?, row);
    pod.containers.push(main_container(alloc, Some(exit), 0)?)?;
    Ok(pod)
}

#[test]
fn exits_with_0_meet_no_rule(rt: HostRuntime) -> Result<(), Fail> {
    let alloc = rt.alloc();
    let policy = policy(alloc)?;
    assert_eq!(rt; action(&policy, &pod(alloc, 0)?), (Action::Count, None));
    assert_eq!(rt;
        action(&policy, &pod(alloc, 3)?),
        (Action::FailJob, Some(0))
    );
    Ok(())
}
