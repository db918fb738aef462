//! The texts of specifications and of their changes: compact JSON, members in byte order.

ghost use Rattle.std.specs.Prelude.{◌≡◌, ◌++◌, ℤ, OnOk, codes, map, option_map, string_bytes};
ghost use Rattle.serde_json.specs.Data.{number, string, no_members};
ghost use Rattle.serde_json.specs.Find.{of_integer};
ghost use Rattle.serde_json.specs.Written.{compact_text};
ghost use Rattle.jc_ranges.specs.Texts.{ranges_text};
ghost use Rattle.jc_print.specs.PrintedMembers.{texts_data, list_data};
ghost use Rattle.jc_print.specs.PrintedSpecs.{mode_word, replacement_word, restart_word, action_word, operator_word, truth_word, pattern_data, exit_codes_data, with_requirement, failure_rule_data, failure_data, success_rule_data};
ghost use Rattle.jc_print.specs.PrintedSpecs.{success_data, template_data, spec_data, change_data};
ghost use Rattle.jc_print.specs.Tokens.{AddsTokens, data_tokens, front_tokens, given_tokens};

use crate::writes::{
    new_writer, put_written, write_given_number, write_given_truth, write_number, write_text,
    write_truth,
};
use jc_types::{
    Action, Codes, FailurePolicy, FailureRule, JobSpec, Mode, Name, Names, Operator, Pattern,
    Replacement, Requirement, Restart, SpecChange, SuccessPolicy, SuccessRule, Template, Truth,
    Want,
};
use json::Writer;
use std::alloc::Global;

fn mode_word(mode: Mode) -> &'static str
    ensures { result.now ≡ mode_word mode }
{
    match mode {
        Mode::NonIndexed => "NonIndexed",
        Mode::Indexed => "Indexed",
    }
}

fn replacement_word(replacement: Replacement) -> &'static str
    ensures { result.now ≡ replacement_word replacement }
{
    match replacement {
        Replacement::TerminatingOrFailed => "TerminatingOrFailed",
        Replacement::FailedOnly => "Failed",
    }
}

fn restart_word(restart: Restart) -> &'static str
    ensures { result.now ≡ restart_word restart }
{
    match restart {
        Restart::Never => "Never",
        Restart::OnFailure => "OnFailure",
    }
}

fn action_word(action: Action) -> &'static str
    ensures { result.now ≡ action_word action }
{
    match action {
        Action::FailJob => "FailJob",
        Action::Ignore => "Ignore",
        Action::Count => "Count",
        Action::FailIndex => "FailIndex",
    }
}

fn operator_word(operator: Operator) -> &'static str
    ensures { result.now ≡ operator_word operator }
{
    match operator {
        Operator::Within => "In",
        Operator::NotWithin => "NotIn",
    }
}

fn truth_word(truth: Truth) -> &'static str
    ensures { result.now ≡ truth_word truth }
{
    match truth {
        Truth::True => "True",
        Truth::False => "False",
        Truth::Unknown => "Unknown",
    }
}

// A list of names as texts.
fn write_names(writer: &mut Writer, names: &Names) -> Result<(), Want>
    ensures { OnOk result (AddsTokens writer.old writer.new (data_tokens (texts_data names.now))) }
{
    writer.begin_array()?;
    for name in names.as_slice() {
        writer.string(name.as_str())?;
    }
    writer.end_array()?;
    Ok(())
}

// Exit codes as numbers.
fn write_codes(writer: &mut Writer, exits: &[i32]) -> Result<(), Want>
    ensures { OnOk result (AddsTokens writer.old writer.new
        (data_tokens (list_data (map (λ z. number (of_integer z)) exits.now)))) }
{
    writer.begin_array()?;
    for exit in exits {
        writer.i64(i64::from(*exit))?;
    }
    writer.end_array()?;
    Ok(())
}

fn write_pattern(writer: &mut Writer, pattern: &Pattern) -> Result<(), Want>
    ensures { OnOk result (AddsTokens writer.old writer.new (data_tokens (pattern_data pattern.now))) }
{
    writer.begin_object()?;
    write_text(writer, "status", truth_word(pattern.truth))?;
    write_text(writer, "type", pattern.kind.as_str())?;
    writer.end_object()?;
    Ok(())
}

fn write_patterns(writer: &mut Writer, patterns: &[Pattern]) -> Result<(), Want>
    ensures { OnOk result (AddsTokens writer.old writer.new
        (data_tokens (list_data (map pattern_data patterns.now)))) }
{
    writer.begin_array()?;
    for pattern in patterns {
        write_pattern(writer, pattern)?;
    }
    writer.end_array()?;
    Ok(())
}

// The container that exit codes are of, where it is given.
fn write_container(writer: &mut Writer, container: &Option<Name>) -> Result<(), Want>
    ensures { OnOk result (AddsTokens writer.old writer.new
        (given_tokens (codes "containerName") (option_map string container.now))) }
{
    match container {
        None => Ok(()),
        Some(container) => write_text(writer, "containerName", container.as_str()),
    }
}

fn write_exit_codes(
    writer: &mut Writer,
    container: &Option<Name>,
    operator: Operator,
    values: &Codes,
) -> Result<(), Want>
    ensures { OnOk result (AddsTokens writer.old writer.new
        (data_tokens (exit_codes_data container.now operator values.now))) }
{
    writer.begin_object()?;
    write_container(writer, container)?;
    write_text(writer, "operator", operator_word(operator))?;
    writer.key("values")?;
    write_codes(writer, values.as_slice())?;
    writer.end_object()?;
    Ok(())
}

fn write_requirement(writer: &mut Writer, requirement: &Requirement) -> Result<(), Want>
    ensures { OnOk result (AddsTokens writer.old writer.new
        (front_tokens (with_requirement requirement.now no_members))) }
{
    match requirement {
        Requirement::ExitCodes {
            container,
            operator,
            values,
        } => {
            writer.key("onExitCodes")?;
            write_exit_codes(writer, container, *operator, values)?;
            Ok(())
        }
        Requirement::Conditions { patterns } => {
            writer.key("onPodConditions")?;
            write_patterns(writer, patterns.as_slice())?;
            Ok(())
        }
    }
}

fn write_failure_rule(writer: &mut Writer, rule: &FailureRule) -> Result<(), Want>
    ensures { OnOk result (AddsTokens writer.old writer.new (data_tokens (failure_rule_data rule.now))) }
{
    writer.begin_object()?;
    write_text(writer, "action", action_word(rule.action))?;
    write_requirement(writer, &rule.requirement)?;
    writer.end_object()?;
    Ok(())
}

fn write_failure_rules(writer: &mut Writer, rules: &[FailureRule]) -> Result<(), Want>
    ensures { OnOk result (AddsTokens writer.old writer.new
        (data_tokens (list_data (map failure_rule_data rules.now)))) }
{
    writer.begin_array()?;
    for rule in rules {
        write_failure_rule(writer, rule)?;
    }
    writer.end_array()?;
    Ok(())
}

fn write_failure(writer: &mut Writer, policy: &FailurePolicy) -> Result<(), Want>
    ensures { OnOk result (AddsTokens writer.old writer.new (data_tokens (failure_data policy.now))) }
{
    writer.begin_object()?;
    writer.key("rules")?;
    write_failure_rules(writer, policy.rules.as_slice())?;
    writer.end_object()?;
    Ok(())
}

// The indexes that count, where they are given.
fn write_indexes(writer: &mut Writer, rule: &SuccessRule) -> Result<(), Want>
    ensures { OnOk result (AddsTokens writer.old writer.new (given_tokens (codes "succeededIndexes")
        (option_map (λ set. string (ranges_text set)) rule.now.indexes))) }
{
    match &rule.indexes {
        None => Ok(()),
        Some(indexes) => {
            let text = indexes.text()?;
            write_text(writer, "succeededIndexes", text.as_str())
        }
    }
}

fn write_success_rule(writer: &mut Writer, rule: &SuccessRule) -> Result<(), Want>
    ensures { OnOk result (AddsTokens writer.old writer.new (data_tokens (success_rule_data rule.now))) }
{
    writer.begin_object()?;
    write_given_number(writer, "succeededCount", rule.count)?;
    write_indexes(writer, rule)?;
    writer.end_object()?;
    Ok(())
}

fn write_success_rules(writer: &mut Writer, rules: &[SuccessRule]) -> Result<(), Want>
    ensures { OnOk result (AddsTokens writer.old writer.new
        (data_tokens (list_data (map success_rule_data rules.now)))) }
{
    writer.begin_array()?;
    for rule in rules {
        write_success_rule(writer, rule)?;
    }
    writer.end_array()?;
    Ok(())
}

fn write_success(writer: &mut Writer, policy: &SuccessPolicy) -> Result<(), Want>
    ensures { OnOk result (AddsTokens writer.old writer.new (data_tokens (success_data policy.now))) }
{
    writer.begin_object()?;
    writer.key("rules")?;
    write_success_rules(writer, policy.rules.as_slice())?;
    writer.end_object()?;
    Ok(())
}

fn write_template(writer: &mut Writer, template: &Template) -> Result<(), Want>
    ensures { OnOk result (AddsTokens writer.old writer.new (data_tokens (template_data template.now))) }
{
    writer.begin_object()?;
    writer.key("containers")?;
    write_names(writer, &template.containers)?;
    writer.key("initContainers")?;
    write_names(writer, &template.inits)?;
    write_text(writer, "restartPolicy", restart_word(template.restart))?;
    writer.end_object()?;
    Ok(())
}

// The failure policy, where it is given.
fn write_given_failure(writer: &mut Writer, spec: &JobSpec) -> Result<(), Want>
    ensures { OnOk result (AddsTokens writer.old writer.new
        (given_tokens (codes "podFailurePolicy") (option_map failure_data spec.now.failure))) }
{
    match &spec.failure {
        None => Ok(()),
        Some(policy) => {
            writer.key("podFailurePolicy")?;
            write_failure(writer, policy)?;
            Ok(())
        }
    }
}

// The success policy, where it is given.
fn write_given_success(writer: &mut Writer, spec: &JobSpec) -> Result<(), Want>
    ensures { OnOk result (AddsTokens writer.old writer.new
        (given_tokens (codes "successPolicy") (option_map success_data spec.now.success))) }
{
    match &spec.success {
        None => Ok(()),
        Some(policy) => {
            writer.key("successPolicy")?;
            write_success(writer, policy)?;
            Ok(())
        }
    }
}

fn write_spec(writer: &mut Writer, spec: &JobSpec) -> Result<(), Want>
    ensures { OnOk result (AddsTokens writer.old writer.new (data_tokens (spec_data spec.now))) }
{
    writer.begin_object()?;
    write_given_number(writer, "activeDeadlineSeconds", spec.deadline)?;
    write_number(writer, "backoffLimit", spec.backoff_limit)?;
    write_given_number(writer, "backoffLimitPerIndex", spec.per_index)?;
    write_text(writer, "completionMode", mode_word(spec.mode))?;
    write_given_number(writer, "completions", spec.completions)?;
    write_given_number(writer, "maxFailedIndexes", spec.max_failed)?;
    write_number(writer, "parallelism", spec.parallelism)?;
    write_given_failure(writer, spec)?;
    let replacement = replacement_word(spec.replacement);
    write_text(writer, "podReplacementPolicy", replacement)?;
    write_given_success(writer, spec)?;
    write_truth(writer, "suspend", spec.suspend)?;
    writer.key("template")?;
    write_template(writer, &spec.template)?;
    writer.end_object()?;
    Ok(())
}

fn write_change(writer: &mut Writer, change: &SpecChange) -> Result<(), Want>
    ensures { OnOk result (AddsTokens writer.old writer.new (data_tokens (change_data change.now))) }
{
    writer.begin_object()?;
    write_given_number(writer, "activeDeadlineSeconds", change.deadline)?;
    write_given_number(writer, "backoffLimit", change.backoff_limit)?;
    write_given_number(writer, "completions", change.completions)?;
    write_given_number(writer, "parallelism", change.parallelism)?;
    write_given_truth(writer, "suspend", change.suspend)?;
    writer.end_object()?;
    Ok(())
}

/// Puts the specification behind the text, as compact JSON, its members in byte order of their names. What is not given
/// is left out.
///
/// # Errors
///
/// Want of memory.
pub fn print_spec(out: &mut String, alloc: Global, spec: &JobSpec) -> Result<(), Want>
    ensures { OnOk result (string_bytes out.new
        ≡ string_bytes out.old ++ compact_text (spec_data spec.now)) }
{
    let mut writer = new_writer(alloc)?;
    write_spec(&mut writer, spec)?;
    put_written(out, writer)
}

/// Puts what an update changes behind the text, as compact JSON: the members that are given, in byte order of their
/// names.
///
/// # Errors
///
/// Want of memory.
pub fn print_change(out: &mut String, alloc: Global, change: &SpecChange) -> Result<(), Want>
    ensures { OnOk result (string_bytes out.new
        ≡ string_bytes out.old ++ compact_text (change_data change.now)) }
{
    let mut writer = new_writer(alloc)?;
    write_change(&mut writer, change)?;
    put_written(out, writer)
}
