//! What is reported of a pod, and how pods are to end, as compact JSON.

ghost use Rattle.std.specs.Prelude.{◌≡◌, ◌++◌, OnOk, codes, map, option_map, string_bytes};
ghost use Rattle.serde_json.specs.Data.{string};
ghost use Rattle.serde_json.specs.Written.{compact_text};
ghost use Rattle.jc_texts.specs.ChangeTexts.{pod_condition_data, container_data, phase_change_data};
ghost use Rattle.jc_texts.specs.ChangeTexts.{end_data, ends_data, exit_data};
ghost use Rattle.jc_print.specs.PrintedMembers.{list_data};
ghost use Rattle.jc_print.specs.Tokens.{AddsTokens, data_tokens, given_tokens};

use crate::words::{phase_word, truth_word};
use jc_print::{new_writer, put_written, write_exit, write_given_number, write_number, write_text};
use jc_types::{ContainerChange, End, PhaseChange, PodCondition, Text, Want};
use json::Writer;
use std::alloc::Global;

// The exit code of a container, where it is given.
fn write_given_exit(writer: &mut Writer, exit: Option<i32>) -> Result<(), Want>
    ensures { OnOk result (AddsTokens writer.old writer.new
        (given_tokens (codes "exitCode") (option_map exit_data exit))) }
{
    match exit {
        None => Ok(()),
        Some(exit) => write_exit(writer, "exitCode", exit),
    }
}

fn write_container(writer: &mut Writer, change: &ContainerChange) -> Result<(), Want>
    ensures { OnOk result (AddsTokens writer.old writer.new (data_tokens (container_data change.now))) }
{
    writer.begin_object()?;
    write_given_exit(writer, change.exit)?;
    write_text(writer, "name", change.name.as_str())?;
    write_given_number(writer, "restartCount", change.restarts)?;
    writer.end_object()?;
    Ok(())
}

fn write_containers(writer: &mut Writer, changes: &[ContainerChange]) -> Result<(), Want>
    ensures { OnOk result (AddsTokens writer.old writer.new
        (data_tokens (list_data (map container_data changes.now)))) }
{
    writer.begin_array()?;
    for change in changes {
        write_container(writer, change)?;
    }
    writer.end_array()?;
    Ok(())
}

fn write_condition(writer: &mut Writer, condition: &PodCondition) -> Result<(), Want>
    ensures { OnOk result (AddsTokens writer.old writer.new
        (data_tokens (pod_condition_data condition.now))) }
{
    writer.begin_object()?;
    write_text(writer, "status", truth_word(condition.truth))?;
    write_text(writer, "type", condition.kind.as_str())?;
    writer.end_object()?;
    Ok(())
}

fn write_conditions(writer: &mut Writer, conditions: &[PodCondition]) -> Result<(), Want>
    ensures { OnOk result (AddsTokens writer.old writer.new
        (data_tokens (list_data (map pod_condition_data conditions.now)))) }
{
    writer.begin_array()?;
    for condition in conditions {
        write_condition(writer, condition)?;
    }
    writer.end_array()?;
    Ok(())
}

fn write_phase_change(writer: &mut Writer, change: &PhaseChange) -> Result<(), Want>
    ensures { OnOk result (AddsTokens writer.old writer.new
        (data_tokens (phase_change_data change.now))) }
{
    writer.begin_object()?;
    writer.key("conditions")?;
    write_conditions(writer, change.conditions.as_slice())?;
    writer.key("containers")?;
    write_containers(writer, change.containers.as_slice())?;
    write_text(writer, "phase", phase_word(change.phase))?;
    writer.end_object()?;
    Ok(())
}

// The condition that a pod ends with, where it is given.
fn write_end_condition(writer: &mut Writer, condition: &Option<Text>) -> Result<(), Want>
    ensures { OnOk result (AddsTokens writer.old writer.new
        (given_tokens (codes "condition") (option_map string condition.now))) }
{
    match condition {
        None => Ok(()),
        Some(condition) => write_text(writer, "condition", condition.as_str()),
    }
}

fn write_end(writer: &mut Writer, end: &End) -> Result<(), Want>
    ensures { OnOk result (AddsTokens writer.old writer.new (data_tokens (end_data end.now))) }
{
    writer.begin_object()?;
    write_end_condition(writer, &end.condition)?;
    write_exit(writer, "exitCode", end.exit)?;
    write_number(writer, "restarts", end.restarts)?;
    writer.end_object()?;
    Ok(())
}

fn write_ends(writer: &mut Writer, ends: &[End]) -> Result<(), Want>
    ensures { OnOk result (AddsTokens writer.old writer.new (data_tokens (ends_data ends.now))) }
{
    writer.begin_array()?;
    for end in ends {
        write_end(writer, end)?;
    }
    writer.end_array()?;
    Ok(())
}

/// Puts what is reported of a pod behind the text.
///
/// # Errors
///
/// Want of memory.
pub fn print_phase_change(out: &mut String, alloc: Global, change: &PhaseChange) -> Result<(), Want>
    ensures { OnOk result (string_bytes out.new
        ≡ string_bytes out.old ++ compact_text (phase_change_data change.now)) }
{
    let mut writer = new_writer(alloc)?;
    write_phase_change(&mut writer, change)?;
    put_written(out, writer)
}

/// Puts how pods are to end behind the text.
///
/// # Errors
///
/// Want of memory.
pub fn print_ends(out: &mut String, alloc: Global, ends: &[End]) -> Result<(), Want>
    ensures { OnOk result (string_bytes out.new
        ≡ string_bytes out.old ++ compact_text (ends_data ends.now)) }
{
    let mut writer = new_writer(alloc)?;
    write_ends(&mut writer, ends)?;
    put_written(out, writer)
}
