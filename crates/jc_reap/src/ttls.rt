//! Reading the TTLs of a script.

ghost use Rattle.std.specs.Prelude.{◌≡◌, ◌≤◌, ◌+◌, ◌++◌, ◌∷◌, [], ℕ, List, IfOk, IsOk, OnOk, IsErrOf, Ok, Err, Some, length};
ghost use Rattle.std.specs.Option.{option_map, option_map_or};
ghost use Rattle.jc_json.specs.View.{view};
ghost use Rattle.jc_json.specs.Line.{data_of};
ghost use Rattle.jc_script.specs.LineCauses.{Says};
ghost use Rattle.jc_script.specs.Items.{with_front};
ghost use Rattle.jc_script.specs.Scripts.{most_bytes, script_of};
ghost use Rattle.jc_reap.specs.TtlLines.{entries_of, line_ttls, makes_job, some_ttls, spec_member, ttl_given, ttl_in, ttl_of_command, ttl_of_spec, ttls_of, ttls_say};

use jc_json::{JsonFault, Room, Trail, Value, member, new_room, read_line};
use jc_script::{
    Cause, LineFault, Said, ScriptFault, first_line, read_given_number, read_text, trimmed,
};
use jc_types::{Action1, ListOf, Shape, Want};
use std::alloc::Global;

/// How many seconds after its end the Job of each command may go (`ttlSecondsAfterFinished` of
/// batch/v1): one entry a command, and none for one that is no create or gives no TTL.
pub type Ttls = ListOf<Option<u32>>;

// The greatest TTL.
const GREATEST_TTL: u32 = 2_147_483_647;

// The TTL in a specification.
fn read_in_spec(alloc: Global, spec: &Value) -> Result<Option<u32>, LineFault>
    ensures { Says (λ ttl. ttl) result (ttl_of_spec (Some (view spec.now))) }
{
    let line = Trail::new(alloc);
    let job = line.path_to("job");
    let path = job.path_to("spec");
    read_given_number(
        alloc,
        spec,
        &path,
        "ttlSecondsAfterFinished",
        0,
        GREATEST_TTL,
    )
}

// The specification of the Job in the value of a line.
fn spec_in<'v, 'a>(value: &'v Value<'a>) -> Option<&'v Value<'a>>
    ensures { option_map (λ v. view v.now) result ≡ spec_member (view value.now) }
{
    member(member(value, "job")?, "spec")
}

// The TTL in the value of a line.
fn read_in(alloc: Global, value: &Value) -> Result<Option<u32>, LineFault>
    ensures { Says (λ ttl. ttl) result (ttl_in (view value.now)) }
{
    match spec_in(value) {
        None => Ok(None),
        Some(spec) => read_in_spec(alloc, spec),
    }
}

// The TTL in a line that has a value.
fn read_given(alloc: Global, text: &[u8], room: &mut Room) -> Result<Option<u32>, LineFault>
    ensures { Says (λ ttl. ttl) result (ttl_given (data_of text.now)) }
{
    match read_line(text, room) {
        Ok(value) => read_in(alloc, &value),
        Err(JsonFault::NotJson) => Ok(None),
        Err(JsonFault::Want) => Err(LineFault::Want),
    }
}

// Whether the action makes a Job.
fn makes_job(action: &Action1) -> bool
    ensures { result ≡ makes_job action.now }
{
    matches!(action, Action1::Create { .. })
}

// The TTL of a line's command: none of one that makes no Job.
fn read_of_command(
    alloc: Global,
    said: &Said,
    text: &[u8],
    room: &mut Room,
) -> Result<Option<u32>, LineFault>
    ensures { Says (λ ttl. ttl) result (ttl_of_command said.now.command (data_of text.now)) }
{
    if makes_job(&said.command.action) {
        read_given(alloc, text, room)
    } else {
        Ok(None)
    }
}

// What a line gives each of its commands, and how many they are.
#[derive(Clone, Copy)]
pub(crate) struct Given {
    pub ttl: Option<u32>,
    pub times: u32,
}

// What a text that is not empty gives.
fn read_entries(
    alloc: Global,
    text: &[u8],
    shape: &Shape,
    room: &mut Room,
) -> Result<Given, LineFault>
    ensures { Says entries_of result (some_ttls shape.now text.now) }
{
    let said = read_text(alloc, text, shape, room)?;
    let ttl = read_of_command(alloc, &said, text, room)?;
    Ok(Given {
        ttl,
        times: said.times,
    })
}

// What a line gives; nothing where it is empty.
fn read_given_by(
    alloc: Global,
    line: &[u8],
    shape: &Shape,
    room: &mut Room,
) -> Result<Option<Given>, LineFault>
    ensures { Says (λ given. option_map_or entries_of given []) result
        (line_ttls shape.now line.now) }
{
    let text = trimmed(line);
    if text.is_empty() {
        return Ok(None);
    }
    Ok(Some(read_entries(alloc, text, shape, room)?))
}

// Adds the entries that are given.
fn add_entries(ttls: &mut Ttls, given: &Given) -> Result<(), Want>
    ensures { OnOk result (ttls.new ≡ ttls.old ++ entries_of given.now) }
{
    for _ in 0..given.times {
        ttls.push(given.ttl)?;
    }
    Ok(())
}

// Adds the entries that are given, where there are any.
fn add_given(ttls: &mut Ttls, given: &Option<Given>) -> Result<(), Want>
    ensures { OnOk result (ttls.new ≡ ttls.old ++ option_map_or entries_of given.now []) }
{
    match given {
        None => Ok(()),
        Some(given) => add_entries(ttls, given),
    }
}

// Adds the line's entries to those of the lines before it.
fn take_line(
    alloc: Global,
    ttls: &mut Ttls,
    number: u32,
    line: &[u8],
    shape: &Shape,
    room: &mut Room,
) -> Result<(), ScriptFault>
    ensures read { OnOk result ((more : List (List ℕ)) →
        with_front ttls.new (ttls_say shape.now (number + 1) more)
        ≡ with_front ttls.old (ttls_say shape.now number (line.now ∷ more))) }
    ensures bad { (at : ℕ) (cause : Cause) → IsErrOf result (ScriptFault.BadLine at cause)
        → (more : List (List ℕ)) → ttls_say shape.now number (line.now ∷ more)
        ≡ Err (record { number = at; cause = cause }) }
{
    match read_given_by(alloc, line, shape, room) {
        Ok(given) => Ok(add_given(ttls, &given)?),
        Err(LineFault::Bad { cause }) => Err(ScriptFault::BadLine { number, cause }),
        Err(LineFault::Want) => Err(ScriptFault::Want),
    }
}

/// The TTLs that a script gives: an entry for each of its commands. The bytes are those of a script
/// that was read for runs of that shape.
///
/// # Errors
///
/// `BadLine` exactly where a line that makes a Job has a `ttlSecondsAfterFinished` in the Job's `spec`
/// that is no whole number, or is not from 0 to 2,147,483,647: with the first such line, and with the
/// path of the member. `Want`: memory ran out.
pub fn read_ttls(alloc: Global, bytes: &[u8], shape: &Shape) -> Result<Ttls, ScriptFault>
    requires few_bytes { length bytes.now ≤ most_bytes }
    requires read { IsOk (script_of shape.now bytes.now) }
    ensures ttls { IfOk result (λ ttls. ttls_of shape.now bytes.now ≡ Ok ttls) }
    ensures bad_line { (number : ℕ) (cause : Cause)
        → IsErrOf result (ScriptFault.BadLine number cause)
        → ttls_of shape.now bytes.now ≡ Err (record { number = number; cause = cause }) }
{
    let mut ttls = Ttls::new(alloc);
    let mut room = new_room(alloc);
    let mut number = 1;
    let mut left = Some(bytes);
    'lines: while let Some(text) = left {
        let (line, after) = first_line(text);
        take_line(alloc, &mut ttls, number, line, shape, &mut room)?;
        number += 1;
        left = after;
    }
    Ok(ttls)
}
