//! The parts of a command that take memory, read of their words: keys, and what is printed as JSON.

ghost use Rattle.std.specs.Prelude.{◌≡◌, ◌+◌, ◌≤◌, IfOk, drop, length, option_map};
ghost use Rattle.serde_json.specs.View.{view};
ghost use Rattle.jc_json.specs.Line.{data_of};
ghost use Rattle.jc_reading.specs.LineReadings.{change_if, change_said, ends_if, ends_printed, job_if, printed_job, key_said, label_if, parted, report_if, report_said, slash_in, subdomain_if};

use crate::manifests::{manifest_of, with_only};
use crate::pod_reports::report_of;
use bumpalo::Bump;
use jc_json::{JsonFault, Trail, borrowed, read_owned};
use jc_manifest::read_job;
use jc_rows::{ManifestFault, is_label, is_subdomain};
use jc_script::{LineFault, read_change, read_ends, read_report};
use jc_types::{Ends, JobSpec, Key, KeyNames, Label, PhaseChange, SpecChange, Want};
use serde_json::Value;
use std::alloc::{AllocError, Global};

// Where the first slash stands; behind the last byte where there is none.
fn slash_in(word: &[u8]) -> usize
    ensures is { result ≡ slash_in word.now }
    ensures within { result ≤ length word.now }
{
    for i in 0..word.len() {
        if word[i] == b'/' {
            return i;
        }
    }
    word.len()
}

// What stands in front of the first slash.
#[tactic(auto, using(crate::proofs::KeyFacts::before_is))]
fn before_slash(word: &[u8]) -> &[u8]
    ensures { result.now ≡ (parted word.now).0 }
{
    &word[..slash_in(word)]
}

// The bytes from one behind the first slash on.
fn after_slash(word: &[u8]) -> &[u8]
    ensures { result.now ≡ drop (slash_in word.now + 1) word.now }
{
    let slash = slash_in(word);
    if slash < word.len() {
        &word[slash + 1..]
    } else {
        &[]
    }
}

// What stands behind the first slash.
#[tactic(auto, using(crate::proofs::KeyFacts::behind_is))]
fn behind_slash(word: &[u8]) -> &[u8]
    ensures { result.now ≡ (parted word.now).1 }
{
    after_slash(word)
}

// The name of a namespace.
#[tactic(auto, using(crate::proofs::KeyFacts::no_label, crate::proofs::KeyFacts::some_label))]
fn read_label(alloc: Global, word: &[u8]) -> Result<Option<Label>, Want>
    ensures { IfOk result (λ o. o ≡ label_if word.now) }
{
    if !is_label(word) {
        return Ok(None);
    }
    match str::from_utf8(word) {
        Ok(text) => Ok(Some(Label::from_text(alloc, text)?)),
        Err(_) => Ok(None),
    }
}

// The name of a Job.
#[tactic(auto, using(crate::proofs::KeyFacts::no_subdomain, crate::proofs::KeyFacts::some_subdomain))]
fn read_subdomain(alloc: Global, word: &[u8]) -> Result<Option<Label>, Want>
    ensures { IfOk result (λ o. o ≡ subdomain_if word.now) }
{
    if !is_subdomain(word) {
        return Ok(None);
    }
    match str::from_utf8(word) {
        Ok(text) => Ok(Some(Label::from_text(alloc, text)?)),
        Err(_) => Ok(None),
    }
}

/// The key of a Job.
#[tactic(auto, unfolding(crate::specs::LineReadings::key_said))]
pub fn read_key(alloc: Global, word: &[u8]) -> Result<Option<Key>, Want>
    ensures { IfOk result (λ o. o ≡ key_said word.now) }
{
    let Some(namespace) = read_label(alloc, before_slash(word))? else {
        return Ok(None);
    };
    let Some(name) = read_subdomain(alloc, behind_slash(word))? else {
        return Ok(None);
    };
    Ok(Some(Key::new(alloc, KeyNames { namespace, name })?))
}

// The value that a word spells.
fn read_value(alloc: Global, word: &[u8]) -> Result<Option<Value>, Want>
    ensures { IfOk result (λ o. option_map view o ≡ data_of word.now) }
{
    match read_owned(alloc, word) {
        Ok(value) => Ok(Some(value)),
        Err(JsonFault::NotJson) => Ok(None),
        Err(JsonFault::Want) => Err(AllocError),
    }
}

// What a manifest says that is accepted.
fn accepted(alloc: Global, manifest: &Value) -> Result<Option<(Key, JobSpec)>, Want>
    ensures { IfOk result (λ o. o ≡ job_if (view manifest.now)) }
{
    let bump = Bump::new(alloc);
    let manifest = borrowed(&bump, manifest)?;
    match read_job(alloc, &manifest, &Trail::new(alloc)) {
        Ok(job) => Ok(Some(job)),
        Err(ManifestFault::Want) => Err(AllocError),
        Err(_) => Ok(None),
    }
}

/// The Job that a printed specification and the key say.
#[tactic(auto, unfolding(crate::specs::LineReadings::printed_job))]
pub fn read_created(alloc: Global, key: &Key, word: &[u8]) -> Result<Option<(Key, JobSpec)>, Want>
    ensures { IfOk result (λ o. o ≡ printed_job key.now word.now) }
{
    let Some(value) = read_value(alloc, word)? else {
        return Ok(None);
    };
    let manifest = manifest_of(alloc, key, &value)?;
    accepted(alloc, &manifest)
}

// What a line of a script says of a specification.
fn change_in(alloc: Global, line: &Value) -> Result<Option<SpecChange>, Want>
    ensures { IfOk result (λ o. o ≡ change_if (view line.now)) }
{
    let bump = Bump::new(alloc);
    let line = borrowed(&bump, line)?;
    match read_change(alloc, &line) {
        Ok(change) => Ok(Some(change)),
        Err(LineFault::Want) => Err(AllocError),
        Err(LineFault::Bad { .. }) => Ok(None),
    }
}

/// The change of a specification.
#[tactic(auto, unfolding(crate::specs::LineReadings::change_said))]
pub fn read_changed(alloc: Global, word: &[u8]) -> Result<Option<SpecChange>, Want>
    ensures { IfOk result (λ o. o ≡ change_said word.now) }
{
    let Some(value) = read_value(alloc, word)? else {
        return Ok(None);
    };
    let line = with_only(alloc, "spec", value)?;
    change_in(alloc, &line)
}

// What a line of a script reports of a pod.
fn report_in(alloc: Global, line: &Value) -> Result<Option<PhaseChange>, Want>
    ensures { IfOk result (λ o. o ≡ report_if (view line.now)) }
{
    let bump = Bump::new(alloc);
    let line = borrowed(&bump, line)?;
    match read_report(alloc, &line) {
        Ok(change) => Ok(Some(change)),
        Err(LineFault::Want) => Err(AllocError),
        Err(LineFault::Bad { .. }) => Ok(None),
    }
}

/// What is reported of a pod.
#[tactic(auto, unfolding(crate::specs::LineReadings::report_said))]
pub fn read_reported(alloc: Global, word: &[u8]) -> Result<Option<PhaseChange>, Want>
    ensures { IfOk result (λ o. o ≡ report_said word.now) }
{
    let Some(value) = read_value(alloc, word)? else {
        return Ok(None);
    };
    let line = report_of(alloc, &value)?;
    report_in(alloc, &line)
}

// What a line of a script says of how pods are to end.
fn ends_in(alloc: Global, line: &Value) -> Result<Option<Ends>, Want>
    ensures { IfOk result (λ o. o ≡ ends_if (view line.now)) }
{
    let bump = Bump::new(alloc);
    let line = borrowed(&bump, line)?;
    match read_ends(alloc, &line) {
        Ok(ends) => Ok(Some(ends)),
        Err(LineFault::Want) => Err(AllocError),
        Err(LineFault::Bad { .. }) => Ok(None),
    }
}

/// How pods are to end.
#[tactic(auto, unfolding(crate::specs::LineReadings::ends_printed))]
pub fn read_printed_ends(alloc: Global, word: &[u8]) -> Result<Option<Ends>, Want>
    ensures { IfOk result (λ o. o ≡ ends_printed word.now) }
{
    let Some(value) = read_value(alloc, word)? else {
        return Ok(None);
    };
    let line = with_only(alloc, "ends", value)?;
    ends_in(alloc, &line)
}
