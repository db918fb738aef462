//! What a specification says of the number of its pods.

ghost use Rattle.std.specs.Prelude.{◌≡◌, codes};
ghost use Rattle.jc_json.specs.View.{view};
ghost use Rattle.jc_rows.specs.ManifestRows.{Checks, Reads, given_text_row, number_row, number_in};
ghost use Rattle.jc_rows.specs.PodCountRows.{is_mode, mode_of, mode_in, completions_or, indexed_row, numbers_refusal, numbers_in, counts_refusal, counts_in};

use crate::refusals::{ManifestFault, broken};
use jc_json::{Trail, Value, may_number, may_text};
use jc_types::{GREATEST_COMPLETIONS, GREATEST_PARALLELISM, Mode};
use std::alloc::Global;

/// How many pods a Job wants, and how they are counted.
#[derive(Clone, Copy)]
pub struct Counts {
    pub parallelism: u32,
    pub completions: Option<u32>,
    pub mode: Mode,
}

/// The whole number of a member from 0 on, where it is given.
#[tactic(auto, unfolding(crate::specs::ManifestRows::number_row, crate::specs::ManifestRows::number_in))]
pub fn may_count(
    alloc: Global,
    object: &Value,
    path: &Trail,
    name: &str,
    greatest: u32,
) -> Result<Option<u32>, ManifestFault>
    ensures { Reads (λ count. count) result
        (number_row path.now (view object.now) name.now greatest)
        (number_in path.now (view object.now) name.now greatest) }
{
    match may_number(alloc, object, path, name, 0, i64::from(greatest))? {
        None => Ok(None),
        Some(number) => Ok(Some(number as u32)),
    }
}

// The two numbers of them.
#[derive(Clone, Copy)]
struct Numbers {
    parallelism: u32,
    completions: Option<u32>,
}

// The mode of that word.
fn mode_of(text: &str) -> Option<Mode>
    ensures { result ≡ mode_of text.now }
{
    if text == "NonIndexed" {
        return Some(Mode::NonIndexed);
    }
    if text == "Indexed" {
        return Some(Mode::Indexed);
    }
    None
}

// How completions are counted.
#[tactic(auto, unfolding(crate::specs::ManifestRows::given_text_row, crate::specs::PodCountRows::mode_in))]
fn read_mode(alloc: Global, spec: &Value, path: &Trail) -> Result<Mode, ManifestFault>
    ensures { Reads (λ mode. mode) result
        (given_text_row path.now (view spec.now) (codes "completionMode") 5 is_mode)
        (mode_in path.now (view spec.now)) }
{
    let Some(text) = may_text(alloc, spec, path, "completionMode")? else {
        return Ok(Mode::NonIndexed);
    };
    match mode_of(text) {
        Some(mode) => Ok(mode),
        None => Err(broken(path, "completionMode", 5)),
    }
}

// The completions that are wanted, where any are.
fn completions_or(parallelism: Option<u32>, completions: Option<u32>) -> Option<u32>
    ensures { result ≡ completions_or parallelism completions }
{
    match completions {
        Some(completions) => Some(completions),
        None => match parallelism {
            None => Some(1),
            Some(_) => None,
        },
    }
}

// That an Indexed Job has completions.
#[tactic(auto, unfolding(crate::specs::PodCountRows::indexed_row))]
fn check_indexed(path: &Trail, mode: Mode, completions: Option<u32>) -> Result<(), ManifestFault>
    ensures { Checks result (indexed_row path.now mode completions) }
{
    match (mode, completions) {
        (Mode::Indexed, None) => Err(broken(path, "completionMode", 6)),
        _ => Ok(()),
    }
}

// How many pods are wanted at once, and how many completions.
fn read_numbers(alloc: Global, spec: &Value, path: &Trail) -> Result<Numbers, ManifestFault>
    ensures { Reads (λ numbers. numbers) result (numbers_refusal path.now (view spec.now))
        (numbers_in path.now (view spec.now)) }
{
    let parallelism = may_count(alloc, spec, path, "parallelism", GREATEST_PARALLELISM)?;
    let completions = may_count(alloc, spec, path, "completions", GREATEST_COMPLETIONS)?;
    Ok(Numbers {
        parallelism: parallelism.unwrap_or(1),
        completions: completions_or(parallelism, completions),
    })
}

/// How many pods are wanted, and how they are counted.
#[tactic(auto, unfolding(crate::specs::PodCountRows::numbers_in, crate::specs::PodCountRows::counts_refusal, crate::specs::PodCountRows::counts_in))]
pub fn read_counts(alloc: Global, spec: &Value, path: &Trail) -> Result<Counts, ManifestFault>
    ensures { Reads (λ counts. counts) result (counts_refusal path.now (view spec.now))
        (counts_in path.now (view spec.now)) }
{
    let numbers = read_numbers(alloc, spec, path)?;
    let mode = read_mode(alloc, spec, path)?;
    check_indexed(path, mode, numbers.completions)?;
    Ok(Counts {
        parallelism: numbers.parallelism,
        completions: numbers.completions,
        mode,
    })
}
