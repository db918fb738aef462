//! Reading a set from its text.
ghost use Rattle.std.specs.Prelude.{◌≡◌, ℕ, ◌⊎◌, List, IfOk, MatchResult};
ghost use Rattle.std.specs.List.{flat_map};
ghost use Rattle.jc_ranges.specs.Sets.{IsSet};
ghost use Rattle.jc_ranges.specs.Texts.{numbers, StandApart, NamesSet, BreaksAt, ranges_text};
ghost use Rattle.jc_ranges.specs.Runs.{IsFaultOf};

use crate::Want;
use crate::elements::{place_of, read_element};
use crate::runs::{Run, push_numbers};
use crate::set::Ranges;
use std::alloc::Global;

/// Why a text was not read as a set.
#[derive(Clone, Copy, Debug, PartialEq, Eq)]
pub enum RangesFault {
    /// The text is not of the form. The first element that breaks it begins at byte `at`.
    BadRanges { at: usize },
    /// Memory was refused.
    Want,
}

impl From<Want> for RangesFault {
    ghost use Rattle.std.specs.Prelude.{◌≡◌};
    ghost use Rattle.jc_ranges.specs.declared.parse.RangesFault.{RangesFault};

    ghost from_gives = { λ _ fault. fault ≡ RangesFault.Want };

    fn from(_want: Want) -> RangesFault {
        RangesFault::Want
    }
}

impl Ranges {
    /// The set that a text names, leniently: the elements are joined by commas; an element is `n`,
    /// or `n-m` with `n` less than `m`; the numbers are decimal, without leading zeros, and at most
    /// 99,999; each element begins above the end of the one before. The empty text names the empty
    /// set.
    ///
    /// # Errors
    ///
    /// `BadRanges`: the text is not of this form. `Want`: memory was refused.
    pub fn parse(alloc: Global, text: &[u8]) -> Result<Ranges, RangesFault>
        ensures named { IfOk result (λ set. NamesSet text.now set) }
        ensures read { (xs : List ℕ) → NamesSet text.now xs
            → MatchResult result (λ set. set ≡ xs) (λ fault. fault ≡ RangesFault.Want) }
        ensures broken { (at : ℕ) → result ≡ Err (RangesFault.BadRanges at) → BreaksAt text.now at }
        ensures refused { (at : ℕ) → BreaksAt text.now at
            → MatchResult result (λ set. ⊥)
            (λ fault. (fault ≡ RangesFault.BadRanges at) ⊎ (fault ≡ RangesFault.Want)) }
        ensures back { (xs : List ℕ) → IsSet xs → text.now ≡ ranges_text xs
            → MatchResult result (λ set. set ≡ xs) (λ fault. fault ≡ RangesFault.Want) }
    {
        let runs = read_elements(alloc, text)?;
        let set = Ranges::from_runs(alloc, runs)?;
        Ok(set)
    }
}

// The runs of the numbers that the elements of a text name.
fn read_elements(alloc: Global, text: &[u8]) -> Result<Vec<Run>, RangesFault>
    ensures named { MatchResult result (λ runs. NamesSet text.now (flat_map numbers runs.items))
        (λ fault. IsFaultOf text.now fault) }
    ensures apart { IfOk result (λ runs. StandApart 0 runs.items) }
{
    let mut runs = Vec::new(alloc);
    if text.is_empty() {
        return Ok(runs);
    }
    let mut low = 0;
    let mut at = 0;
    let mut rest = text;
    loop {
        let comma = place_of(rest, b',');
        let element = &rest[..comma.unwrap_or(rest.len())];
        let Some((first, last)) = read_element(element, low) else {
            return Err(RangesFault::BadRanges { at });
        };
        push_numbers(&mut runs, first, last)?;
        let Some(comma) = comma else {
            return Ok(runs);
        };
        low = last + 1;
        at += comma + 1;
        rest = &rest[comma + 1..];
    }
}
