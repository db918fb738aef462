//! The text of a set.
ghost use Rattle.std.specs.Prelude.{◌≡◌, ◌≤◌, ◌++◌, IfOk, OnOk, string_bytes};
ghost use Rattle.jc_ranges.specs.Texts.{ranges_text, joined, written};

use crate::Want;
use crate::runs::Run;
use crate::set::Ranges;

impl Ranges {
    /// The text of the set, in the form of a Job's completed indexes (KEP-2214): the members in
    /// increasing order, joined by commas. A maximal run of three or more consecutive numbers is
    /// written as `first-last`. The empty set has the empty text.
    ///
    /// # Errors
    ///
    /// `Want`: memory was refused.
    pub fn text(&self) -> Result<String, Want>
        ensures { IfOk result (λ t. string_bytes t ≡ ranges_text self.now) }
    {
        let mut out = String::new(self.allocator());
        let runs = self.as_runs();
        if runs.is_empty() {
            return Ok(out);
        }
        write_run(&mut out, runs[0])?;
        for run in &runs[1..] {
            out.push(',')?;
            write_run(&mut out, *run)?;
        }
        Ok(out)
    }
}

// Writes a maximal run behind the text.
fn write_run(out: &mut String, run: Run) -> Result<(), Want>
    requires { run.first ≤ run.last }
    ensures { OnOk result (string_bytes out.new ≡ string_bytes out.old ++ joined (written run)) }
{
    let Run { first, last } = run;
    if first == last {
        write!(out, "{first}")
    } else if last - first == 1 {
        write!(out, "{first},{last}")
    } else {
        write!(out, "{first}-{last}")
    }
}
