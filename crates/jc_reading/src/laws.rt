//! Laws on what is read back of the lines of events. Each function is empty: what it ensures holds of
//! every line, and its callers may cite it.

ghost use Rattle.std.specs.Prelude.{◌≡◌, ◌++◌, ◌<◌, ◌^◌, ◌∷◌, List, None, Ok, Some, ℕ, ◌≤◌, true};
ghost use Rattle.std.specs.List.{AllByRecursion as Each};
ghost use Rattle.std.specs.Str.{is_utf8};
ghost use Rattle.serde_json.specs.Data.{Data, depth};
ghost use Rattle.serde_json.specs.Read.{max_depth, read};
ghost use Rattle.serde_json.specs.Written.{compact_text};
ghost use Rattle.jc_json.specs.Line.{data_of};
ghost use Rattle.jc_log.specs.Deeds.{act_of_action};
ghost use Rattle.jc_manifest.specs.Manifests.{key_of, manifest_refusal, spec_of};
ghost use Rattle.jc_print.specs.PrintedSpecs.{spec_data};
ghost use Rattle.jc_script.specs.Scripts.{script_of};
ghost use Rattle.jc_types.specs.declared.actions.Action1.{Action1};
ghost use Rattle.jc_types.specs.declared.actions.Action1.TheVariants.{Create};
ghost use Rattle.jc_types.specs.declared.actions.Command.{Command};
ghost use Rattle.jc_types.specs.declared.actions.End.{End};
ghost use Rattle.jc_types.specs.declared.actions.PhaseChange.{PhaseChange};
ghost use Rattle.jc_types.specs.declared.actions.SpecChange.{SpecChange};
ghost use Rattle.jc_types.specs.declared.objects.KeyNames.{KeyNames as Key};
ghost use Rattle.jc_types.specs.declared.runs.Shape.{Shape};
ghost use Rattle.jc_types.specs.declared.specifications.JobSpec.{JobSpec};
ghost use Rattle.jc_lines.specs.ActTexts.{act_text};
ghost use Rattle.jc_reading.specs.Allowed.{IsAllowedKey, IsAllowedSpec};
ghost use Rattle.jc_reading.specs.Compact.{IsTold};
ghost use Rattle.jc_reading.specs.Cuts.{IsWord};
ghost use Rattle.jc_reading.specs.Manifested.{manifest_data};
ghost use Rattle.jc_reading.specs.Proper.{AreAllowedEnds, HasUnicodeTypes, IsAllowedChange, IsAllowedReport, IsProperAction, IsProperCommand, as_begin};
ghost use Rattle.jc_reading.specs.LineReadings.{action_read};
ghost use Rattle.jc_reading.specs.Reads.{IsProperRead, act_of_line, begun_read, event_said, front_text};
ghost use Rattle.jc_reading.specs.Spelled.{IsSpelled};
ghost use Rattle.jc_reading.specs.Turned.{ReadAsEnds, ReadsAsChange, ReadsAsJob, ReadsAsReport};
ghost use Rattle.jc_reading.specs.declared.reads.LineRead.{LineRead};

/// The compact text of a value reads as the value.
#[tactic(auto, using(crate::proofs::CompactFacts::compact_text_told))]
pub fn compact_texts_tell()
    ensures { (d : Data) → IsTold d → depth d ≤ max_depth → read (compact_text d) ≡ Some d }
{}

/// A specification that is printed, and turned into a manifest of a Job of that key, is read back.
pub fn printed_specs_are_read_back()
    ensures accepted { (path : List ℕ) (key : Key) (spec : JobSpec)
        → IsAllowedKey key → IsAllowedSpec spec
        → manifest_refusal path (manifest_data key (spec_data spec)) ≡ None }
    ensures key { (path : List ℕ) (key : Key) (spec : JobSpec)
        → key_of path (manifest_data key (spec_data spec)) ≡ key }
    ensures spec { (path : List ℕ) (key : Key) (spec : JobSpec) → IsAllowedSpec spec
        → spec_of path (manifest_data key (spec_data spec)) ≡ spec }
{}

/// The compact text of a value is one word of a line.
#[tactic(auto, using(crate::proofs::CutFacts::text_word))]
pub fn compact_texts_are_words()
    ensures { (d : Data) → IsWord (compact_text d) }
{}

/// What is printed of an allowed part of a command says that part again, where it stands in a script:
/// its text reads as the printed value, and the reader of scripts gives the part of it.
pub fn printed_parts_are_read_back()
    ensures job { (key : Key) (spec : JobSpec) → IsAllowedKey key → IsAllowedSpec spec
        → HasUnicodeTypes spec → ReadsAsJob key spec }
    ensures change { (change : SpecChange) → IsAllowedChange change → ReadsAsChange change }
    ensures report { (change : PhaseChange) → IsAllowedReport change → ReadsAsReport change }
    ensures ends { (ends : List End) → AreAllowedEnds ends → ReadAsEnds ends }
{}

/// What is printed of a proper command's act is read back, with the begin in a sync's place.
#[tactic(auto, using(crate::proofs::ReadFacts::action_again))]
pub fn printed_acts_are_read_back()
    ensures { (action : Action1) (more : List ℕ) → IsProperAction action
        → action_read (act_text (act_of_action action) ++ 32 ∷ more) ≡ Some (as_begin action) }
{}

/// What is printed of a proper event before its reply is read back, whatever follows it, with the
/// begin in a sync's place.
#[tactic(auto, using(crate::proofs::ReadFacts::event_again))]
pub fn printed_fronts_are_read_back()
    ensures { (n : ℕ) (read : LineRead) (rest : List ℕ) → n < 2 ^ 64 → IsProperRead read
        → event_said (front_text n read.lane (act_of_line read.act) ++ rest)
        ≡ Some (begun_read read) }
{}

/// The key and the specification that an accepted manifest says are such as its table allows: so
/// they are printed and read back.
pub fn accepted_manifests_are_allowed()
    ensures spec { (path : List ℕ) (job : Data) → manifest_refusal path job ≡ None
        → IsAllowedSpec (spec_of path job) }
    ensures key { (path : List ℕ) (job : Data) → manifest_refusal path job ≡ None
        → IsAllowedKey (key_of path job) }
{}

/// A Job that is created as an accepted manifest says is proper, where the texts of the manifest are
/// Unicode, as those of a line are.
pub fn accepted_jobs_are_proper()
    ensures { (path : List ℕ) (job : Data) → IsSpelled job → manifest_refusal path job ≡ None
        → IsProperAction (Create (key_of path job) (spec_of path job)) }
{}

/// What an accepted manifest says is read back, where its printed text is Unicode: the text of the
/// specification reads as its value, and the manifest that this value is turned into says the same.
pub fn accepted_jobs_are_read_back()
    ensures { (path : List ℕ) (job : Data) → manifest_refusal path job ≡ None
        → is_utf8 (compact_text (spec_data (spec_of path job))) ≡ true
        → ReadsAsJob (key_of path job) (spec_of path job) }
{}

/// The value that a line spells has texts in it that are Unicode, whatever escapes they are spelled with, and the members
/// of its objects stand in ascending order of their names.
#[tactic(auto, using(crate::proofs::SpelledFacts::spelled_value))]
pub fn lines_spell_texts()
    ensures { (line : List ℕ) (d : Data) → data_of line ≡ Some d → IsSpelled d }
{}

/// **The commands of a script that was read are proper**, each in every part: so what they do is printed in lines that
/// are read back.
pub fn read_scripts_are_proper()
    ensures { (shape : Shape) (text : List ℕ) (commands : List Command)
        → 0 < shape.controllers → shape.controllers ≤ 4 → 0 < shape.workers → shape.workers ≤ 16
        → script_of shape text ≡ Ok commands → Each IsProperCommand commands }
{}
