//! Plays that are worked out by the definitions: what each script's events are answered, and what is counted then. Each
//! function is empty; a definition that says something else is refused here.

ghost use Rattle.std.specs.Prelude.{◌≡◌, ◌∷◌, [], Some, false, map, true};
ghost use Rattle.jc_types.specs.declared.runs.Past.{Past};
ghost use Rattle.jc_types.specs.declared.statuses.CondKind.TheVariants.{Complete, Failed, FailureTarget, SuccessCriteriaMet, Suspended};
ghost use Rattle.jc_types.specs.declared.statuses.Reason.TheVariants as reason;
ghost use Rattle.jc_history.specs.Play.{whole_play};
ghost use Rattle.jc_history.specs.SampleReplies.{elastic_replies, failed_index_replies, unfailing_replies, backoff_limit_replies, conflict_replies, deadline_replies, dropped_creation_replies, failing_exit_replies, indexes_replies};
ghost use Rattle.jc_history.specs.SampleReplies.{lagging_cache_replies, late_let_go_replies, lost_creation_replies, lost_status_replies, made_again_replies, marked_pod_replies, one_index_twice_replies, one_pod_replies, refusals_replies};
ghost use Rattle.jc_history.specs.SampleReplies.{replacement_replies, restart_replies, restarted_container_replies, suspension_replies, window_replies};
ghost use Rattle.jc_history.specs.SampleScripts.{elastic_script, failed_index_script, unfailing_script, backoff_limit_script, conflict_script, deadline_script, dropped_creation_script, failing_exit_script, indexes_script};
ghost use Rattle.jc_history.specs.SampleScripts.{lagging_cache_script, late_let_go_script, lost_creation_script, lost_status_script, made_again_script, marked_pod_script, one_index_twice_script, one_pod_script, refusals_script};
ghost use Rattle.jc_history.specs.SampleScripts.{replacement_script, restart_script, restarted_container_script, suspension_script, window_script, settling_script, ignoring_script};
ghost use Rattle.jc_history.specs.Samples.{failed_once, narrow_window, sample_shape, told_conditions, told_counts, told_failed, told_indexes, told_replies, told_verdicts, verdict_counts, both_true, two_controllers, usual_shape};

/// Restarts, lagging caches, conflicts and requests that are not answered, each at the worst moment.
pub fn lost_events_play()
    ensures one_pod { told_replies one_pod_script usual_shape ≡ one_pod_replies }
    ensures one_pod_counts { told_counts one_pod_script usual_shape ≡ Some (1, 0) }
    ensures restart { told_replies restart_script usual_shape ≡ restart_replies }
    ensures restart_counts { told_counts restart_script usual_shape ≡ Some (1, 0) }
    ensures lagging_cache { told_replies lagging_cache_script usual_shape ≡ lagging_cache_replies }
    ensures lagging_cache_counts { told_counts lagging_cache_script usual_shape ≡ Some (1, 0) }
    ensures conflict { told_replies conflict_script usual_shape ≡ conflict_replies }
    ensures conflict_counts { told_counts conflict_script usual_shape ≡ Some (1, 0) }
    ensures lost_status { told_replies lost_status_script usual_shape ≡ lost_status_replies }
    ensures lost_status_counts { told_counts lost_status_script usual_shape ≡ Some (1, 0) }
    ensures lost_creation { told_replies lost_creation_script usual_shape ≡ lost_creation_replies }
    ensures lost_creation_counts { told_counts lost_creation_script usual_shape ≡ Some (0, 0) }
    ensures dropped_creation { told_replies dropped_creation_script usual_shape
        ≡ dropped_creation_replies }
    ensures dropped_creation_counts { told_counts dropped_creation_script usual_shape
        ≡ Some (0, 0) }
    ensures one_pod_conditions { told_conditions one_pod_script usual_shape
        ≡ Some (both_true SuccessCriteriaMet Complete reason.CompletionsReached) }
    ensures one_pod_verdicts { told_verdicts one_pod_script usual_shape 1 ≡ verdict_counts 1 0 0 }
{}

/// Marked pods, policies, limits, deadlines and suspension.
pub fn policies_play()
    ensures marked_pod { told_replies marked_pod_script usual_shape ≡ marked_pod_replies }
    ensures marked_pod_counts { told_counts marked_pod_script usual_shape ≡ Some (0, 1) }
    ensures replacement { told_replies replacement_script usual_shape ≡ replacement_replies }
    ensures replacement_counts { told_counts replacement_script usual_shape ≡ Some (0, 1) }
    ensures backoff_limit { told_replies backoff_limit_script usual_shape ≡ backoff_limit_replies }
    ensures backoff_limit_counts { told_counts backoff_limit_script usual_shape ≡ Some (0, 1) }
    ensures failing_exit { told_replies failing_exit_script usual_shape ≡ failing_exit_replies }
    ensures failing_exit_counts { told_counts failing_exit_script usual_shape ≡ Some (0, 1) }
    ensures deadline { told_replies deadline_script usual_shape ≡ deadline_replies }
    ensures deadline_counts { told_counts deadline_script usual_shape ≡ Some (2, 1) }
    ensures restarted_container { told_replies restarted_container_script usual_shape
        ≡ restarted_container_replies }
    ensures restarted_container_counts { told_counts restarted_container_script usual_shape
        ≡ Some (0, 1) }
    ensures suspension { told_replies suspension_script usual_shape ≡ suspension_replies }
    ensures suspension_counts { told_counts suspension_script usual_shape ≡ Some (0, 0) }
    ensures marked_pod_verdicts { told_verdicts marked_pod_script usual_shape 1
        ≡ verdict_counts 0 1 0 }
    ensures backoff_limit_conditions { told_conditions backoff_limit_script usual_shape
        ≡ Some (both_true FailureTarget Failed reason.BackoffLimitExceeded) }
    ensures failing_exit_conditions { told_conditions failing_exit_script usual_shape
        ≡ Some (both_true FailureTarget Failed reason.PodFailurePolicy) }
    ensures deadline_conditions { told_conditions deadline_script usual_shape
        ≡ Some (both_true FailureTarget Failed reason.DeadlineExceeded) }
    ensures restarted_container_conditions { told_conditions restarted_container_script usual_shape
        ≡ Some (both_true FailureTarget Failed reason.BackoffLimitExceeded) }
    ensures deadline_indexes { told_indexes deadline_script usual_shape ≡ Some (0 ∷ 1 ∷ []) }
    ensures suspension_conditions { told_conditions suspension_script usual_shape
        ≡ Some ((Suspended, false, reason.JobResumed) ∷ []) }
{}

/// Indexed Jobs, several controllers, let-goes and Jobs that are made again.
pub fn several_pods_play()
    ensures indexes { told_replies indexes_script usual_shape ≡ indexes_replies }
    ensures indexes_counts { told_counts indexes_script usual_shape ≡ Some (4, 0) }
    ensures one_index_twice { told_replies one_index_twice_script two_controllers
        ≡ one_index_twice_replies }
    ensures one_index_twice_counts { told_counts one_index_twice_script two_controllers
        ≡ Some (1, 0) }
    ensures late_let_go { told_replies late_let_go_script usual_shape ≡ late_let_go_replies }
    ensures late_let_go_counts { told_counts late_let_go_script usual_shape ≡ Some (1, 0) }
    ensures made_again { told_replies made_again_script two_controllers ≡ made_again_replies }
    ensures made_again_counts { told_counts made_again_script two_controllers ≡ Some (0, 0) }
    ensures indexes_completed { told_indexes indexes_script usual_shape
        ≡ Some (1 ∷ 2 ∷ 3 ∷ 4 ∷ []) }
    ensures indexes_verdicts { told_verdicts indexes_script usual_shape 1 ≡ verdict_counts 4 0 4 }
    ensures one_index_twice_completed { told_indexes one_index_twice_script two_controllers
        ≡ Some (0 ∷ []) }
    ensures one_index_twice_verdicts { told_verdicts one_index_twice_script two_controllers 1
        ≡ verdict_counts 2 0 1 }
    ensures made_again_verdicts { told_verdicts made_again_script two_controllers 3
        ≡ verdict_counts 0 0 0 }
{}

/// Indexed Jobs whose number of indexes changes, and limits for each index (KEP-3715, KEP-3850).
pub fn changed_indexes_play()
    ensures elastic { told_replies elastic_script usual_shape ≡ elastic_replies }
    ensures elastic_counts { told_counts elastic_script usual_shape ≡ Some (1, 0) }
    ensures elastic_completed { told_indexes elastic_script usual_shape ≡ Some (1 ∷ []) }
    ensures elastic_verdicts { told_verdicts elastic_script usual_shape 1 ≡ verdict_counts 2 0 1 }
    ensures failed_index { told_replies failed_index_script usual_shape ≡ failed_index_replies }
    ensures failed_index_counts { told_counts failed_index_script usual_shape ≡ Some (1, 1) }
    ensures failed_index_conditions { told_conditions failed_index_script usual_shape
        ≡ Some (both_true FailureTarget Failed reason.FailedIndexes) }
    ensures failed_index_failed { told_failed failed_index_script usual_shape
        ≡ Some (0 ∷ [], failed_once 0 false ∷ []) }
    ensures failed_index_verdicts { told_verdicts failed_index_script usual_shape 1
        ≡ verdict_counts 1 1 1 }
    ensures unfailing { told_replies unfailing_script usual_shape ≡ unfailing_replies }
    ensures unfailing_conditions { told_conditions unfailing_script usual_shape
        ≡ Some (both_true FailureTarget Failed reason.MaxFailedIndexesExceeded) }
    ensures unfailing_failed { told_failed unfailing_script usual_shape
        ≡ Some (0 ∷ [], failed_once 0 true ∷ []) }
{}

/// What is refused, and a cache that has fallen out of the window.
pub fn refusals_play()
    ensures window { told_replies window_script narrow_window ≡ window_replies }
    ensures refusals { told_replies refusals_script usual_shape ≡ refusals_replies }
    ensures refusals_counts { told_counts refusals_script usual_shape ≡ Some (0, 0) }
{}

/// A settle does all that there is to do, and a play that has all its events is full where one more is to come.
pub fn settling_plays()
    ensures counts { told_counts settling_script (sample_shape 1 1000 60) ≡ Some (1, 0) }
    ensures ends { (whole_play settling_script (sample_shape 1 1000 60)).full ≡ false }
    ensures full { (whole_play settling_script (sample_shape 1 1000 5)).full ≡ true }
    ensures lengths { map (λ (past : Past). past.length.0)
        (whole_play settling_script (sample_shape 1 1000 5)).pasts ≡ 1 ∷ 1 ∷ 1 ∷ 1 ∷ 1 ∷ [] }
    ensures settling_verdicts { told_verdicts settling_script (sample_shape 1 1000 60) 1
        ≡ verdict_counts 1 0 0 }
    ensures ignoring_counts { told_counts ignoring_script (sample_shape 1 1000 60) ≡ Some (0, 0) }
    ensures ignoring_verdicts { told_verdicts ignoring_script (sample_shape 1 1000 60) 1
        ≡ verdict_counts 0 0 0 }
    ensures ignoring_full { (whole_play ignoring_script (sample_shape 1 1000 60)).full ≡ true }
{}
