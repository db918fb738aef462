//! Laws on plain data. Each function is empty: what it ensures holds of all values, and its callers
//! may cite it.

ghost use Rattle.jc_types.specs.Equality.{IsExact, same_backoff, same_job, same_pod, same_spec, same_status};

/// The tests of equality that compute are true just of equal values.
pub fn tests_are_exact()
    ensures status { IsExact same_status }
    ensures spec { IsExact same_spec }
    ensures job { IsExact same_job }
    ensures pod { IsExact same_pod }
    ensures backoff { IsExact same_backoff }
{}
