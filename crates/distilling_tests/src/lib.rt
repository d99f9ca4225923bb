//! Profiles, masks and images of small programs: tests of `access_trace`, `profiler`, `load_values`,
//! `liveness` and `distiller`.
#![tactic(auto)]

#[cfg(test)]
mod access_trace_cases;
#[cfg(test)]
mod distiller_cases;
#[cfg(test)]
mod liveness_cases;
#[cfg(test)]
mod load_cases;
#[cfg(test)]
mod printing_cases;
#[cfg(test)]
mod profiler_cases;
#[cfg(test)]
mod programs;
#[cfg(test)]
mod value_cases;
