//! Verdicts of the plain program on journals, and the counters of one.

mod changes;
mod journals;
mod single;
mod verdicts;
