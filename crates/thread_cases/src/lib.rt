//! Cases of works on threads: sessions, workers and a flusher over cells that count.
#![tactic(auto)]

#[cfg(test)]
mod counts;
