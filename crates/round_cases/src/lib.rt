//! Cases of headers and rounds: bytes written by an independent program, read and written again.
#![tactic(auto)]

#[cfg(test)]
mod faults;
#[cfg(test)]
mod headers;
#[cfg(test)]
mod rounds;
