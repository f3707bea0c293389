//! Cases of a shard, by its public calls.
#![tactic(auto)]

#[cfg(test)]
mod checks;
#[cfg(test)]
mod drawn;
#[cfg(test)]
mod draws;
#[cfg(test)]
mod making;
#[cfg(test)]
mod past;
#[cfg(test)]
mod plain_copies;
#[cfg(test)]
mod plain_lines;
#[cfg(test)]
mod two_cubes;
#[cfg(test)]
mod worked;
