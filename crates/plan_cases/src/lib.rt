//! Statements bound to small cubes: what refuses them, what they ask by coordinates, and drawn ones against a
//! plain reading.
#![tactic(auto)]

#[cfg(test)]
mod cubes;
#[cfg(test)]
mod drawn;
#[cfg(test)]
mod refusals;
#[cfg(test)]
mod worked;
