//! The two ends on examples: ends of real keys, and ends whose cipher changes nothing or whose tag never changes.
#![tactic(auto)]

#[cfg(test)]
mod alone;
#[cfg(test)]
mod any_end;
#[cfg(test)]
mod circuit;
#[cfg(test)]
mod coincidences;
#[cfg(test)]
mod equal_keys;
#[cfg(test)]
mod forged;
#[cfg(test)]
mod marked;
#[cfg(test)]
mod passing;
#[cfg(test)]
mod records;
#[cfg(test)]
mod refusals;
#[cfg(test)]
mod texts;
#[cfg(test)]
mod toys;
#[cfg(test)]
mod windows;
