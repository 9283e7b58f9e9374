//! The calls for a caller that holds buffers of its own: the tests of the translators, the readers and the
//! states.
#![tactic(auto)]

#[cfg(test)]
mod pure;
#[cfg(test)]
mod states;
#[cfg(test)]
mod streams;
#[cfg(test)]
mod tests;
#[cfg(test)]
mod translators;
