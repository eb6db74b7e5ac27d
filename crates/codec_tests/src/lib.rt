//! The tests of frames and answers, through the public calls of their codec alone.
#![tactic(auto)]

#[cfg(test)]
mod answers;
#[cfg(test)]
mod frames;
#[cfg(test)]
mod longest;
#[cfg(test)]
mod texts;
