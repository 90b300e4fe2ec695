//! Tests of the words of the command line, of inputs, of outputs and of gates, on worked examples.
#![tactic(auto)]

#[cfg(test)]
mod helpers;
#[cfg(test)]
mod input;
#[cfg(test)]
mod meeting;
#[cfg(test)]
mod output;
#[cfg(test)]
mod perform;
#[cfg(test)]
mod program;
#[cfg(test)]
mod words;
