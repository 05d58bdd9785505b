//! Tests of texts: what their lines say, the canonical text, and the text of a seed. What a text comes to, and why
//! another is refused, `.ci/check-rows` and `.ci/check-refusals` try through the built program.
#![tactic(auto)]

#[cfg(test)]
mod canonical;
#[cfg(test)]
mod generator;
#[cfg(test)]
mod race_texts;
#[cfg(test)]
mod reader;
#[cfg(test)]
mod record;
#[cfg(test)]
mod run_texts;
