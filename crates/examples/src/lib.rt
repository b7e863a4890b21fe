// Worked examples, above all layers: what the definitions say of strings whose meaning is known beforehand.
#![tactic(auto)]

pub mod checked;
#[cfg(test)]
mod tests;
