// Command lines and their answers, as bytes: ten hexadecimal digits in, ten and a line feed out.
#![tactic(auto)]

pub mod answer;
pub mod line;
