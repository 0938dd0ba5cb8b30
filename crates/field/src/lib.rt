// The bytes of one field: classes of bytes, digits and numbers, signs, texts. Every function takes every input; none knows of MIGRA's files.
#![tactic(auto)]

pub mod class;
pub mod number;
pub mod words;
