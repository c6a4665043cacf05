// The environment as bytes: the standard one written, the test of the form, and the table in force copied out.
#![tactic(auto)]

pub mod basis;
pub mod form;
mod names;
pub mod out;
