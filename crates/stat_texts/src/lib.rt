//! What a file has, counted, as text: in columns, and as one JSON object.
#![tactic(auto)]

mod columns;
mod json;
mod numbers;

pub use columns::push_columns;
pub use json::push_json;
