// The referee's report: a record reopened with its solution and laid out move by move, or refused. Thin: every answer
// is the library's, every picture and every refusal's words are those of the console.
#![tactic(auto)]

mod start;
mod story;

pub use start::run;
