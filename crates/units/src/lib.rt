// What number a float is, and what rounding does to it: laws, in specs/ and proofs/. And how a call is refused.

#![tactic(auto)]

mod refusal;

pub use refusal::Refusal;
