//! The rules of the WebAssembly text format from tokens to types, expressions and fields, as
//! definitions that compute. There is no code: contracts of `wat_text` cite the definitions.
#![tactic(auto)]

mod examples;
