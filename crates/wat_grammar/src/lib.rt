//! The rules of the WebAssembly text format for tokens, numbers and strings, as definitions that
//! compute. There is no code: contracts of `wat_tokens` cite the definitions. `InstrRows` has the
//! text and the opcode of each instruction, and `wasm_ops` cites it too.
#![tactic(auto)]

mod examples;
