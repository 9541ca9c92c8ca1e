// The calls for C, C++ and Rust on notice lines, report lines and the stream of them: plain numbers, and slices as pointer and length. Each has the
// promise of the call that it wraps and asks nothing: bad input gets its numbered refusal, and then nothing lent has changed, the lent numbers
// included.

#![tactic(auto)]

mod streams;
mod texts;
