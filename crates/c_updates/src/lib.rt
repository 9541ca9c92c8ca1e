// The calls for C, C++ and Rust that change the network of a map: plain numbers, and slices as pointer and length. Each has the promise of the call
// that it wraps and asks nothing: bad input gets its numbered refusal, and then nothing lent has changed, the lent numbers included.

#![tactic(auto)]

mod batches;
mod updates;
