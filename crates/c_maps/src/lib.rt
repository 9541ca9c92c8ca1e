// The calls for C, C++ and Rust that ask a map, empty it or reckon it, and the version of the interface: plain numbers, and slices as pointer and
// length. Each has the promise of the call that it wraps and asks nothing: bad input gets its numbered refusal, and then nothing lent has changed,
// the lent numbers included. The record of a map is lent as eleven words: the open set (four), the number open, the longest chain, the pair count,
// the yard set (four).

#![tactic(auto)]

mod maps;
mod near;
mod summing;
mod version;
