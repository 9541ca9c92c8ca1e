// Tests of the loops that read and write, with readers and writers that fail in mid-stream; and of
// whole outputs, since no clause can say why an error comes.
#![tactic(auto)]

#[cfg(test)]
mod tests;
