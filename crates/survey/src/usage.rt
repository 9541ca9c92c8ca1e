// What the program says of itself, with `--help` as its only argument.

pub(crate) const TEXT: &str = "Usage: survey FILE.. > REPORTS

Follows files of notices of depots and yards that open and of links between them, each
from an empty map, as `follow` does, and reports what all pairs of its depots need.

In: each argument names a file, and the first 1,000 files are read. A file that is called
--help is ./--help, where it is the only one.

Out: a line a file, in the order of the arguments: handovers summed up over all pairs of
depots that deliver; pairs; their mean as quotient and remainder. Where fewer than two
depots deliver the line is R15, and so it is where the file cannot be read. A last line
has the same of all files together.

The exit status is 0 where all files were read; 1 where a file could not be read or a
write failed, which standard error names.
";
