// What the program says of itself.

// Of wrong usage, in one line.
pub(crate) const LINE: &str = "Usage: follow < NOTICES > REPORTS (follow --help says more)\n";

// With `--help` as its only argument.
pub(crate) const TEXT: &str = "Usage: follow < NOTICES > REPORTS

Follows notices of depots and yards that open and of links between them, and keeps the
longest chain of handovers.

In: a notice a line, in upper-case hexadecimal digits without spaces. An opening is 01,
the code, the number of neighbours, the neighbours, two digits each: 010503000204
opens 5 beside 0, 2 and 4. With 04 for 01 it opens a transit yard: chains run through
it, and none ends there. A link is 02 and two codes: 020105 links 1 and 5, which are
open. At most 1,000,000 lines are read.

Out: a report a line: line number; what happened; depots open; longest chain;
farthest pairs; searches of this notice. What happened is
  G   the longest chain grew
  K   it was kept
  S   it shrank
  R4  refused, absent: a depot to be linked is not open
  R5  refused, taken: the code is open
  R6  refused, lonely: no neighbours, and the map is not empty
  R7  refused, unsorted: the neighbours are not strictly rising
  R8  refused, unknown: a neighbour is not open
  R9  refused, garbled: the line is no notice
  R13 refused, itself: a depot is to be linked with itself
  R14 refused, linked: the link is there
A refused notice changes nothing.

The exit status is 0 where all that came in was answered, refused lines too; 1 where a
read or a write failed, which standard error names; 2 for any argument but --help alone.
";
