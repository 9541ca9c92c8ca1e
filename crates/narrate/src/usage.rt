// What the program says of itself.

// Of wrong usage, in one line.
pub(crate) const LINE: &str = "Usage: narrate < NOTICES > SENTENCES (narrate --help says more)\n";

// With `--help` as its only argument.
pub(crate) const TEXT: &str = "Usage: narrate < NOTICES > SENTENCES

Follows notices of depots and yards that open and of links between them, as `follow`
does, and tells what each came to in a sentence, for screens in the hall.

In: a notice a line, in upper-case hexadecimal digits without spaces. An opening is 01,
the code, the number of neighbours, the neighbours, two digits each; with 04 for 01 it
opens a transit yard. A link is 02 and two codes. At most 1,000,000 lines are read.

Out: a sentence a line, such as
  Opening depot 5 shrank the chain: 6 open, chain 3, pairs 2, searches 6.
with the depots open, the longest chain, the farthest pairs and the searches of this
notice. A yard has `Opening yard 5`, a link `Linking 3 and 5`; besides are `grew the
chain`, `kept the chain` and `was refused with 7`, the number being that of `follow`.
A line that is no notice names none of these, and has the line that `follow` prints.

The exit status is 0 where all that came in was answered, refused lines too; 1 where a
read or a write failed, which standard error names; 2 for any argument but --help alone.
";
