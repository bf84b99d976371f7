// The second program: runs lists of calls and prints a picture of what each session leaves.
#![tactic(auto)]

fn main(rt: HostRuntime) {
    program::start(
        rt,
        b"picture",
        b"picture [FILE..]

Runs lists of calls of the SSA builder and prints a picture of what each session leaves, as text in Graphviz's
language DOT: the lists of the files, or of standard input if no file is named. A list is a line with its
number of calls, then a line `kind x y z` for each call; lists follow each other, and so do their pictures.
`dot -Tsvg` draws the first of them.

--help   prints this

A block is a box with its parameters, b1(v1,v3). An arrow is a destination of its branch, with the arguments
as they are stored: an alias stands under its own number.

A list that can't be read, or has more calls than a session takes, gets no picture but a message on standard
error. The exit status is always 0: a program of this language can set no other, so a script looks whether
anything stands there.
",
        program::Show::Picture,
    );
}
