// The program: runs lists of calls and prints what each session leaves, line by line.
#![tactic(auto)]

fn main(rt: HostRuntime) {
    program::start(
        rt,
        b"sangvireb",
        b"sangvireb [--words] [FILE..]

Runs lists of calls of the SSA builder and prints what each session leaves: the lists of the files, or of
standard input if no file is named. A list is a line with its number of calls, then a line `kind x y z` for
each call; lists follow each other.

--words  prints words instead of letters
--help   prints this

The exit status is always 0: a program of this language can set no other. What can't be read or written is
told on standard error, so a script looks whether anything stands there. A list that was not read whole has
no END.

S code                      0 run, 2 refused whole: more calls than a session takes
C counts                    blocks, variables, values, made values, zeros
A call code number          the answer to a call; code 0 is accepted
V value sort type block target
                            sort 0 made, 1 parameter, 2 zero, 3 caller's parameter; the target is the value itself, or
                            what replaces it
K value bits                the bits that a zero holds, in hexadecimal: its type's unset value
P block values              the block's parameters, the caller's first
B block count               its branch has so many destinations
D block place to values     a destination of its branch, with the arguments
R block blocks              its predecessors
U block variables           its pending variables
E block mark                1 if it is sealed
L block variable value+1    the value that it records last for the variable, plus one
Z row call block            a row of the zero log
M variables                 the variables marked for stack maps
W values                    the values recorded for them
O blocks                    the blocks in the order placed
END                         of the list
",
        program::Show::Letters,
    );
}
