// The listings of the images that are run.

/// Cores 1 and 3, each of which sends a word and takes one, again and again.
pub const ENDLESS: &str = "\
.core 1
.ends 1
.root 0
0: LDC r0, 16777218
1: LDC r1, 5
2: OUT r0, r1
3: IN r2, r0
4: ADD r1, r1, r2
5: BRBU 2
.core 3
.ends 1
.root 0
0: LDC r0, 50331650
1: LDC r1, 6
2: OUT r0, r1
3: IN r2, r0
4: ADD r1, r1, r2
5: BRBU 2
.chan 1 0 3 0
";

/// Core 0 sends the words 1 to 100, each with its answer, and ends; core 3 takes and answers them, and ends.
pub const HUNDRED: &str = "\
.core 0
.ends 1
.root 0
0: LDC r0, 2
1: LDC r1, 1
2: LDC r2, 101
3: OUT r0, r1
4: OUTCT r0, 1
5: CHKCT r0, 3
6: ADDI r1, r1, 1
7: EQ r3, r1, r2
8: BRBF r3, 3
9: FREET
.core 3
.ends 1
.root 0
0: LDC r0, 50331650
1: LDC r1, 0
2: LDC r2, 100
3: IN r3, r0
4: CHKCT r0, 1
5: OUTCT r0, 3
6: ADDI r1, r1, 1
7: EQ r4, r1, r2
8: BRBF r4, 3
9: FREET
.chan 0 0 3 0
";

/// Core 1 sends three words, and ends: for the third it waits until the first one's credits are back. Core 3 takes three words, and ends.
pub const THREE_WORDS: &str = "\
.core 1
.ends 1
.root 0
0: LDC r0, 16777218
1: LDC r1, 16909060
2: OUT r0, r1
3: LDC r1, 5
4: OUT r0, r1
5: LDC r1, 6
6: OUT r0, r1
7: FREET
.core 3
.ends 1
.root 0
0: LDC r0, 50331650
1: IN r1, r0
2: IN r1, r0
3: IN r1, r0
4: FREET
.chan 1 0 3 0
";

/// Core 1 ends, and core 3 waits for a word.
pub const NO_WORD: &str = "\
.core 1
.ends 1
.root 0
0: LDC r0, 0
1: FREET
.core 3
.ends 1
.root 0
0: LDC r0, 50331650
1: IN r1, r0
2: IN r1, r0
3: IN r1, r0
4: FREET
.chan 1 0 3 0
";

/// Eight threads on each of four cores, each of two steps.
pub const FULL: &str = "\
.core 0
.root 0
.root 0
.root 0
.root 0
.root 0
.root 0
.root 0
.root 0
0: LDC r0, 7
1: FREET
.core 1
.root 0
.root 0
.root 0
.root 0
.root 0
.root 0
.root 0
.root 0
0: LDC r0, 7
1: FREET
.core 2
.root 0
.root 0
.root 0
.root 0
.root 0
.root 0
.root 0
.root 0
0: LDC r0, 7
1: FREET
.core 3
.root 0
.root 0
.root 0
.root 0
.root 0
.root 0
.root 0
.root 0
0: LDC r0, 7
1: FREET
";

/// An output at a time, as the compiler writes it for a text (the last case of `crates/xt_calls/data/words.txt`).
pub const OUTPUT: &str = "\
.core 0
.words 516
.timers 0
.ends 0
.port 1A out
.root 0
0: LDC r0, 16 @1:30
1: SETSP r0 @1:30
2: LDC r0, 0 @1:30
3: STWDP r0, 0 @1:30
4: LDC r10, 2 @1:30
5: LDC r0, 3 @1:30
6: LDC r11, 0 @1:41
7: SETC r11, NONE @1:41
8: SETPT r11, r10 @1:41
9: OUT r11, r0 @1:41
10: LDC r0, 0 @1:41
11: STWDP r0, 0 @1:41
12: BRFU 13 @1:41
13: FREET @1:30
";
