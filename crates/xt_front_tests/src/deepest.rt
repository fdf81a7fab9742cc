//! The deepest programs, as cases.
//!
//! They stand here and not in the data of xt_texts, since tests are built by LLVM alone: what Rattle's own compiler makes of
//! the walk takes several times as much stack, more than the usual 8 MB.

use std::test::Fail;
use xt_front::{Phase, told_of};

/// Chains of calls at the limit of depth, 1,000.
const CHAINS: &str = r"case a chain that is as deep as can be
| void f0(void) { }
* 498 \nvoid f\j(void) { f\i(); }
| int main(void) { f498(); return 0; }
= 500 instances, 0 words

case a chain that is called in a block
| void f0(void) { }
* 498 \nvoid f\j(void) { f\i(); }
| int main(void) { { f498(); } return 0; }
= 500 instances, 0 words
";

/// What such a chain needs.
const NEEDS: &str = r"# A kernel that is 999 deep, with `f0` to `f498`: 4 * 500 + 512 = 2,512 words.

case a deep kernel
| void f0(void) { }
* 498 \nvoid f\j(void) { f\i(); }
| int main(void) { f498(); return 0; }
= accepted: 1 roots, 500 instances
";

/// Each kind of statement.
const STATEMENTS: &str =
    r"# Five functions whose statements are 195 deep make programs of depth 988. Main, `f0` and the functions behind it have an
# instance each, and each of these declares a word and what its statements declare.

case blocks, 195 deep
| void f0(void) { }
| void f1(void) { int x; chan c;\s
* 195 {\s
+ f0();
* 195  }
+  }
| void f2(void) { int x; chan c;\s
* 195 {\s
+ f1();
* 195  }
+  }
| void f3(void) { int x; chan c;\s
* 195 {\s
+ f2();
* 195  }
+  }
| void f4(void) { int x; chan c;\s
* 195 {\s
+ f3();
* 195  }
+  }
| void f5(void) { int x; chan c;\s
* 195 {\s
+ f4();
* 195  }
+  }
| int main(void) { f5(); return 0; }
|
= 7 instances, 5 words

case the first parts of ifs, 195 deep
| void f0(void) { }
| void f1(void) { int x; chan c;\s
* 195 if (1)\s
+ f0();
+  }
| void f2(void) { int x; chan c;\s
* 195 if (1)\s
+ f1();
+  }
| void f3(void) { int x; chan c;\s
* 195 if (1)\s
+ f2();
+  }
| void f4(void) { int x; chan c;\s
* 195 if (1)\s
+ f3();
+  }
| void f5(void) { int x; chan c;\s
* 195 if (1)\s
+ f4();
+  }
| int main(void) { f5(); return 0; }
|
= 7 instances, 5 words

case the second parts of ifs, 195 deep
| void f0(void) { }
| void f1(void) { int x; chan c;\s
* 195 if (1) ; else\s
+ f0();
+  }
| void f2(void) { int x; chan c;\s
* 195 if (1) ; else\s
+ f1();
+  }
| void f3(void) { int x; chan c;\s
* 195 if (1) ; else\s
+ f2();
+  }
| void f4(void) { int x; chan c;\s
* 195 if (1) ; else\s
+ f3();
+  }
| void f5(void) { int x; chan c;\s
* 195 if (1) ; else\s
+ f4();
+  }
| int main(void) { f5(); return 0; }
|
= 7 instances, 5 words

case whiles, 195 deep
| void f0(void) { }
| void f1(void) { int x; chan c;\s
* 195 while (1)\s
+ f0();
+  }
| void f2(void) { int x; chan c;\s
* 195 while (1)\s
+ f1();
+  }
| void f3(void) { int x; chan c;\s
* 195 while (1)\s
+ f2();
+  }
| void f4(void) { int x; chan c;\s
* 195 while (1)\s
+ f3();
+  }
| void f5(void) { int x; chan c;\s
* 195 while (1)\s
+ f4();
+  }
| int main(void) { f5(); return 0; }
|
= 7 instances, 5 words

case dos, 195 deep
| void f0(void) { }
| void f1(void) { int x; chan c;\s
* 195 do\s
+ f0();
* 195  while (1);
+  }
| void f2(void) { int x; chan c;\s
* 195 do\s
+ f1();
* 195  while (1);
+  }
| void f3(void) { int x; chan c;\s
* 195 do\s
+ f2();
* 195  while (1);
+  }
| void f4(void) { int x; chan c;\s
* 195 do\s
+ f3();
* 195  while (1);
+  }
| void f5(void) { int x; chan c;\s
* 195 do\s
+ f4();
* 195  while (1);
+  }
| int main(void) { f5(); return 0; }
|
= 7 instances, 5 words

case fors, 195 deep
| void f0(void) { }
| void f1(void) { int x; chan c;\s
* 195 for (;;)\s
+ f0();
+  }
| void f2(void) { int x; chan c;\s
* 195 for (;;)\s
+ f1();
+  }
| void f3(void) { int x; chan c;\s
* 195 for (;;)\s
+ f2();
+  }
| void f4(void) { int x; chan c;\s
* 195 for (;;)\s
+ f3();
+  }
| void f5(void) { int x; chan c;\s
* 195 for (;;)\s
+ f4();
+  }
| int main(void) { f5(); return 0; }
|
= 7 instances, 5 words

case pars, 195 deep
| void f0(void) { }
| void f1(void) { int x; chan c;\s
* 195 par {\s
+ f0();
* 195  }
+  }
| void f2(void) { int x; chan c;\s
* 195 par {\s
+ f1();
* 195  }
+  }
| void f3(void) { int x; chan c;\s
* 195 par {\s
+ f2();
* 195  }
+  }
| void f4(void) { int x; chan c;\s
* 195 par {\s
+ f3();
* 195  }
+  }
| void f5(void) { int x; chan c;\s
* 195 par {\s
+ f4();
* 195  }
+  }
| int main(void) { f5(); return 0; }
|
= 7 instances, 5 words

case copies of a branch, 195 deep
| void f0(void) { }
| void f1(void) { int x; chan c;\s
* 195 par (int i = 0; i < 1; i++)\s
+ f0();
+  }
| void f2(void) { int x; chan c;\s
* 195 par (int i = 0; i < 1; i++)\s
+ f1();
+  }
| void f3(void) { int x; chan c;\s
* 195 par (int i = 0; i < 1; i++)\s
+ f2();
+  }
| void f4(void) { int x; chan c;\s
* 195 par (int i = 0; i < 1; i++)\s
+ f3();
+  }
| void f5(void) { int x; chan c;\s
* 195 par (int i = 0; i < 1; i++)\s
+ f4();
+  }
| int main(void) { f5(); return 0; }
|
= 7 instances, 5 words

case defaults, 195 deep
| void f0(void) { }
| void f1(void) { int x; chan c;\s
* 195 select { default:\s
+ f0();
* 195  break; }
+  }
| void f2(void) { int x; chan c;\s
* 195 select { default:\s
+ f1();
* 195  break; }
+  }
| void f3(void) { int x; chan c;\s
* 195 select { default:\s
+ f2();
* 195  break; }
+  }
| void f4(void) { int x; chan c;\s
* 195 select { default:\s
+ f3();
* 195  break; }
+  }
| void f5(void) { int x; chan c;\s
* 195 select { default:\s
+ f4();
* 195  break; }
+  }
| int main(void) { f5(); return 0; }
|
= 7 instances, 5 words

case cases, 195 deep
| void f0(void) { }
| void f1(void) { int x; chan c;\s
* 195 select { case c :> x:\s
+ f0();
* 195  break; }
+  }
| void f2(void) { int x; chan c;\s
* 195 select { case c :> x:\s
+ f1();
* 195  break; }
+  }
| void f3(void) { int x; chan c;\s
* 195 select { case c :> x:\s
+ f2();
* 195  break; }
+  }
| void f4(void) { int x; chan c;\s
* 195 select { case c :> x:\s
+ f3();
* 195  break; }
+  }
| void f5(void) { int x; chan c;\s
* 195 select { case c :> x:\s
+ f4();
* 195  break; }
+  }
| int main(void) { f5(); return 0; }
|
= 7 instances, 5 words

case cases that declare, 195 deep
| void f0(void) { }
| void f1(void) { int x; chan c;\s
* 195 select { case 1 => c :> int y:\s
+ f0();
* 195  break; }
+  }
| void f2(void) { int x; chan c;\s
* 195 select { case 1 => c :> int y:\s
+ f1();
* 195  break; }
+  }
| void f3(void) { int x; chan c;\s
* 195 select { case 1 => c :> int y:\s
+ f2();
* 195  break; }
+  }
| void f4(void) { int x; chan c;\s
* 195 select { case 1 => c :> int y:\s
+ f3();
* 195  break; }
+  }
| void f5(void) { int x; chan c;\s
* 195 select { case 1 => c :> int y:\s
+ f4();
* 195  break; }
+  }
| int main(void) { f5(); return 0; }
|
= 7 instances, 980 words

# 331 functions whose statements are 1 deep make programs of depth 996.

case blocks, in each of 331 functions
| void f0(void) { }
* 331 \nvoid f\j(void) { int x; chan c; { f\i(); } }
| int main(void) { f331(); return 0; }
|
= 333 instances, 331 words

case the first parts of ifs, in each of 331 functions
| void f0(void) { }
* 331 \nvoid f\j(void) { int x; chan c; if (1) f\i(); }
| int main(void) { f331(); return 0; }
|
= 333 instances, 331 words

case the second parts of ifs, in each of 331 functions
| void f0(void) { }
* 331 \nvoid f\j(void) { int x; chan c; if (1) ; else f\i(); }
| int main(void) { f331(); return 0; }
|
= 333 instances, 331 words

case whiles, in each of 331 functions
| void f0(void) { }
* 331 \nvoid f\j(void) { int x; chan c; while (1) f\i(); }
| int main(void) { f331(); return 0; }
|
= 333 instances, 331 words

case dos, in each of 331 functions
| void f0(void) { }
* 331 \nvoid f\j(void) { int x; chan c; do f\i(); while (1); }
| int main(void) { f331(); return 0; }
|
= 333 instances, 331 words

case fors, in each of 331 functions
| void f0(void) { }
* 331 \nvoid f\j(void) { int x; chan c; for (;;) f\i(); }
| int main(void) { f331(); return 0; }
|
= 333 instances, 331 words

case pars, in each of 331 functions
| void f0(void) { }
* 331 \nvoid f\j(void) { int x; chan c; par { f\i(); } }
| int main(void) { f331(); return 0; }
|
= 333 instances, 331 words

case copies of a branch, in each of 331 functions
| void f0(void) { }
* 331 \nvoid f\j(void) { int x; chan c; par (int i = 0; i < 1; i++) f\i(); }
| int main(void) { f331(); return 0; }
|
= 333 instances, 331 words

case defaults, in each of 331 functions
| void f0(void) { }
* 331 \nvoid f\j(void) { int x; chan c; select { default: f\i(); break; } }
| int main(void) { f331(); return 0; }
|
= 333 instances, 331 words

case cases, in each of 331 functions
| void f0(void) { }
* 331 \nvoid f\j(void) { int x; chan c; select { case c :> x: f\i(); break; } }
| int main(void) { f331(); return 0; }
|
= 333 instances, 331 words

case cases that declare, in each of 331 functions
| void f0(void) { }
* 331 \nvoid f\j(void) { int x; chan c; select { case 1 => c :> int y: f\i(); break; } }
| int main(void) { f331(); return 0; }
|
= 333 instances, 662 words
";

/// What is told of them.
const WANTED: &str = "sizes.txt: 2 cases, 0 differ
needs.txt: 1 cases, 0 differ
sizes.txt: 22 cases, 0 differ
";

#[test]
fn deepest_programs(rt: HostRuntime) -> Result<(), Fail> {
    let results = told_of(
        rt.alloc(),
        &[
            (Phase::Sizes, CHAINS),
            (Phase::Needs, NEEDS),
            (Phase::Sizes, STATEMENTS),
        ],
    )?;
    assert_eq!(rt; results.as_str(), WANTED);
    Ok(())
}
