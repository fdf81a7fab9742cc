//! Rows that stand for single calls, as cases.

use std::test::Fail;
use xt_front::{Phase, told_of};

/// `resolve`: a name that nothing declares.
const NAMES: &str = r"case an undeclared name
| int main(void) { y = 1; return 0; }
= 301 at 1:18
";

/// `flatten`: functions that each call the one before ten times, and chains of calls.
const SIZES: &str = r"case ten calls of ten, from f5
| void f0(void) { int x; x = 1; }
* 5 \nvoid f\j(void) { f\i(); f\i(); f\i(); f\i(); f\i(); f\i(); f\i(); f\i(); f\i(); f\i(); }
| int main(void) { f5(); return 0; }
= 509 at 7:5

case ten calls of ten, from f4, with a sum of 150 numbers
| void f0(void) { int x; x = 1
* 149 \s+ 1
+ ; }
* 5 \nvoid f\j(void) { f\i(); f\i(); f\i(); f\i(); f\i(); f\i(); f\i(); f\i(); f\i(); f\i(); }
| int main(void) { f4(); return 0; }
= 509 at 7:5

case depth 1,001
| void f0(void) { }
* 499 \nvoid f\j(void) { f\i(); }
| int main(void) { f499(); return 0; }
= 509 at 501:5

case depth 999
| void f0(void) { }
* 498 \nvoid f\j(void) { f\i(); }
| int main(void) { f498(); return 0; }
= 500 instances, 0 words
";

/// `disjoint`: the same functions, and nine and eight threads.
const NEEDS: &str = r"case ten calls of ten, from f4
| void f0(void) { int x; x = 1; }
* 5 \nvoid f\j(void) { f\i(); f\i(); f\i(); f\i(); f\i(); f\i(); f\i(); f\i(); f\i(); f\i(); }
| int main(void) { f4(); return 0; }
= 704 at 7:5

case ten calls of ten, from f3
| void f0(void) { int x; x = 1; }
* 5 \nvoid f\j(void) { f\i(); f\i(); f\i(); f\i(); f\i(); f\i(); f\i(); f\i(); f\i(); f\i(); }
| int main(void) { f3(); return 0; }
= accepted: 1 roots, 1112 instances

case ten calls of ten, from f3, with a sum of 150 numbers
| void f0(void) { int x; x = 1
* 149 \s+ 1
+ ; }
* 5 \nvoid f\j(void) { f\i(); f\i(); f\i(); f\i(); f\i(); f\i(); f\i(); f\i(); f\i(); f\i(); }
| int main(void) { f3(); return 0; }
= accepted: 1 roots, 1112 instances

case nine branches
| int main(void) { par (int i = 0; i < 9; i++) { int x; x = i; } return 0; }
= 701 at 1:5

case eight branches
| int main(void) { par (int i = 0; i < 8; i++) { int x; x = i; } return 0; }
= accepted: 1 roots, 1 instances
";

/// What is told of them.
const WANTED: &str = "names.txt: 1 cases, 0 differ
sizes.txt: 4 cases, 0 differ
needs.txt: 5 cases, 0 differ
";

#[test]
fn rows_of_single_calls(rt: HostRuntime) -> Result<(), Fail> {
    let results = told_of(
        rt.alloc(),
        &[
            (Phase::Names, NAMES),
            (Phase::Sizes, SIZES),
            (Phase::Needs, NEEDS),
        ],
    )?;
    assert_eq!(rt; results.as_str(), WANTED);
    Ok(())
}
