// The generated program, a line behind another.
ghost use Rattle.std.specs.Prelude.{◌≡◌, ◌≤◌, ◌++◌, decimal, IfOk, OnOk};
ghost use Rattle.xr_generator.specs.Generated.{call_line, function_line, generated_text, head_lines, last_lines, lines_to, task_lines};

use itoa::Buffer;
use std::alloc::Global;
use xw_words::Memory;

/// The text of the generated program of n functions, from 1 to 1,000, as bytes. The one error is want of memory.
#[tactic(auto, unfolding(crate::specs::Generated::generated_text))]
pub fn generated(alloc: Global, n: u32) -> Result<Vec<u8>, Memory>
    requires some { 1 ≤ n }
    requires few { n ≤ 1000 }
    ensures text { IfOk result (λ t. t.items ≡ generated_text n) }
{
    let mut text = Vec::new(alloc);
    add_head(&mut text)?;
    add_functions(&mut text, n)?;
    add_tasks(&mut text)?;
    add_calls(&mut text, n)?;
    add_last(&mut text)?;
    Ok(text)
}

fn add_head(text: &mut Vec<u8>) -> Result<(), Memory>
    ensures { OnOk result (text.new.items ≡ text.old.items ++ head_lines) }
{
    add(text, b"#include <platform.h>\n")?;
    add(text, b"on stdcore[3] : out port p = XS1_PORT_32A;\n")?;
    Ok(())
}

fn add_functions(text: &mut Vec<u8>, n: u32) -> Result<(), Memory>
    requires { n ≤ 1000 }
    ensures { OnOk result (text.new.items ≡ text.old.items ++ lines_to function_line n) }
{
    for i in 0..n {
        add_function(text, i + 1)?;
    }
    Ok(())
}

fn add_function(text: &mut Vec<u8>, k: u32) -> Result<(), Memory>
    ensures { OnOk result (text.new.items ≡ text.old.items ++ function_line k) }
{
    add(text, b"void s")?;
    add_number(text, k)?;
    add(text, b"(int &x) { x = x * 5 + ")?;
    add_number(text, k)?;
    add(text, b"; }\n")?;
    Ok(())
}

fn add_tasks(text: &mut Vec<u8>) -> Result<(), Memory>
    ensures { OnOk result (text.new.items ≡ text.old.items ++ task_lines) }
{
    add(
        text,
        b"void first(chanend o) { int i; for (i = 0; i < 4; i++) { o <: i; } }\n",
    )?;
    add(
        text,
        b"void mid(chanend a, chanend b) { int i; int x; for (i = 0; i < 4; i++) { a :> x;\n",
    )?;
    Ok(())
}

fn add_calls(text: &mut Vec<u8>, n: u32) -> Result<(), Memory>
    requires { n ≤ 1000 }
    ensures { OnOk result (text.new.items ≡ text.old.items ++ lines_to call_line n) }
{
    for i in 0..n {
        add_call(text, i + 1)?;
    }
    Ok(())
}

fn add_call(text: &mut Vec<u8>, k: u32) -> Result<(), Memory>
    ensures { OnOk result (text.new.items ≡ text.old.items ++ call_line k) }
{
    add(text, b"s")?;
    add_number(text, k)?;
    add(text, b"(x);\n")?;
    Ok(())
}

fn add_last(text: &mut Vec<u8>) -> Result<(), Memory>
    ensures { OnOk result (text.new.items ≡ text.old.items ++ last_lines) }
{
    add(text, b"b <: x; } }\n")?;
    add(
        text,
        b"void last(chanend a) { int i; int x; for (i = 0; i < 4; i++) { a :> x; p <: x; } }\n",
    )?;
    add(text, b"int main(void) { chan c; chan d; chan e; par {\n")?;
    add(text, b"on stdcore[0] : first(c);\n")?;
    add(text, b"on stdcore[1] : mid(c, d);\n")?;
    add(text, b"on stdcore[2] : mid(d, e);\n")?;
    add(text, b"on stdcore[3] : last(e); } return 0; }\n")?;
    Ok(())
}

fn add_number(text: &mut Vec<u8>, n: u32) -> Result<(), Memory>
    ensures { OnOk result (text.new.items ≡ text.old.items ++ decimal n) }
{
    let mut buffer = Buffer::new();
    add(text, buffer.format(n).as_bytes())
}

fn add(text: &mut Vec<u8>, piece: &[u8]) -> Result<(), Memory>
    ensures { OnOk result (text.new.items ≡ text.old.items ++ piece.now) }
{
    text.extend_from_slice(piece)?;
    Ok(())
}

#[cfg(test)]
mod tests {
    use super::*;

    // The program of one function, line by line.
    const ONE: &[u8] = b"#include <platform.h>\n\
on stdcore[3] : out port p = XS1_PORT_32A;\n\
void s1(int &x) { x = x * 5 + 1; }\n\
void first(chanend o) { int i; for (i = 0; i < 4; i++) { o <: i; } }\n\
void mid(chanend a, chanend b) { int i; int x; for (i = 0; i < 4; i++) { a :> x;\n\
s1(x);\n\
b <: x; } }\n\
void last(chanend a) { int i; int x; for (i = 0; i < 4; i++) { a :> x; p <: x; } }\n\
int main(void) { chan c; chan d; chan e; par {\n\
on stdcore[0] : first(c);\n\
on stdcore[1] : mid(c, d);\n\
on stdcore[2] : mid(d, e);\n\
on stdcore[3] : last(e); } return 0; }\n\
";

    // The program of two functions.
    const TWO: &[u8] = b"#include <platform.h>\n\
on stdcore[3] : out port p = XS1_PORT_32A;\n\
void s1(int &x) { x = x * 5 + 1; }\n\
void s2(int &x) { x = x * 5 + 2; }\n\
void first(chanend o) { int i; for (i = 0; i < 4; i++) { o <: i; } }\n\
void mid(chanend a, chanend b) { int i; int x; for (i = 0; i < 4; i++) { a :> x;\n\
s1(x);\n\
s2(x);\n\
b <: x; } }\n\
void last(chanend a) { int i; int x; for (i = 0; i < 4; i++) { a :> x; p <: x; } }\n\
int main(void) { chan c; chan d; chan e; par {\n\
on stdcore[0] : first(c);\n\
on stdcore[1] : mid(c, d);\n\
on stdcore[2] : mid(d, e);\n\
on stdcore[3] : last(e); } return 0; }\n\
";

    /// The programs of one function and of two are as they were written by hand.
    #[test]
    fn is_as_written_by_hand(rt: HostRuntime) -> Result<(), Memory> {
        let one = generated(rt.alloc(), 1)?;
        let two = generated(rt.alloc(), 2)?;
        assert_eq!(rt; one.as_slice(), ONE);
        assert_eq!(rt; two.as_slice(), TWO);
        Ok(())
    }

    /// The least, the second and the greatest program have so many bytes.
    #[test]
    fn has_so_many_bytes(rt: HostRuntime) -> Result<(), Memory> {
        let least = generated(rt.alloc(), 1)?.len();
        let second = generated(rt.alloc(), 2)?.len();
        let greatest = generated(rt.alloc(), 1000)?.len();
        assert_eq!(rt; (least, second, greatest), (518, 560, 48155));
        Ok(())
    }
}
