ghost use Rattle.std.specs.Prelude.{◌≡◌, ◌≤◌, ◌++◌, codes, string_bytes, IfOk, OnOk};
ghost use Rattle.std.specs.List.{flat_map};
ghost use Rattle.wy_sample.specs.Sample as texts;

use std::alloc::{AllocError, Global};
use std::fmt::Write;
use wy_text::text::{Memory, Text, from_vec};

/// The type and the first module, which every sample begins with.
const HEAD: &str = r#"type Step
  effect E
  def go(t: Int): {E} Int
resource module m1(c: Console): Step
  effect E = {c.Out}
  def go(t: Int): {E} Int
    c.write("m1\n")
    t + 1
"#;

/// The program's block begins with its grant and the first instance.
const BLOCK_HEAD: &str = r#"program
  grant console: Console
  instance x1 = m1(console)
"#;

/// Adds the module of a number from 2 on.
fn push_module(text: &mut String, number: u32) -> Result<(), AllocError>
    ensures { OnOk result (string_bytes text.new ≡ string_bytes text.old ++ texts.later_module number) }
{
    write!(
        text,
        "resource module m{number}(s: Step): Step\n  effect E = {{s.E}}\n  def go(t: Int): {{E}} Int = s.go(t) + {number}\n"
    )
}

/// Adds the instance of a number from 2 on.
fn push_instance(text: &mut String, number: u32) -> Result<(), AllocError>
    requires { 1 ≤ number }
    ensures { OnOk result (string_bytes text.new ≡ string_bytes text.old ++ texts.later_instance number) }
{
    let before = number - 1;
    write!(text, "  instance x{number} = m{number}(x{before})\n")
}

/// Adds the modules from the second to the last one.
fn push_modules(text: &mut String, last: u32) -> Result<(), AllocError>
    requires { last ≤ 200 }
    ensures { OnOk result (string_bytes text.new ≡ string_bytes text.old ++ flat_map texts.later_module (texts.later_numbers last)) }
{
    for number in 2..last + 1 {
        push_module(text, number)?;
    }
    Ok(())
}

/// Adds the instances from the second to the last one.
fn push_instances(text: &mut String, last: u32) -> Result<(), AllocError>
    requires { last ≤ 200 }
    ensures { OnOk result (string_bytes text.new ≡ string_bytes text.old ++ flat_map texts.later_instance (texts.later_numbers last)) }
{
    for number in 2..last + 1 {
        push_instance(text, number)?;
    }
    Ok(())
}

/// Adds the end of the program's block, which calls the last instance.
fn push_end(text: &mut String, last: u32) -> Result<(), AllocError>
    ensures { OnOk result (string_bytes text.new ≡ string_bytes text.old ++ texts.block_end last) }
{
    write!(
        text,
        "  run: {{console.Out, x{last}.E}}\n    console.write(text_show(x{last}.go(0)) ++ \"\\n\")\n"
    )
}

/// The text of a program with so many modules, from 1 to 200, and one instance of each (docs/LANGUAGE.md,
/// "Samples"). Each instance but the first is handed the one before it, and the program's block calls the
/// last. `Err` comes only where memory is wanting.
pub fn sample(alloc: Global, number: u32) -> Result<Text, Memory>
    requires some { 1 ≤ number }
    requires few { number ≤ 200 }
    ensures { IfOk result (λ text. text ≡ texts.sample_text number) }
{
    let mut text = String::from_str(alloc, HEAD)?;
    push_modules(&mut text, number)?;
    text.push_str(BLOCK_HEAD)?;
    push_instances(&mut text, number)?;
    push_end(&mut text, number)?;
    Ok(from_vec(text.into_bytes()))
}

/// The line that sums the run of a sample up: its number, which is how many instances it has, and how
/// many lines of bodies stand in its report (docs/LANGUAGE.md, "Samples"). `Err` comes only where memory
/// is wanting.
pub fn summary(alloc: Global, number: u32, bodies: u64) -> Result<Text, Memory>
    ensures { IfOk result (λ line. line ≡ texts.summary_line number bodies) }
{
    let line = format!(in alloc; "sample {number}: instances {number}, bodies {bodies}\n")?;
    Ok(from_vec(line.into_bytes()))
}
