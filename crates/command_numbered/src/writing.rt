// The text of a numbered source.
ghost use Rattle.std.specs.Prelude.{◌≡◌, ◌++◌, ◌<◌, ◌^◌, IfOk, OnOk};
ghost use Rattle.command_numbered.specs.Text.{between, function_text, call_text, main_head, main_end, texts, numbered_text};

use itoa::Buffer;
use std::alloc::Global;
use wcc_base::Memory;

const LOOP_HEAD: &[u8] =
    b"(int x) {\nint k;\nint s = x;\n_Pragma(\"loopbound min 10 max 10\")\nfor (k = 0; k < 10; k++) s = (s * 5 + ";

// Adds a number between two texts.
#[tactic(auto, unfolding(crate::specs::Text::between))]
fn put_between(text: &mut Vec<u8>, front: &[u8], number: u64, behind: &[u8]) -> Result<(), Memory>
    ensures { OnOk result (text.new.items ≡ text.old.items ++ between front.now number behind.now) }
{
    let mut buffer = Buffer::new();
    text.extend_from_slice(front)?;
    text.extend_from_slice(buffer.format(number).as_bytes())?;
    text.extend_from_slice(behind)?;
    Ok(())
}

// Adds the function of a number.
#[tactic(auto, unfolding(crate::specs::Text::function_text, crate::specs::Text::loop_head, crate::specs::Text::loop_end))]
fn put_function(text: &mut Vec<u8>, number: u64) -> Result<(), Memory>
    ensures { OnOk result (text.new.items ≡ text.old.items ++ function_text number) }
{
    put_between(text, b"int f", number, LOOP_HEAD)?;
    put_between(text, b"", number, b") % 1000;\nreturn s;\n}\n")
}

// Adds the call of that function.
#[tactic(auto, unfolding(crate::specs::Text::call_text))]
fn put_call(text: &mut Vec<u8>, number: u64) -> Result<(), Memory>
    ensures { OnOk result (text.new.items ≡ text.old.items ++ call_text number) }
{
    put_between(text, b"s = f", number, b"(s);\n")
}

// Adds so many functions.
fn put_functions(text: &mut Vec<u8>, count: u64) -> Result<(), Memory>
    requires { count < 2 ^ 32 }
    ensures { OnOk result (text.new.items ≡ text.old.items ++ texts function_text count) }
{
    for i in 0..count {
        put_function(text, i + 1)?;
    }
    Ok(())
}

// Adds so many calls.
fn put_calls(text: &mut Vec<u8>, count: u64) -> Result<(), Memory>
    requires { count < 2 ^ 32 }
    ensures { OnOk result (text.new.items ≡ text.old.items ++ texts call_text count) }
{
    for i in 0..count {
        put_call(text, i + 1)?;
    }
    Ok(())
}

// Adds what stands before the calls.
#[tactic(auto, unfolding(crate::specs::Text::main_head))]
fn put_head(text: &mut Vec<u8>) -> Result<(), Memory>
    ensures { OnOk result (text.new.items ≡ text.old.items ++ main_head) }
{
    text.extend_from_slice(b"int main(void) {\nint s = 1;\n")?;
    Ok(())
}

// Adds what stands behind the calls.
#[tactic(auto, unfolding(crate::specs::Text::main_end))]
fn put_end(text: &mut Vec<u8>) -> Result<(), Memory>
    ensures { OnOk result (text.new.items ≡ text.old.items ++ main_end) }
{
    text.extend_from_slice(b"putchar(65 + s % 26);\nreturn s % 256;\n}\n")?;
    Ok(())
}

// Adds the function `main`.
fn put_main(text: &mut Vec<u8>, count: u64) -> Result<(), Memory>
    requires { count < 2 ^ 32 }
    ensures { OnOk result (text.new.items ≡ text.old.items ++ (main_head ++ (texts call_text count ++ main_end))) }
{
    put_head(text)?;
    put_calls(text, count)?;
    put_end(text)
}

/// The source of a number.
pub fn write(alloc: Global, number: u64) -> Result<Vec<u8>, Memory>
    requires { number < 2 ^ 32 }
    ensures { IfOk result (λ text. text.items ≡ numbered_text number) }
{
    let mut text = Vec::new(alloc);
    put_functions(&mut text, number)?;
    put_main(&mut text, number)?;
    Ok(text)
}
