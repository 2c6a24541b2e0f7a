// The files that the commands find, and what a command makes of them where nothing fails.

use crate::endings::{Outputs, all_put, bytes_of};
use base_stores::{CalmSink, CalmStore};
use command_perform::perform;
use std::alloc::Global;
use std::test::Fail;
use wcc_compile::WccCompiler;

const COSTS: &str =
    "fetch_flash = 3\nfetch_spm = 1\nalu = 1\nmul = 3\ndiv = 34\nload = 1\nstore = 1\nbranch = 1\nbranch_taken = 2\njump = 2\necall = 10\ndata_flash = 3\ndata_ram = 2\ndata_spm = 1\nstall = 0\n";

/// A command in words, the files that it finds, and what it makes.
#[derive(Drop)]
pub struct Case<'a> {
    pub line: &'a str,
    pub files: Vec<(String, Vec<u8>)>,
    pub made: Outputs,
}

/// The words of a command.
pub fn words_of(alloc: Global, line: &str) -> Result<Vec<String>, Fail> {
    let mut words = Vec::new(alloc);
    for word in line.split(' ') {
        words.push(String::from_str(alloc, word)?)?;
    }
    Ok(words)
}

// What a command makes where nothing fails, of which the files of these names are what it writes.
fn made_of(
    alloc: Global,
    line: &str,
    written: &str,
    files: &[(String, Vec<u8>)],
) -> Result<Outputs, Fail> {
    let words = words_of(alloc, line)?;
    let mut store = CalmStore::new(alloc, all_put(alloc, &[], files)?);
    let mut out = CalmSink::new(alloc);
    let status = perform(&WccCompiler, alloc, &words, &mut store, &mut out);
    let mut made = Vec::new(alloc);
    for name in written.split(' ') {
        if !name.is_empty() {
            made.push((
                String::from_str(alloc, name)?,
                Vec::from_slice(alloc, bytes_of(&store.files, name))?,
            ))?;
        }
    }
    Ok(Outputs {
        status,
        files: made,
        lines: out.bytes,
    })
}

/// The files: sources, a list of tasks, a table and an input, the image and the report of a source, and an older report.
pub fn given(alloc: Global) -> Result<Vec<(String, Vec<u8>)>, Fail> {
    let mut files = Vec::new(alloc);
    for (name, text) in [
        ("a.c", "int main(void) { putchar(72); return 7; }"),
        (
            "loop.c",
            "int f(int x) { return x + 1; } int main(void) { int i; for (i = 0; i < 2; i++) putchar(f(i)); return i; }",
        ),
        ("odd.c", "int main(void) { int a[2]; return a[getchar()]; }"),
        ("bad.c", "int main(void) { return 1 2; }"),
        ("costs", COSTS),
        (
            "tasks",
            "task a 1000 a.elf a.txt\ntask b 2000 a.elf a.txt\n",
        ),
        ("late", "task a 1 a.elf a.txt\n"),
        ("a.in", "1"),
        ("b.txt", "an older report"),
    ] {
        files.push((
            String::from_str(alloc, name)?,
            Vec::from_slice(alloc, text.as_bytes())?,
        ))?;
    }
    let made = made_of(alloc, "compile a.c a.elf a.txt", "a.elf a.txt", &files)?;
    all_put(alloc, &made.files, &files)
}

/// The command of these words, which finds these files and writes those of the names in `written`.
pub fn make_case<'a>(
    alloc: Global,
    line: &'a str,
    written: &str,
    files: Vec<(String, Vec<u8>)>,
) -> Result<Case<'a>, Fail> {
    let made = made_of(alloc, line, written, &files)?;
    Ok(Case { line, files, made })
}
