// Each command, where each call of its store and of its sink fails in turn.
ghost use Rattle.std.specs.Prelude.{◌<◌};

use crate::endings::{Seen, all_put, bytes_of, ends_with};
use crate::given::{Case, given, make_case, words_of};
use crate::watched::{WatchedSink, WatchedStore};
use base_stores::{MemSink, MemStore};
use command_perform::perform;
use std::alloc::Global;
use std::process::Abort;
use std::test::Fail;
use wcc_base::Status;
use wcc_compile::WccCompiler;

// How a call ended: whether as it is defined, how many calls of the store and of the sink it made, and how many failed.
#[derive(Clone, Copy)]
struct Ended {
    is_defined: bool,
    status: Status,
    calls: u32,
    puts: u32,
    faults: u32,
}

// The list of this number.
fn listed(alloc: Global, number: u32) -> Result<Vec<u32>, Fail> {
    let mut list = Vec::new(alloc);
    list.push(number)?;
    Ok(list)
}

// Calls a command over a store that moves so many bytes at a time, and of which the call of this number fails, and a sink of
// which that put does. No call has the number 0.
fn call(alloc: Global, case: &Case, step: usize, failing: u32, put: u32) -> Result<Ended, Fail>
    requires { 0 < step }
{
    let words = words_of(alloc, case.line)?;
    let files = all_put(alloc, &[], &case.files)?;
    let mut store = WatchedStore::new(MemStore::new(alloc, files, step, listed(alloc, failing)?));
    let mut out = WatchedSink::new(MemSink::new(alloc, listed(alloc, put)?));
    let status = perform(&WccCompiler, alloc, &words, &mut store, &mut out);
    let seen = Seen {
        status,
        files: &store.store.files,
        read_faults: store.read_faults,
        write_faults: store.write_faults,
        printed: out.sink.bytes.as_slice(),
        sink_faults: out.faults,
    };
    Ok(Ended {
        is_defined: ends_with(alloc, &case.made, &case.files, seen)?,
        status,
        calls: store.calls,
        puts: out.calls,
        faults: store
            .read_faults
            .saturating_add(store.write_faults)
            .saturating_add(out.faults),
    })
}

// Fails each call of the store in turn, and then each of the sink, and looks whether each ends as it is defined.
fn fail_each(rt: &impl Abort, alloc: Global, case: &Case, step: usize) -> Result<(), Fail>
    requires { 0 < step }
{
    let line = case.line;
    let plain = call(alloc, case, step, 0, 0)?;
    assert!(rt; plain.is_defined && plain.faults == 0, "{line}");
    for failing in 1..plain.calls.saturating_add(1) {
        let ended = call(alloc, case, step, failing, 0)?;
        assert!(rt;
            ended.is_defined && ended.faults == 1,
            "{line}: call {failing} in steps of {step}"
        );
    }
    for put in 1..plain.puts.saturating_add(1) {
        let ended = call(alloc, case, step, 0, put)?;
        assert!(rt; ended.is_defined && ended.faults == 1, "{line}: put {put}");
    }
    Ok(())
}

// Each of these commands, with what it writes and how its lines begin where nothing fails, in steps of 40 bytes and of one.
fn fail_all(rt: &impl Abort, alloc: Global, lines: &[(&str, &str, &str)]) -> Result<(), Fail> {
    for (line, written, printed) in lines {
        let case = make_case(alloc, *line, *written, given(alloc)?)?;
        assert!(rt; case.made.lines.starts_with(printed.as_bytes()), "{line}");
        fail_each(rt, alloc, &case, 40)?;
        fail_each(rt, alloc, &case, 1)?;
    }
    Ok(())
}

#[test]
fn compiling(rt: HostRuntime) -> Result<(), Fail> {
    fail_all(
        &rt,
        rt.alloc(),
        &[
            ("compile a.c b.elf b.txt", "b.elf b.txt", "cycles "),
            (
                "compile loop.c b.elf b.txt --derive --table costs",
                "b.elf b.txt",
                "cycles ",
            ),
            ("compile bad.c b.elf b.txt", "", "refused syntax at 26\n"),
            (
                "compile a.c b.elf b.txt --table a.in",
                "",
                "refused table-1 at 0\n",
            ),
            ("compile a.c b.elf b.elf", "", "usage\n"),
            ("help", "", "usage\n"),
        ],
    )
}

#[test]
fn compiling_with_every_option(rt: HostRuntime) -> Result<(), Fail> {
    fail_all(
        &rt,
        rt.alloc(),
        &[(
            "compile loop.c b.elf b.txt --spm 64 --inline 9 --unroll 2 --derive --table costs",
            "b.elf b.txt",
            "cycles ",
        )],
    )
}

#[test]
fn reading(rt: HostRuntime) -> Result<(), Fail> {
    fail_all(
        &rt,
        rt.alloc(),
        &[
            ("check a.elf a.txt --table costs", "", "yes "),
            ("check a.elf bad.c", "", "no report-1 1\n"),
            ("report a.txt", "", "cycles "),
            ("report a.c", "", "refused report-1 at 1\n"),
            ("respond tasks --table costs", "", "response a "),
            ("respond late", "", "late 1\n"),
            ("respond a.c", "", "refused tasks-1 at 1\n"),
        ],
    )
}

#[test]
fn running(rt: HostRuntime) -> Result<(), Fail> {
    fail_all(
        &rt,
        rt.alloc(),
        &[
            ("run a.elf a.in b.out", "b.out", "exit 7 cycles "),
            (
                "run a.elf a.in b.out --limit 20 --table costs",
                "b.out",
                "limit at ",
            ),
            ("run bad.c a.in b.out", "", "refused image-1 at 0\n"),
            (
                "eval loop.c a.in b.out --derive",
                "b.out",
                "value 2 bytes 2\n",
            ),
            ("eval odd.c a.in b.out", "", "undefined 6 at 34\n"),
            ("eval loop.c a.in b.out", "", "refused bound at 55\n"),
        ],
    )
}

#[test]
fn making(rt: HostRuntime) -> Result<(), Fail> {
    fail_all(
        &rt,
        rt.alloc(),
        &[(
            "make 1 b.c b.elf b.txt",
            "b.c b.elf b.txt",
            "made 209 bytes\ncycles ",
        )],
    )
}

// A table that is a byte too long, behind two files.
#[test]
fn a_file_that_passes_its_limit(rt: HostRuntime) -> Result<(), Fail> {
    let alloc = rt.alloc();
    let mut files = given(alloc)?;
    files.push((
        String::from_str(alloc, "long")?,
        Vec::from_elem(alloc, b'\n', 65_537)?,
    ))?;
    let case = make_case(alloc, "check a.elf a.txt --table long", "", files)?;
    assert_eq!(rt;
        case.made.lines.as_slice(),
        b"limit table 65537\n".as_slice()
    );
    fail_each(&rt, alloc, &case, 40)
}

// The least source, whose image passes 40 bytes: its two reads fail with status 4, and all that writes with status 5. Behind
// a begin and an append the fifth call fails, so that the image has 40 bytes and no report is there.
#[test]
fn the_least_source_call_by_call(rt: HostRuntime) -> Result<(), Fail> {
    let alloc = rt.alloc();
    let mut files = all_put(alloc, &[], &[])?;
    files.push((
        String::from_str(alloc, "a.c")?,
        Vec::from_slice(alloc, b"int main(void){}")?,
    ))?;
    let case = make_case(alloc, "compile a.c a.elf a.txt", "a.elf a.txt", files)?;
    let plain = call(alloc, &case, 40, 0, 0)?;
    for failing in 1..plain.calls.saturating_add(1) {
        let ended = call(alloc, &case, 40, failing, 0)?;
        let wanted = if failing <= 2 {
            Status::ReadFault
        } else {
            Status::WriteFault
        };
        assert_eq!(rt; ended.status, wanted, "at {failing}");
    }
    assert_eq!(rt;
        call(alloc, &case, 40, plain.calls.saturating_add(1), 0)?.status,
        Status::Done
    );
    let words = words_of(alloc, case.line)?;
    let mut store = MemStore::new(
        alloc,
        all_put(alloc, &[], &case.files)?,
        40,
        listed(alloc, 5)?,
    );
    let mut out = MemSink::new(alloc, listed(alloc, 0)?);
    assert_eq!(rt;
        perform(&WccCompiler, alloc, &words, &mut store, &mut out),
        Status::WriteFault
    );
    let whole = bytes_of(&case.made.files, "a.elf");
    assert_eq!(rt;
        bytes_of(&store.files, "a.elf"),
        whole.get(..40).unwrap_or(&[])
    );
    assert_eq!(rt; store.files.len(), 2);
    Ok(())
}
