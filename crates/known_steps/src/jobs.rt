//! Texts and what they are, from the description of the format.
use crate::checks::{holds, holds_at, same, same_at};
use fd_base::{Bytes, Memory, put_dec};
use job_text::{JobErr, JobKind, read_job};
use load_model::PlaceLine;
use run_model::Job;
use std::alloc::Global;
use std::process::Abort;
use std::test::Fail;

/// The job of a short text.
fn read(alloc: Global, text: &[u8]) -> Result<Job, JobErr> {
    if text.len() > 0x1000_0000 {
        return Err(JobErr::Memory);
    }
    read_job(alloc, text)
}

fn is_job(alloc: Global, text: &[u8]) -> bool {
    read(alloc, text).is_ok()
}

/// The line at which a text is refused, and why. None where it is a job.
fn refusal(alloc: Global, text: &[u8]) -> Option<(u32, JobKind)> {
    match read(alloc, text) {
        Err(JobErr::Refused(r)) => Some((r.line, r.kind)),
        _ => None,
    }
}

#[test]
fn texts_are_refused(rt: HostRuntime) {
    let rows: [(&str, u32, JobKind); 23] = [
        ("", 1, JobKind::First),
        ("\n", 1, JobKind::First),
        ("fdpic-job 2", 1, JobKind::First),
        ("fdpic-job", 1, JobKind::First),
        ("fdpic-job 1 1", 1, JobKind::First),
        ("fdpic-job 01", 1, JobKind::First),
        ("fdpic-job\t1", 1, JobKind::First),
        ("# comment\nfdpic-job 1\nprogram a", 1, JobKind::First),
        ("fdpic-job 1", 2, JobKind::NoProgram),
        ("fdpic-job 1\n# comment", 3, JobKind::NoProgram),
        ("fdpic-job 1\n#comment\n", 3, JobKind::NoProgram),
        ("fdpic-job 1\nmemory 70000", 2, JobKind::Range),
        ("fdpic-job 1\nprograms a", 2, JobKind::Word),
        ("fdpic-job 1\n\n   \n Program a", 4, JobKind::Word),
        ("fdpic-job 1\nprogram a # comment", 2, JobKind::Form),
        ("fdpic-job 1\nprogram a\nprogram b\nx", 3, JobKind::Twice),
        ("fdpic-job 1\nmemory 65536\nmemory 1", 3, JobKind::Range),
        ("fdpic-job 1\nmemory 1\nprogram", 2, JobKind::Range),
        (
            "fdpic-job 1\nprogram a\nmemory 65536\nstack 8192",
            5,
            JobKind::Small,
        ),
        (
            "fdpic-job 1\nprogram a\nmemory 65536\nstack 8208",
            5,
            JobKind::Small,
        ),
        (
            "fdpic-job 1\nprogram a\nmemory 65536\nstack 6608\n",
            5,
            JobKind::Small,
        ),
        (
            "fdpic-job 1\nprogram a\nmemory 65536\nstack 6592\ndescriptors 65",
            6,
            JobKind::Small,
        ),
        (
            "fdpic-job 1\nmemory 65536\nstack 8192",
            4,
            JobKind::NoProgram,
        ),
    ];
    for (text, line, kind) in rows {
        let refused = refusal(rt.alloc(), text.as_bytes());
        holds_at(&rt, text, refused == Some((line, kind)));
    }
}

/// A text whose second line is this one, and whose third is the program's.
fn with_line(alloc: Global, line: &[u8]) -> Result<Bytes, Memory> {
    let mut text = Bytes::from_slice(alloc, b"fdpic-job 1\n")?;
    text.extend_from_slice(line)?;
    text.extend_from_slice(b"\nprogram a\n")?;
    Ok(text)
}

/// How a text with this line is refused.
fn refusal_of(alloc: Global, line: &[u8]) -> Result<Option<(u32, JobKind)>, Memory> {
    let text = with_line(alloc, line)?;
    Ok(refusal(alloc, text.as_slice()))
}

#[test]
fn lines_are_refused(rt: HostRuntime) -> Result<(), Fail> {
    let alloc = rt.alloc();
    let rows: [(&str, JobKind); 43] = [
        ("program", JobKind::Form),
        ("program a\0", JobKind::Form),
        ("memory", JobKind::Form),
        ("memory 65536 1", JobKind::Form),
        ("memory x", JobKind::Form),
        ("memory 4294967296", JobKind::Form),
        ("memory 61440", JobKind::Range),
        ("memory 65535", JobKind::Range),
        ("memory 65537", JobKind::Range),
        ("memory 8388607", JobKind::Range),
        ("memory 8388609", JobKind::Range),
        ("memory 8392704", JobKind::Range),
        ("descriptors", JobKind::Form),
        ("descriptors 0", JobKind::Range),
        ("descriptors 4097", JobKind::Range),
        ("stack 1 2", JobKind::Form),
        ("stack 240", JobKind::Range),
        ("stack 255", JobKind::Range),
        ("stack 257", JobKind::Range),
        ("stack 65535", JobKind::Range),
        ("stack 65537", JobKind::Range),
        ("stack 65552", JobKind::Range),
        ("steps -1", JobKind::Form),
        ("steps 0", JobKind::Range),
        ("steps 1000001", JobKind::Range),
        ("mode", JobKind::Form),
        ("mode Lazy", JobKind::Form),
        ("mode lazy eager", JobKind::Form),
        ("place", JobKind::Form),
        ("place a", JobKind::Form),
        ("place a x", JobKind::Form),
        ("place a 1 2 3 4 5 6 7 8 9", JobKind::Form),
        ("place a\0 1", JobKind::Form),
        ("turn", JobKind::Form),
        ("turn 0", JobKind::Form),
        ("turn 0 1 2", JobKind::Form),
        ("turn 8 x", JobKind::Form),
        ("turn x 0", JobKind::Form),
        ("turn 8 1", JobKind::Range),
        ("turn 0 0", JobKind::Range),
        ("turn 7 1000001", JobKind::Range),
        ("mode\teager", JobKind::Word),
        ("fdpic-job 1", JobKind::Word),
    ];
    for (line, kind) in rows {
        let refused = refusal_of(alloc, line.as_bytes())?;
        holds_at(&rt, line, refused == Some((2, kind)));
    }
    Ok(())
}

/// The line stands in a job, and a second one like it is refused or not.
fn is_taken(rt: &impl Abort, alloc: Global, line: &str, once: bool) -> Result<(), Memory> {
    let mut text = with_line(alloc, line.as_bytes())?;
    holds_at(rt, line, is_job(alloc, text.as_slice()));
    text.extend_from_slice(line.as_bytes())?;
    let wanted = if once {
        Some((4, JobKind::Twice))
    } else {
        None
    };
    holds_at(rt, line, refusal(alloc, text.as_slice()) == wanted);
    same_at(rt, line, is_job(alloc, text.as_slice()), !once);
    Ok(())
}

#[test]
fn lines_are_taken_once(rt: HostRuntime) -> Result<(), Fail> {
    let alloc = rt.alloc();
    let rows: [(&str, bool); 31] = [
        ("memory 65536", true),
        ("memory 69632", true),
        ("memory 8384512", true),
        ("memory 8388608", true),
        ("descriptors 1", true),
        ("descriptors 2", true),
        ("descriptors 4095", true),
        ("descriptors 4096", true),
        ("stack 256", true),
        ("stack 272", true),
        ("stack 65520", true),
        ("stack 65536", true),
        ("steps 1", true),
        ("steps 2", true),
        ("steps 999999", true),
        ("steps 1000000", true),
        ("mode lazy", true),
        ("mode eager", true),
        ("place b 0", true),
        ("place b 0 1", true),
        ("place b 1 2 3 4 5 6 7", true),
        ("place b 1 2 3 4 5 6 7 0xffffffff", true),
        ("turn 0 1", false),
        ("turn 1 2", false),
        ("turn 6 999999", false),
        ("turn 7 1", false),
        ("turn 7 1000000", false),
        ("#", false),
        ("#memory 1", false),
        ("  # memory 1", false),
        ("    ", false),
    ];
    for (line, once) in rows {
        is_taken(&rt, alloc, line, once)?;
    }
    Ok(())
}

/// A job with `count` lines of a word, each with a number of its own behind it, and then other lines.
fn many(
    alloc: Global,
    word: &[u8],
    behind: &[u8],
    count: u32,
    others: &str,
) -> Result<Bytes, Memory> {
    let mut text = Bytes::from_slice(alloc, b"fdpic-job 1\nprogram a\n")?;
    for n in 1..=count {
        text.extend_from_slice(word)?;
        put_dec(&mut text, n)?;
        text.extend_from_slice(behind)?;
    }
    text.extend_from_slice(others.as_bytes())?;
    Ok(text)
}

/// How many turns a text has, and 0 where it is no job.
fn turns_read(alloc: Global, text: &[u8]) -> usize {
    match read(alloc, text) {
        Ok(job) => job.turns.len(),
        Err(_) => 0,
    }
}

#[test]
fn places_are_counted(rt: HostRuntime) -> Result<(), Fail> {
    for (others, wanted) in [
        ("", None),
        ("place p1024 1\n", None),
        ("place p1024 1\nplace p7 1\n", Some((1027, JobKind::Twice))),
        (
            "place p1024 1\nplace p1025 1\n",
            Some((1027, JobKind::TooMany)),
        ),
    ] {
        let text = many(rt.alloc(), b"place p", b" 1\n", 1023, others)?;
        holds_at(&rt, others, refusal(rt.alloc(), text.as_slice()) == wanted);
        same_at(
            &rt,
            others,
            is_job(rt.alloc(), text.as_slice()),
            wanted.is_none(),
        );
    }
    Ok(())
}

#[test]
fn turns_are_counted(rt: HostRuntime) -> Result<(), Fail> {
    for (others, count, wanted) in [
        ("", 65_535, None),
        ("turn 1 65536\n", 65_536, None),
        (
            "turn 1 65536\nturn 1 1\n",
            0,
            Some((65_539, JobKind::TooMany)),
        ),
    ] {
        let text = many(rt.alloc(), b"turn 1 ", b"\n", 65_535, others)?;
        holds_at(&rt, others, refusal(rt.alloc(), text.as_slice()) == wanted);
        same_at(&rt, others, turns_read(rt.alloc(), text.as_slice()), count);
    }
    Ok(())
}

#[test]
fn names_and_lines_are_measured(rt: HostRuntime) -> Result<(), Fail> {
    let mut line = [b'n'; 264];
    line[..8].copy_from_slice(b"program ");
    for (len, at, kind) in [
        (264, 2, JobKind::Form),
        (263, 3, JobKind::Twice),
        (262, 3, JobKind::Twice),
    ] {
        let refused = refusal_of(rt.alloc(), line.get(..len).unwrap_or(b""))?;
        holds_at(&rt, len, refused == Some((at, kind)));
    }
    Ok(())
}

/// A text with a line of every kind.
const EVERY_KIND: &[u8] = b"  fdpic-job   1 \n# a job\n  memory 0x20000  \nprogram main.elf\n\n\
descriptors 128\nstack 2048\nsteps 500\nmode eager\nplace main.elf 0x20000 131328\n\
turn 7 0x14\nplace lib.so 4294967295\nturn 0 10";

/// The settings of a job, and whether it is lazy.
fn has_settings(rt: &impl Abort, job: &Job, program: &[u8], settings: [u32; 4], lazy: bool) {
    same(rt, job.program.as_slice(), program);
    let plan = &job.plan;
    let found = [plan.memory, plan.descriptors, plan.stack, job.steps];
    same(rt, found, settings);
    same(rt, job.lazy, lazy);
}

fn is_place(rt: &impl Abort, place: &PlaceLine, name: &[u8], addrs: &[u32]) {
    same(rt, place.name.as_slice(), name);
    same(rt, place.addrs.as_slice(), addrs);
}

fn has_places_and_turns(rt: &impl Abort, job: &Job) {
    match job.plan.places.as_slice() {
        [first, second] => {
            is_place(rt, first, b"main.elf", &[131_072, 131_328]);
            is_place(rt, second, b"lib.so", &[4_294_967_295]);
        }
        other => same(rt, other.len(), 2),
    }
    match job.turns.as_slice() {
        [first, second] => {
            same(rt, [first.thread, first.count], [7, 20]);
            same(rt, [second.thread, second.count], [0, 10]);
        }
        other => same(rt, other.len(), 2),
    }
}

fn job_of(alloc: Global, text: &[u8]) -> Result<Job, Fail> {
    match read(alloc, text) {
        Ok(job) => Ok(job),
        Err(_) => Err("no job")?,
    }
}

#[test]
fn values_are_read(rt: HostRuntime) -> Result<(), Fail> {
    let job = job_of(rt.alloc(), EVERY_KIND)?;
    has_settings(&rt, &job, b"main.elf", [131_072, 128, 2_048, 500], false);
    has_places_and_turns(&rt, &job);
    Ok(())
}

#[test]
fn defaults_are_taken(rt: HostRuntime) -> Result<(), Fail> {
    let job = job_of(rt.alloc(), b"fdpic-job 1\n program  a ")?;
    has_settings(&rt, &job, b"a", [1_048_576, 64, 1_024, 1_000_000], true);
    holds(&rt, job.plan.places.is_empty() && job.turns.is_empty());
    Ok(())
}
