//! `run JOB` by example.

use super::{Case, Files, ORDINARY, check, is_refused, prints, stops};
use std::test::Fail;

const CALL: &[u8] =
    b"load 0 prog\nload 1 foo.so\nenter 1 0 0 0\narrive 5 0 1 0x00000000\nexit 8 0 7\n";

/// A case over the programs that call a function.
const CALLING: Case = Case {
    files: Files::Programs,
    ..ORDINARY
};

#[test]
fn eager_call(rt: HostRuntime) -> Result<(), Fail> {
    let alloc = rt.alloc();
    prints(
        &rt,
        alloc,
        Files::Programs,
        b"bind eager.job",
        b"slot 0 0 0x0003000c 0x00040000 0x00050000\n",
    )?;
    prints(&rt, alloc, Files::Programs, b"run eager.job", CALL)?;
    prints(&rt, alloc, Files::Programs, b"run turns.job", CALL)?;
    stops(
        &rt,
        alloc,
        Files::Programs,
        b"run limit.job",
        b"load 0 prog\nload 1 foo.so\nenter 1 0 0 0\narrive 5 0 1 0x00000000\nlimit 7\n",
    )?;
    stops(
        &rt,
        alloc,
        Files::Programs,
        b"run weak.job",
        b"load 0 weak\nenter 1 0 0 0\nstop 5 0 fault 0x00000000\n",
    )?;
    prints(
        &rt,
        alloc,
        Files::Programs,
        b"run tolerated.job",
        b"load 0 tolerated\nskipped init 0\nexit 1 0 0\n",
    )?;
    Ok(())
}

#[test]
fn services_and_hostile_code(rt: HostRuntime) -> Result<(), Fail> {
    let alloc = rt.alloc();
    stops(
        &rt,
        alloc,
        Files::Plain,
        b"run service.job",
        b"load 0 service\nstop 0 0 service 99\n",
    )?;
    stops(
        &rt,
        alloc,
        Files::Plain,
        b"run data.job",
        b"load 0 data\nstop 1 0 fault 0x00030000\n",
    )?;
    stops(
        &rt,
        alloc,
        Files::Plain,
        b"run null.job",
        b"load 0 null\nstop 1 0 fault 0x00000000\n",
    )?;
    stops(
        &rt,
        alloc,
        Files::Plain,
        b"run skewed.job",
        b"load 0 skewed\nstop 0 0 unaligned 0x00000002\n",
    )?;
    stops(
        &rt,
        alloc,
        Files::Plain,
        b"run header.job",
        b"load 0 header\nstop 0 0 stray 0x00030000\n",
    )?;
    stops(
        &rt,
        alloc,
        Files::Plain,
        b"run text.job",
        b"load 0 text\nstop 0 0 stray 0x00020000\n",
    )?;
    stops(
        &rt,
        alloc,
        Files::Plain,
        b"run stack.job",
        b"load 0 stack\nstop 1 0 fault 0xfffffffc\n",
    )?;
    stops(
        &rt,
        alloc,
        Files::Plain,
        b"run word.job",
        b"load 0 word\nstop 0 0 undefined 0xffffffff\n",
    )?;
    stops(
        &rt,
        alloc,
        Files::Plain,
        b"run odd.job",
        b"load 0 odd\nstop 0 0 unaligned 0x00030001\n",
    )?;
    stops(
        &rt,
        alloc,
        Files::Plain,
        b"run beyond.job",
        b"load 0 beyond\nstop 1 0 fault 0x00020004\n",
    )?;
    stops(
        &rt,
        alloc,
        Files::Plain,
        b"run endless.job",
        b"load 0 endless\nlimit 1000\n",
    )?;
    prints(
        &rt,
        alloc,
        Files::Plain,
        b"run puts.job",
        b"load 0 puts\nout 3 0 00100000\nexit 4 0 4\n",
    )?;
    prints(
        &rt,
        alloc,
        Files::Plain,
        b"run much.job",
        b"load 0 much\nexit 4 0 51\n",
    )?;
    prints(
        &rt,
        alloc,
        Files::Plain,
        b"run turns.job",
        b"load 0 turns\ndone 3 0 1\nend 3\n",
    )?;
    Ok(())
}

#[test]
fn runs_that_do_not_start(rt: HostRuntime) -> Result<(), Fail> {
    let alloc = rt.alloc();
    is_refused(
        &rt,
        alloc,
        Files::Programs,
        b"run second.job",
        5,
        b"fdpic: job First line 1\n",
    )?;
    is_refused(
        &rt,
        alloc,
        Files::Programs,
        b"run range.job",
        5,
        b"fdpic: job Range line 2\n",
    )?;
    is_refused(
        &rt,
        alloc,
        Files::Programs,
        b"run none.job",
        5,
        b"fdpic: job NoProgram line 3\n",
    )?;
    is_refused(
        &rt,
        alloc,
        Files::Programs,
        b"run nofile",
        5,
        b"fdpic: no file nofile\n",
    )?;
    is_refused(
        &rt,
        alloc,
        Files::Programs,
        b"run prog",
        5,
        b"fdpic: job First line 1\n",
    )?;
    is_refused(
        &rt,
        alloc,
        Files::Programs,
        b"run lazy.job",
        5,
        b"fdpic: load NotBuilt prog\n",
    )?;
    is_refused(
        &rt,
        alloc,
        Files::Programs,
        b"run unsaid.job",
        5,
        b"fdpic: load NotBuilt prog\n",
    )?;
    is_refused(
        &rt,
        alloc,
        Files::Programs,
        b"run lost.job",
        5,
        b"fdpic: load NotBuilt nowhere\n",
    )?;
    is_refused(
        &rt,
        alloc,
        Files::Programs,
        b"run gone.job",
        5,
        b"fdpic: load NoFile nowhere\n",
    )?;
    is_refused(
        &rt,
        alloc,
        Files::Programs,
        b"run own.job",
        5,
        b"fdpic: load Elf own.job Ident at 0\n",
    )?;
    is_refused(
        &rt,
        alloc,
        Files::Programs,
        b"run strong.job",
        5,
        b"fdpic: load Unresolved 0 foo\n",
    )?;
    is_refused(
        &rt,
        alloc,
        Files::Programs,
        b"run data.job",
        5,
        b"fdpic: load NotCode 0 -\n",
    )?;
    is_refused(
        &rt,
        alloc,
        Files::Programs,
        b"run skewed.job",
        5,
        b"fdpic: load NotCode 0 -\n",
    )?;
    Ok(())
}

/// Runs whose words are refused, whose store or sink fails, or whose line of the status is lost.
const CUT_OFF: [Case; 9] = [
    Case {
        words: b"run",
        status: 2,
        err: b"fdpic: words\n",
        ..CALLING
    },
    Case {
        words: b"run eager.job 8",
        status: 2,
        err: b"fdpic: words\n",
        ..CALLING
    },
    Case {
        words: b"run eager.job",
        store_fails_at: 1,
        status: 3,
        err: b"fdpic: store fault\n",
        ..CALLING
    },
    Case {
        words: b"run eager.job",
        store_fails_at: 3,
        status: 3,
        err: b"fdpic: store fault\n",
        ..CALLING
    },
    Case {
        words: b"run lazy.job",
        store_fails_at: 2,
        status: 5,
        err: b"fdpic: load NotBuilt prog\n",
        ..CALLING
    },
    Case {
        words: b"run eager.job",
        out_fails_at: 1,
        status: 4,
        err: b"fdpic: sink fault\n",
        ..CALLING
    },
    Case {
        words: b"run eager.job",
        out_fails_at: 2,
        status: 4,
        out: b"load 0 prog\n",
        err: b"fdpic: sink fault\n",
        ..CALLING
    },
    Case {
        words: b"run eager.job",
        out_fails_at: 4,
        status: 4,
        out: b"load 0 prog\nload 1 foo.so\nenter 1 0 0 0\n",
        err: b"fdpic: sink fault\n",
        ..CALLING
    },
    Case {
        words: b"run weak.job",
        err_fails_at: 1,
        status: 6,
        out: b"load 0 weak\nenter 1 0 0 0\nstop 5 0 fault 0x00000000\n",
        ..CALLING
    },
];

#[test]
fn runs_that_are_cut_off(rt: HostRuntime) -> Result<(), Fail> {
    let alloc = rt.alloc();
    for case in &CUT_OFF {
        check(&rt, alloc, case)?;
    }
    Ok(())
}
