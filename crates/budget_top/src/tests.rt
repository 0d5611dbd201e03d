use crate::finish::finish;
use crate::run_budget;
use bud_base::{Listed, Text};
use bud_shelf::{LONGEST_FILE, MemShelf, MemSink, SafeShelf, SafeSink};
use budget_steps::{Answer, Write};
use std::alloc::{AllocError, Global};
use std::test::Fail;

/// Runs `raw p` over a shelf with this file.
fn raw(alloc: Global, text: &str) -> Result<(u8, String), Fail> {
    let mut shelf = SafeShelf::new(alloc);
    shelf.add("p", text.as_bytes())?;
    run(alloc, &["raw", "p"], &mut shelf)
}

fn run(alloc: Global, words: &[&str], shelf: &mut SafeShelf) -> Result<(u8, String), Fail> {
    let mut sink = SafeSink::new(alloc);
    let words = owned(alloc, words)?;
    let status = run_budget(alloc, words.as_slice(), shelf, &mut sink);
    let text = str::from_utf8(sink.bytes())?;
    Ok((status, String::from_str(alloc, text)?))
}

fn owned(alloc: Global, words: &[&str]) -> Result<Vec<String>, AllocError> {
    let mut all = Vec::new(alloc);
    for word in words {
        all.push(String::from_str(alloc, word)?)?;
    }
    Ok(all)
}

/// What `raw` prints of a problem, and what `prove` prints of the certificate behind the first line.
fn budgeted(alloc: Global, problem: &str) -> Result<(String, String), Fail> {
    let (_, printed) = raw(alloc, problem)?;
    let cert = match printed.as_str().split_once("\n") {
        Some((_, cert)) => String::from_str(alloc, cert)?,
        None => String::new(alloc),
    };
    let (_, proved) = prove(alloc, problem, cert.as_str())?;
    Ok((printed, proved))
}

#[test]
fn raw_budgets_the_worked_problems(rt: HostRuntime) -> Result<(), Fail> {
    let chain = "problem 1\nnodes 3\nitem 0 1 40 100 3\nitem 1 2 30 90 2\nstart 0 0\nend 2 150\n";
    let fork =
        "problem 1\nnodes 4\nitem 0 1 10 100 1\nitem 1 2 10 100 1\nitem 1 3 10 100 1\nstart 0 0\nend 2 100\nend 3 100\n";
    for (problem, text, proved) in [
        (
            chain,
            "meets 80\ncertificate 1\nnode 0 0 0\nnode 1 0 100\nnode 2 0 150\nitem 0 1 0 100 2\nitem 1 2 0 50 2\nstart 0 0 2\nend 2 0 2\nweight 400\n",
            "holds 400\n",
        ),
        (
            fork,
            "meets 80\ncertificate 1\nnode 0 0 0\nnode 1 0 10\nnode 2 0 100\nnode 3 0 100\nitem 0 1 0 10 2\nitem 1 2 0 90 1\nitem 1 3 0 90 1\nstart 0 0 2\nend 2 0 1\nend 3 0 1\nweight 190\n",
            "holds 190\n",
        ),
        (
            "problem 1\nnodes 0\n",
            "no paths\ncertificate 1\nweight 0\n",
            "holds 0\n",
        ),
    ] {
        let (printed, answer) = budgeted(rt.alloc(), problem)?;
        assert_eq!(rt; printed.as_str(), text);
        assert_eq!(rt; answer.as_str(), proved);
    }
    Ok(())
}

#[test]
fn raw_writes_any_of_several_best_plans(rt: HostRuntime) -> Result<(), Fail> {
    for (problem, line, proved) in [
        (
            "problem 1\nnodes 3\nitem 0 1 40 100 3\nitem 1 2 30 90 2\nstart 0 0\nend 2 70\n",
            "meets 0\n",
            "holds 180\n",
        ),
        (
            "problem 1\nnodes 3\nitem 0 1 0 100 1\nitem 1 2 0 100 1\nstart 0 0\nend 2 150\n",
            "meets 150\n",
            "holds 150\n",
        ),
        (
            "problem 1\nnodes 2\nitem 1 0 1 1 0\nstart 1 0\nend 0 5\n",
            "meets 4\n",
            "holds 0\n",
        ),
        (
            "problem 1\nnodes 1\nstart 0 3\nend 0 5\n",
            "meets 2\n",
            "holds 0\n",
        ),
    ] {
        let (printed, answer) = budgeted(rt.alloc(), problem)?;
        assert!(rt; printed.as_str().starts_with(line));
        assert_eq!(rt; answer.as_str(), proved);
    }
    Ok(())
}

#[test]
fn raw_names_each_refusal(rt: HostRuntime) -> Result<(), Fail> {
    for (problem, status, text) in [
        ("problem 1\nnodes 1\n", 5, "design dead 0\n"),
        (
            "problem 1\nnodes 2\nitem 0 1 0 5 1\nitem 1 0 0 5 1\nstart 0 0\nend 1 9\n",
            5,
            "design cycle 2\narc 0 1\narc 1 0\n",
        ),
        (
            "problem 1\nnodes 3\nitem 0 1 40 100 3\nitem 1 2 30 90 2\nstart 0 0\nend 2 69",
            1,
            "violated -1\nstart 0 0 0\narc 0 1 40\narc 1 2 30\nend 2 0 69\n",
        ),
        ("problem 1\nnodes 1\nstart 1 0\n", 5, "design bad-node 1\n"),
        (
            "problem 1\nnodes 1\nitem 0 0 2 1 0\n",
            5,
            "design bad-bounds 0\n",
        ),
        (
            "problem 1\nnodes 1\nstart 0 2000000000001\n",
            5,
            "design bad-time 0\n",
        ),
        ("problem 1\nnodes 8388609\n", 6, "limit size 8388609\n"),
        ("problem 1\nnodes x\n", 4, "refused p 10 syntax\n"),
        ("problem 1\nnodes -1\n", 4, "refused p 16 value\n"),
    ] {
        let (answer, printed) = raw(rt.alloc(), problem)?;
        assert_eq!(rt; answer, status, "at {problem}");
        if status != 4 {
            assert_eq!(rt; printed.as_str(), text);
        }
    }
    Ok(())
}

#[test]
fn words_and_missing_files_are_named(rt: HostRuntime) -> Result<(), Fail> {
    let mut shelf = SafeShelf::new(rt.alloc());
    for (words, status, text) in [
        (["raw", "p"].as_slice(), 3, "fault p\n"),
        (["raw"].as_slice(), 2, "words\n"),
        ([].as_slice(), 2, "words\n"),
        (["paint", "p"].as_slice(), 2, "words\n"),
        (["least", "v", "d"].as_slice(), 2, "words\n"),
        (["least", "v", "d", "c"].as_slice(), 3, "fault v\n"),
        (["plan", "v", "d", "c", "p"].as_slice(), 2, "words\n"),
        (["check", "v", "d", "c", "p"].as_slice(), 2, "words\n"),
        (
            ["check", "v", "d", "c", "p", "k", "k"].as_slice(),
            2,
            "words\n",
        ),
    ] {
        let (answer, printed) = run(rt.alloc(), words, &mut shelf)?;
        assert_eq!(rt; answer, status);
        assert_eq!(rt; printed.as_str(), text);
    }
    Ok(())
}

#[test]
fn failing_calls_and_long_files_are_named(rt: HostRuntime) -> Result<(), Fail> {
    let mut shelf = MemShelf::new(rt.alloc());
    shelf.add("p", b"problem 1\nnodes 0\n")?;
    shelf.add_long("v", LONGEST_FILE + 1)?;
    shelf.fail_at(2)?;
    let mut sink = MemSink::new(rt.alloc());
    sink.fail_at(4)?;
    for (name, status) in [("p", 0), ("p", 3), ("v", 6), ("p", 3)] {
        let words = owned(rt.alloc(), &["raw", name])?;
        let answer = run_budget(rt.alloc(), words.as_slice(), &mut shelf, &mut sink);
        assert_eq!(rt; answer, status);
    }
    let printed = str::from_utf8(sink.bytes())?;
    assert!(rt;
        printed.starts_with("no paths\ncertificate 1\nweight 0\nfault p\nlimit v 268435457\n")
    );
    Ok(())
}

/// Runs `prove p c` over a shelf with a problem and a certificate.
fn prove(alloc: Global, problem: &str, cert: &str) -> Result<(u8, String), Fail> {
    let mut shelf = SafeShelf::new(alloc);
    shelf.add("p", problem.as_bytes())?;
    shelf.add("c", cert.as_bytes())?;
    run(alloc, &["prove", "p", "c"], &mut shelf)
}

#[test]
fn prove_judges_the_worked_certificates(rt: HostRuntime) -> Result<(), Fail> {
    let chain = "problem 1\nnodes 3\nitem 0 1 40 100 3\nitem 1 2 30 90 2\nstart 0 0\nend 2 150\n";
    for (node, budget, start, weight, status, text) in [
        (100, 100, 2, 400, 0, "holds 400\n"),
        (100, 100, 2, 399, 7, "certificate weight 400 399\n"),
        (100, 100, 1, 400, 7, "certificate balance 0 0\n"),
        (99, 100, 2, 400, 7, "certificate arrival 0 1 0\n"),
        (100, 101, 2, 400, 7, "certificate bounds 0 1 0\n"),
    ] {
        let head = format!(in rt.alloc(); "certificate 1\nnode 0 0 0\nnode 1 0 {node}\n")?;
        let items = format!(in rt.alloc();
            "node 2 0 150\nitem 0 1 0 {budget} 2\nitem 1 2 0 50 2\n"
        )?;
        let tail = format!(in rt.alloc(); "start 0 0 {start}\nend 2 0 2\nweight {weight}\n")?;
        let cert = format!(in rt.alloc(); "{head}{items}{tail}")?;
        let (answer, printed) = prove(rt.alloc(), chain, cert.as_str())?;
        assert_eq!(rt; answer, status);
        assert_eq!(rt; printed.as_str(), text);
    }
    for (problem, cert, status, text) in [
        (
            "problem 1\nnodes 0\n",
            "certificate 1\nweight 0\n",
            0,
            "holds 0\n",
        ),
        (
            "problem 1\nnodes 0\n",
            "certificate 1\nnode 0 0 0\nweight 0\n",
            7,
            "certificate shape\n",
        ),
        (
            "problem 1\nnodes 1\n",
            "certificate 1\nweight 0\n",
            5,
            "design dead 0\n",
        ),
    ] {
        let (answer, printed) = prove(rt.alloc(), problem, cert)?;
        assert_eq!(rt; answer, status);
        assert_eq!(rt; printed.as_str(), text);
    }
    let (answer, _) = prove(rt.alloc(), chain, "certif")?;
    assert_eq!(rt; answer, 4);
    Ok(())
}

#[test]
fn prove_reads_the_problem_and_then_the_certificate(rt: HostRuntime) -> Result<(), Fail> {
    for (call, text) in [(1, "fault p\n"), (2, "fault c\n")] {
        let mut shelf = MemShelf::new(rt.alloc());
        shelf.add("p", b"problem 1\nnodes 0\n")?;
        shelf.add("c", b"certificate 1\nweight 0\n")?;
        shelf.fail_at(call)?;
        let mut sink = MemSink::new(rt.alloc());
        let words = owned(rt.alloc(), &["prove", "p", "c"])?;
        let answer = run_budget(rt.alloc(), words.as_slice(), &mut shelf, &mut sink);
        assert_eq!(rt; answer, 3);
        assert_eq!(rt; str::from_utf8(sink.bytes())?, text);
    }
    Ok(())
}

#[test]
fn least_reads_a_netlist_then_delays_then_constraints(rt: HostRuntime) -> Result<(), Fail> {
    for (call, status, text) in [
        (1, 3, "fault v\n"),
        (2, 3, "fault d\n"),
        (3, 3, "fault c\n"),
        (4, 0, "no paths\n"),
    ] {
        let mut shelf = MemShelf::new(rt.alloc());
        shelf.add("v", b"module t (); endmodule")?;
        shelf.add("d", b"(DELAYFILE (DIVIDER /))")?;
        shelf.add("c", b"")?;
        shelf.fail_at(call)?;
        let mut sink = MemSink::new(rt.alloc());
        let words = owned(rt.alloc(), &["least", "v", "d", "c"])?;
        let answer = run_budget(rt.alloc(), words.as_slice(), &mut shelf, &mut sink);
        assert_eq!(rt; answer, status);
        assert_eq!(rt; str::from_utf8(sink.bytes())?, text);
    }
    Ok(())
}

/// A shelf that fails at this call, with a design without paths, a policy and a certificate.
fn pathless(alloc: Global, call: u64) -> Result<MemShelf, AllocError> {
    let mut shelf = MemShelf::new(alloc);
    shelf.add("v", b"module t (); endmodule")?;
    shelf.add("d", b"(DELAYFILE (DIVIDER /))")?;
    shelf.add("c", b"")?;
    shelf.add("p", b"policy 1\n")?;
    shelf.add("k", b"certificate 1\nweight 1\n")?;
    shelf.fail_at(call)?;
    Ok(shelf)
}

const PATHLESS: &str = "no paths
classes 0
nodes 0
items 0
weight 0
rest 0
unclocked 0
left-out 0
";

#[test]
fn plan_writes_and_check_reads_the_last_file(rt: HostRuntime) -> Result<(), Fail> {
    for (word, call, status, text) in [
        ("plan", 4, 3, "fault p\n"),
        ("plan", 5, 3, "fault k\n"),
        ("plan", 6, 0, PATHLESS),
        ("check", 4, 3, "fault p\n"),
        ("check", 5, 3, "fault k\n"),
        ("check", 6, 7, "certificate weight 0 1\n"),
    ] {
        let mut shelf = pathless(rt.alloc(), call)?;
        let mut sink = MemSink::new(rt.alloc());
        let words = owned(rt.alloc(), &[word, "v", "d", "c", "p", "k"])?;
        let answer = run_budget(rt.alloc(), words.as_slice(), &mut shelf, &mut sink);
        assert_eq!(rt; answer, status);
        assert_eq!(rt; str::from_utf8(sink.bytes())?, text);
        if answer == 0 {
            assert_eq!(rt;
                shelf.file("k"),
                Some(b"certificate 1\nweight 0\n".as_slice())
            );
        }
    }
    Ok(())
}

#[test]
fn make_reads_its_words_and_no_file(rt: HostRuntime) -> Result<(), Fail> {
    let summary = "gates 1
registers 0
meets 1012
classes 1
nodes 35
items 33
weight 9160
";
    for (gates, number, status, text) in [
        ("1", "0", 0, summary),
        ("0", "0", 2, "words\n"),
        ("20001", "0", 2, "words\n"),
        ("1", "2147483648", 2, "words\n"),
        ("1", "-0", 2, "words\n"),
    ] {
        let mut shelf = MemShelf::new(rt.alloc());
        shelf.fail_at(1)?;
        let mut sink = MemSink::new(rt.alloc());
        let words = owned(rt.alloc(), &["make", gates, number])?;
        let answer = run_budget(rt.alloc(), words.as_slice(), &mut shelf, &mut sink);
        assert_eq!(rt; answer, status);
        assert_eq!(rt; str::from_utf8(sink.bytes())?, text);
    }
    Ok(())
}

#[test]
fn make_budgets_many_gates(rt: HostRuntime) -> Result<(), Fail> {
    let mut shelf = SafeShelf::new(rt.alloc());
    let (answer, printed) = run(rt.alloc(), &["make", "2000", "7"], &mut shelf)?;
    assert_eq!(rt; answer, 0);
    assert!(rt;
        printed
            .as_str()
            .starts_with("gates 2000\nregisters 252\nmeets ")
    );
    Ok(())
}

/// An answer that says `done` and writes the files `a` and `b`.
fn written(alloc: Global) -> Result<Answer, Fail> {
    let mut answer = Answer::done(alloc, Text::from_vec(Vec::from_slice(alloc, b"done\n")?));
    let mut writes = Listed::new(alloc);
    for name in ["a", "b"] {
        writes.push(Write {
            name: String::from_str(alloc, name)?,
            bytes: Text::from_vec(Vec::from_slice(alloc, name.as_bytes())?),
        })?;
    }
    answer.writes = writes;
    Ok(answer)
}

#[test]
fn files_are_written_in_order_and_before_the_text(rt: HostRuntime) -> Result<(), Fail> {
    for (call, status, text, second) in [(2, 3, "fault b\n", false), (3, 0, "done\n", true)] {
        let mut shelf = MemShelf::new(rt.alloc());
        shelf.fail_at(call)?;
        let mut sink = MemSink::new(rt.alloc());
        let answer = written(rt.alloc())?;
        let number = finish(rt.alloc(), &mut shelf, &mut sink, Ok(answer));
        assert_eq!(rt; number, status);
        assert_eq!(rt; str::from_utf8(sink.bytes())?, text);
        assert!(rt; shelf.file("a").is_some());
        assert_eq!(rt; shelf.file("b").is_some(), second);
    }
    Ok(())
}
