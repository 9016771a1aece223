//! Worked runs from bytes to bytes.
ghost use Rattle.std.specs.Prelude.{◌≡◌, ◌≤◌, ◌<◌};

use crate::command::{Command, WordsFault, read_words};
use crate::top::aquarius;
use aq_base::limits::Limits;
use aq_base::memory_sink::MemorySink;
use aq_base::memory_source::MemorySource;
use aq_base::sink::Sink;
use aq_base::source::Source;
use aq_base::status::Status;
use aq_base::steps::Steps;
use std::alloc::{AllocError, Global};
use std::marker::Brand;
use std::sync::ledger::{Blank, Ledger};
use std::test::Fail;

/// The most bytes that a source may give.
const MOST_INPUT: usize = 16_777_216;

fn counted<S: Source, K: Sink, L: Ledger>(
    alloc: Global,
    words: &[String],
    source: &mut S,
    sink: &mut K,
    blank: Blank,
) -> Status
    requires name { blank.name ≡ L.name }
    requires parts { blank.parts ≡ L.parts }
    requires some_part { 0 < L.parts }
{
    let mut steps = Steps::<L>::new(blank);
    aquarius(alloc, words, source, sink, &mut steps)
}

/// The top call on a source and a sink in memory.
pub(crate) fn answer(
    alloc: Global,
    words: &[String],
    source: &mut MemorySource,
    sink: &mut MemorySink,
) -> Status {
    counted::<_, _, Brand>(alloc, words, source, sink, Blank::new(1))
}

pub(crate) fn words_of(alloc: Global, words: &[&str]) -> Result<Vec<String>, AllocError> {
    let mut all = Vec::new(alloc);
    for word in words {
        all.push(String::from_str(alloc, word)?)?;
    }
    Ok(all)
}

/// The bytes and the status of a run of words on a text that comes in pieces of at most `most` bytes.
fn run_in_pieces(
    alloc: Global,
    words: &[&str],
    text: &[u8],
    most: usize,
) -> Result<(MemorySink, Status), Fail>
    requires { 1 ≤ most }
{
    let words = words_of(alloc, words)?;
    let mut source = MemorySource::new(Vec::from_slice(alloc, text)?, most, Vec::new(alloc));
    let mut sink = MemorySink::new(alloc, 1_000_000, 1_000_000, Vec::new(alloc))?;
    let status = answer(alloc, &words, &mut source, &mut sink);
    Ok((sink, status))
}

/// A run by its line of words on a text that comes in pieces of at most 3 bytes.
fn run_line(alloc: Global, line: &str, text: &str) -> Result<(MemorySink, Status), Fail> {
    let words = words_in(alloc, line)?;
    let text = Vec::from_slice(alloc, text.as_bytes())?;
    let mut source = MemorySource::new(text, 3, Vec::new(alloc));
    let mut sink = MemorySink::new(alloc, 1_000_000, 1_000_000, Vec::new(alloc))?;
    let status = answer(alloc, &words, &mut source, &mut sink);
    Ok((sink, status))
}

#[test]
fn worked_runs(rt: HostRuntime) -> Result<(), Fail> {
    for (text, line, output, status) in [
        (
            ":- entry(p). p. q. p.",
            "run p",
            "true\n;\ntrue\n;\nno\n% code 4 steps 8 choices 1\n",
            Status::Solved,
        ),
        (
            ":- entry(p). p :- q, r. q. q. r.",
            "run p",
            "true\n;\ntrue\n;\nno\n% code 9 steps 16 choices 1\n",
            Status::Solved,
        ),
        (
            ":- entry(loop). loop :- loop.",
            "run loop --steps 1000",
            "limit: steps\n% code 1 steps 1000 choices 0\n",
            Status::StepLimit,
        ),
        (
            ":- entry(p). p :- q, r. q. q. r.",
            "run p --env 2",
            "limit: env\n% code 9 steps 1 choices 0\n",
            Status::AreaLimit,
        ),
        (
            ":- entry(p). p :- q, r. q. q. r.",
            "run p --choice 7",
            "limit: choice\n% code 9 steps 3 choices 0\n",
            Status::AreaLimit,
        ),
        (
            ":- entry(p). p. p :- p.",
            "run p --steps 9",
            "true\n;\ntrue\n;\nlimit: steps\n% code 4 steps 9 choices 2\n",
            Status::StepLimit,
        ),
        (
            "% p.\n:- entry(p). % q.\np.%\n",
            "run p",
            "true\n;\nno\n% code 1 steps 3 choices 0\n",
            Status::Solved,
        ),
    ] {
        let (sink, ended) = run_line(rt.alloc(), line, text)?;
        assert_eq!(rt; sink.bytes(), output.as_bytes(), "{line} on {text}");
        assert_eq!(rt; ended, status, "{line} on {text}");
    }
    Ok(())
}

/// Texts that only the whole reader takes, and what stands in front of the counts.
#[test]
fn other_spellings_run_too(rt: HostRuntime) -> Result<(), Fail> {
    let solved = "true\n;\nno\n";
    for (text, query) in [
        (":- entry(p). p:-q,r. q. r.", "p"),
        (":- entry(p).\tp.\tq.", "p"),
        (":- entry(p). p :- true.", "p"),
        (":- entry(p). p :- q, true, (r, s), true. q. r. s.", "p"),
        (":- entry(p). p :- ((q, r), s), q. q. r. s.", "p"),
        (":- entry('A b'). 'A b' :- 'Q'. 'Q'.", "'A b'"),
        (":- entry(p). p :- q, r. q. r.", "p."),
        (":- entry(p). p :- q, r. q. r.", "(p)"),
        (":- entry(q). :- entry(p). p. q. q.", "p"),
        (":-(entry(p)). p /* a */ :- q. q.", "p"),
        (":- entry(is). is.", "is"),
    ] {
        let words = words_of(rt.alloc(), &["run", query])?;
        let text_bytes = Vec::from_slice(rt.alloc(), text.as_bytes())?;
        let mut source = MemorySource::new(text_bytes, 100, Vec::new(rt.alloc()));
        let mut sink = MemorySink::new(rt.alloc(), 1_000, 1_000, Vec::new(rt.alloc()))?;
        let status = answer(rt.alloc(), &words, &mut source, &mut sink);
        assert_eq!(rt; status, Status::Solved, "{query} on {text}");
        assert!(rt;
            sink.bytes().starts_with(solved.as_bytes()),
            "{query} on {text}"
        );
    }
    Ok(())
}

#[test]
fn worked_refusals(rt: HostRuntime) -> Result<(), Fail> {
    let undefined = "refused: clause 1: entry undefined\n";
    let not_entry = "refused: query not entry\n";
    for (text, query, output) in [
        (":- entry(p). p(1).", "p", undefined),
        (":- entry(p). q.", "p", undefined),
        (":- entry(p). p.", "q", not_entry),
        (":- entry(p). p.", "q(1)", not_entry),
        (":- entry(p). p.", "true", not_entry),
        (":- entry(p). p :- q.", "q", not_entry),
        (":- entry(p). p.", "p(", "refused: query syntax\n"),
        (":- entry(p). p.p.", "p", "refused: clause 2: syntax\n"),
        (":- entry(p). p", "p", "refused: clause 2: token at 14\n"),
        ("", "p", "refused: no entry\n"),
    ] {
        let (sink, ended) = run_in_pieces(rt.alloc(), &["run", query], text.as_bytes(), 3)?;
        assert_eq!(rt; sink.bytes(), output.as_bytes(), "{query} on {text}");
        assert_eq!(rt; ended, Status::Refused, "{query} on {text}");
    }
    Ok(())
}

/// Programs that are compiled, and what stands in front of the counts.
#[test]
fn compiled_runs(rt: HostRuntime) -> Result<(), Fail> {
    let once = "true\n;\nno\n";
    let error = "error: existence_error(procedure,q/0)\n";
    for (text, query, output, status) in [
        (":- entry(p). p :- q.", "p", error, Status::Raised),
        (":- entry(p). p. q :- r.", "p", once, Status::Solved),
        (":- entry(p). p. q(1).", "p", once, Status::Solved),
        (":- entry(p). p :- !.", "p", once, Status::Solved),
        (":- entry(p). p :- fail.", "p", "no\n", Status::NoSolution),
        (
            APPEND_PROGRAM,
            APPEND_QUERY,
            "X = [1,2,3]\n;\nno\n",
            Status::Solved,
        ),
    ] {
        let (sink, ended) = run_in_pieces(rt.alloc(), &["run", query], text.as_bytes(), 100)?;
        assert!(rt;
            sink.bytes().starts_with(output.as_bytes()),
            "{query} on {text}"
        );
        assert_eq!(rt; ended, status, "{query} on {text}");
    }
    Ok(())
}

pub(crate) const APPEND_PROGRAM: &str =
    ":- entry(app(ground,ground,out)). app([],L,L). app([H|T],L,[H|R]) :- app(T,L,R).";

pub(crate) const APPEND_QUERY: &str = "app([1,2],[3],X)";

/// What is written for words and a text.
pub(crate) fn written(alloc: Global, words: &[&str], text: &[u8]) -> Result<Vec<u8>, Fail> {
    let (sink, _status) = run_in_pieces(alloc, words, text, 100)?;
    Ok(Vec::from_slice(alloc, sink.bytes())?)
}

#[test]
fn shown_code_comes_before_the_run(rt: HostRuntime) -> Result<(), Fail> {
    let alloc = rt.alloc();
    let text = APPEND_PROGRAM.as_bytes();
    let mut both = written(alloc, &["bam"], text)?;
    let run = written(alloc, &["run", APPEND_QUERY], text)?;
    both.extend_from_slice(&run)?;
    let shown = written(alloc, &["run", APPEND_QUERY, "--show"], text)?;
    assert_eq!(rt; shown.as_slice(), both.as_slice());
    Ok(())
}

#[test]
fn the_code_of_a_program_is_accepted_and_runs_alike(rt: HostRuntime) -> Result<(), Fail> {
    let alloc = rt.alloc();
    let text = APPEND_PROGRAM.as_bytes();
    let code = written(alloc, &["bam"], text)?;
    let verified = written(alloc, &["verify"], &code)?;
    assert_eq!(rt; verified.as_slice(), b"accepted\n".as_slice());
    let run = written(alloc, &["run", APPEND_QUERY], text)?;
    let again = written(alloc, &["exec", APPEND_QUERY], &code)?;
    assert_eq!(rt; again.as_slice(), run.as_slice());
    Ok(())
}

/// A made program reads no source, and sums its values.
#[test]
fn made_programs_run(rt: HostRuntime) -> Result<(), Fail> {
    let (sink, ended) = run_in_pieces(rt.alloc(), &["work", "1", "3"], b"p(", 100)?;
    assert!(rt; sink.bytes().starts_with(b"S = 1709\n;\nno\n"));
    assert_eq!(rt; ended, Status::Solved);
    Ok(())
}

/// A run at its exact need is whole, and with one less of a limit it stops there.
#[test]
fn each_limit_at_its_exact_need(rt: HostRuntime) -> Result<(), Fail> {
    let rules = ":- entry(p). p :- q, r. q. q. r.";
    let deep = ":- entry(a). a :- b, c. b :- d, c. d. d. c. c.";
    for (text, query, option, need, less, status) in [
        (rules, "p", "--steps", 16, 15, Status::StepLimit),
        (rules, "p", "--env", 3, 2, Status::AreaLimit),
        (rules, "p", "--choice", 8, 7, Status::AreaLimit),
        (deep, "a", "--env", 6, 5, Status::AreaLimit),
        (deep, "a", "--choice", 24, 23, Status::AreaLimit),
    ] {
        let (whole, ended) = run_line(rt.alloc(), &format!(in rt.alloc(); "run {query}")?, text)?;
        assert_eq!(rt; ended, Status::Solved, "{text}");
        let exact = format!(in rt.alloc(); "run {query} {option} {need}")?;
        let (sink, ended) = run_line(rt.alloc(), &exact, text)?;
        assert_eq!(rt; sink.bytes(), whole.bytes(), "{exact} on {text}");
        assert_eq!(rt; ended, Status::Solved, "{exact} on {text}");
        let short = format!(in rt.alloc(); "run {query} {option} {less}")?;
        let (_sink, ended) = run_line(rt.alloc(), &short, text)?;
        assert_eq!(rt; ended, status, "{short} on {text}");
    }
    Ok(())
}

/// A line of words with one space between two of them.
fn words_in(alloc: Global, line: &str) -> Result<Vec<String>, AllocError> {
    let mut all = Vec::new(alloc);
    for word in line.split(' ') {
        all.push(String::from_str(alloc, word)?)?;
    }
    Ok(all)
}

#[test]
fn other_words_are_bad(rt: HostRuntime) -> Result<(), Fail> {
    let lists: [&[&str]; 7] = [
        &[],
        &["run"],
        &["run", "p", "q"],
        &["Run", "p"],
        &["bam", "p"],
        &["verify", "p"],
        &["", ""],
    ];
    for words in lists {
        let (sink, status) = run_in_pieces(rt.alloc(), words, b":- entry(p). p.", 100)?;
        assert_eq!(rt; sink.bytes(), b"bad words\n".as_slice());
        assert_eq!(rt; status, Status::BadWords);
    }
    Ok(())
}

#[test]
fn other_options_are_bad(rt: HostRuntime) -> Result<(), Fail> {
    for line in [
        "run p --steps 0",
        "run p --heap 5 --heap 5",
        "run p --heap 5 --env 7 --heap 6",
        "run p --steps",
        "run p 5",
        "run p --steps 5 6",
        "run p --show --show",
        "run p --show 5",
        "run p --steps --show 5",
        "exec p --show",
        "work 1 0",
        "work 1 1001",
        "work 2147483648 1",
        "work 01 1",
        "work -1 1",
        "work 1",
        "work 1 1 1",
        "run p --Steps 5",
        "run p -steps 5",
        "run p --steps=5",
        "run p --stepss 5",
        "run p --steps --heap",
        "run p --steps ",
        "run p --steps 05",
        "run p --steps 00",
        "run p --steps +5",
        "run p --steps -5",
        "run p --steps 5x",
        "run p --steps 0x5",
        "run p --steps 1000000001",
        "run p --heap 67108865",
        "run p --env 16777217",
        "run p --choice 16777217",
        "run p --trail 16777217",
        "run p --work 16777217",
        "run p --work 0",
        "run p --steps 18446744073709551616",
        "run p --steps 18446744073709551621",
        "run p --heap 340282366920938463463374607431768211457",
        "run p --steps 5 --heap 6 --env 7 --choice 8 --trail 9 --work 10 --steps 5",
        "--steps 5 run p",
        "run --steps 5",
        "bam --steps 5",
    ] {
        let words = words_in(rt.alloc(), line)?;
        match read_words(rt.alloc(), &words) {
            Err(WordsFault::Bad) => (),
            _ => return Err(Fail::new("words that are a command")),
        }
    }
    Ok(())
}

#[test]
fn options_set_limits_in_any_order(rt: HostRuntime) -> Result<(), Fail> {
    let defaults = Limits::default_limits();
    let mut most = defaults;
    most.steps = 1_000_000_000;
    most.heap = 67_108_864;
    most.env = 16_777_216;
    most.choice = 16_777_216;
    most.trail = 16_777_216;
    most.work = 16_777_216;
    let mut least = defaults;
    least.steps = 1;
    least.heap = 2;
    least.env = 3;
    least.choice = 4;
    least.trail = 5;
    least.work = 6;
    let mut some = defaults;
    some.env = 70;
    some.work = 9;
    for (line, limits) in [
        ("run p", defaults),
        ("run p --work 9 --env 70", some),
        ("run p --work 9 --show --env 70", some),
        ("run p --env 70 --work 9", some),
        (
            "run p --steps 1 --heap 2 --env 3 --choice 4 --trail 5 --work 6",
            least,
        ),
        (
            "run p --work 16777216 --trail 16777216 --choice 16777216 --env 16777216 --heap 67108864 --steps 1000000000",
            most,
        ),
    ] {
        let words = words_in(rt.alloc(), line)?;
        let Ok(
            Command::Run {
                query,
                show: _,
                limits: set,
            },
        ) = read_words(rt.alloc(), &words)
        else {
            return Err(Fail::new("words that are no run"));
        };
        assert_eq!(rt; query.as_str(), "p");
        assert_eq!(rt; set, limits);
    }
    Ok(())
}

#[test]
fn the_second_word_is_the_query(rt: HostRuntime) -> Result<(), Fail> {
    let words = words_in(rt.alloc(), "run --steps --steps 5")?;
    let Ok(
        Command::Run {
            query,
            show: false,
            limits,
        },
    ) = read_words(rt.alloc(), &words)
    else {
        return Err(Fail::new("words that are no run"));
    };
    assert_eq!(rt; query.as_str(), "--steps");
    assert_eq!(rt; limits.steps, 5);
    Ok(())
}

#[test]
fn a_source_that_fails_at_once_gives_no_byte(rt: HostRuntime) -> Result<(), Fail> {
    let alloc = rt.alloc();
    let words = words_of(alloc, &["run", "p"])?;
    let text = Vec::from_slice(alloc, b":- entry(p). p.")?;
    let mut source = MemorySource::new(text, 100, vec![in alloc; 1]?);
    let mut sink = MemorySink::new(alloc, 100, 100, Vec::new(alloc))?;
    let status = answer(alloc, &words, &mut source, &mut sink);
    assert_eq!(rt; status, Status::ReadFault);
    assert_eq!(rt; sink.bytes().len(), 0);
    Ok(())
}

#[test]
fn a_sink_that_fails_at_its_second_byte_has_the_first(rt: HostRuntime) -> Result<(), Fail> {
    let alloc = rt.alloc();
    let words = words_of(alloc, &["run", "p"])?;
    let text = Vec::from_slice(alloc, b":- entry(p). p.")?;
    let mut source = MemorySource::new(text, 100, Vec::new(alloc));
    let mut sink = MemorySink::new(alloc, 100, 1, vec![in alloc; 2]?)?;
    let status = answer(alloc, &words, &mut source, &mut sink);
    assert_eq!(rt; status, Status::WriteFault);
    assert_eq!(rt; sink.bytes(), b"t".as_slice());
    Ok(())
}

#[test]
fn one_byte_too_many_is_refused_in_any_pieces(rt: HostRuntime) -> Result<(), Fail> {
    let alloc = rt.alloc();
    let mut text = Vec::from_slice(alloc, b":- entry(p). p.")?;
    text.resize(MOST_INPUT, b' ')?;
    let (sink, status) = run_in_pieces(alloc, &["run", "p"], &text, 4_096)?;
    assert_eq!(rt;
        sink.bytes(),
        b"true\n;\nno\n% code 1 steps 3 choices 0\n".as_slice()
    );
    assert_eq!(rt; status, Status::Solved);
    text.push(b' ')?;
    for most in [1, 4_095, MOST_INPUT, MOST_INPUT + 1] {
        let (sink, status) = run_in_pieces(alloc, &["run", "p"], &text, most)?;
        assert_eq!(rt; sink.bytes(), b"refused: input length\n".as_slice());
        assert_eq!(rt; status, Status::Refused);
    }
    Ok(())
}

/// Bodies of names as long as the language takes them and one goal longer, in both spellings.
#[test]
fn bodies_at_their_bound(rt: HostRuntime) -> Result<(), Fail> {
    let alloc = rt.alloc();
    for (comma, more, status) in [
        (", ", 4_094, Status::Solved),
        (",", 4_094, Status::Solved),
        (", ", 4_095, Status::Refused),
        (",", 4_095, Status::Refused),
    ] {
        let mut text = String::from_str(alloc, ":- entry(p). q. p :- q")?;
        for _ in 0..more {
            text.push_str(comma)?;
            text.push_str("q")?;
        }
        text.push_str(".")?;
        let (sink, ended) = run_in_pieces(alloc, &["run", "p"], text.as_bytes(), 4_096)?;
        assert_eq!(rt; ended, status);
        if ended == Status::Refused {
            assert_eq!(rt; sink.bytes(), b"refused: clause 3: depth\n".as_slice());
        }
    }
    Ok(())
}

#[test]
fn a_sink_without_room_has_the_first_bytes_of_the_run(rt: HostRuntime) -> Result<(), Fail> {
    let alloc = rt.alloc();
    let whole = "true\n;\ntrue\n;\nno\n% code 9 steps 16 choices 1\n";
    let words = words_of(alloc, &["run", "p"])?;
    for room in [0, 1, 6, 7, 13, 14, 16, 17, 24, 40, 46] {
        let text = Vec::from_slice(alloc, b":- entry(p). p :- q, r. q. q. r.")?;
        let mut source = MemorySource::new(text, 1, Vec::new(alloc));
        let mut sink = MemorySink::new(alloc, room, 1, Vec::new(alloc))?;
        let status = answer(alloc, &words, &mut source, &mut sink);
        if room < whole.len() {
            assert_eq!(rt; status, Status::WriteFault);
            assert_eq!(rt; sink.bytes(), &whole.as_bytes()[..room]);
        } else {
            assert_eq!(rt; status, Status::Solved);
            assert_eq!(rt; sink.bytes(), whole.as_bytes());
        }
    }
    Ok(())
}

const APPEND: &str =
    "bam 1\nentry 'app'/3 ground ground out\nproc 'app'/3 full full out -> ground ground full\nswitch r0 var=* atm=0 int=- lst=1 str=-\nlabel 0 - a0:ground a1:ground r0:atm=a0 r1:full=a1 r2:hole:full=a2\nmatch r0 '[]' -\nfill r2 r1\nreturn\nlabel 1 - a0:ground a1:ground r0:flst=a0 r1:full=a1 r2:hole:full=a2\nload r64 r0 0\nload r65 r0 1\nlst r66\npush r64\nhole r67 full\nfill r2 r66\nmove r0 r65\nmove r2 r67\nexec 'app'/3\nend\n";

const CALLER: &str = "bam 1\nentry 'p'/0\nimport 'q'/0 ->\nproc 'p'/0 ->\nexec 'q'/0\nend\n";

const CALLED: &str = "bam 1\nproc 'q'/0 ->\nreturn\nend\n";

const JOINED: &str =
    "bam 1\nentry 'p'/0\nproc 'p'/0 ->\nexec 'q'/0\nend\nproc 'q'/0 ->\nreturn\nend\n";

#[test]
fn texts_of_code_are_verified_and_joined(rt: HostRuntime) -> Result<(), Fail> {
    let alloc = rt.alloc();
    let both = format!(in alloc; "{CALLER}{CALLED}")?;
    for (command, text, written, expected) in [
        ("verify", APPEND, "accepted\n", Status::Solved),
        ("verify", CALLER, "accepted\n", Status::Solved),
        ("verify", "bam 2\n", "refused: line 2\n", Status::Refused),
        (
            "verify",
            "bam 1\nproc 'p'/0 ->\nfail\nreturn\nend\n",
            "refused: proc 1 line 2: flow\n",
            Status::Refused,
        ),
        ("join", both.as_str(), JOINED, Status::Solved),
        ("join", "", "refused: part 1 line 1\n", Status::Refused),
    ] {
        let (sink, status) = run_in_pieces(alloc, &[command], text.as_bytes(), 7)?;
        assert_eq!(rt; sink.bytes(), written.as_bytes(), "{command} {text}");
        assert_eq!(rt; status, expected);
    }
    Ok(())
}
