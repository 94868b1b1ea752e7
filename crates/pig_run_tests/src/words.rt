//! Commands by hand, and words that are none.
// Trees end by `drop`: one call is cheap to prove, and a tree that dies by name is taken apart
// variant by variant.
use pig_setting_tests::words_of;
use pig_value::{WordFault, Words};
use pig_words::{Command, read_words};
use std::alloc::Global;
use std::process::Abort;

// The command's verb, operand, workers, reducers, split and attempts, and each parameter.
fn shown_command<R: Abort>(rt: &R, alloc: Global, command: &Command) -> String {
    let verb = command.verb;
    let operand = command.operand.as_str();
    let (workers, reducers, split) = (command.workers, command.reducers, command.split);
    let attempts = command.attempts;
    let text = format!(in alloc; "{verb:?} {operand} {workers} {reducers} {split} {attempts}");
    let mut text = text.expect(rt, "memory");
    for param in command.params.as_slice() {
        let (name, value) = (param.name.as_str(), param.value.as_str());
        let shown = format!(in alloc; " {name}={value}").expect(rt, "memory");
        text.push_str(shown.as_str()).expect(rt, "memory");
    }
    text
}

// The command, or the fault.
fn shown_answer<R: Abort>(rt: &R, alloc: Global, found: &Result<Command, WordFault>) -> String {
    match found {
        Ok(command) => shown_command(rt, alloc, command),
        Err(WordFault::Usage) => String::from_str(alloc, "usage").expect(rt, "memory"),
        Err(WordFault::OutOfMemory) => {
            String::from_str(alloc, "out of memory").expect(rt, "memory")
        }
    }
}

// What the words are read as.
fn shown<R: Abort>(rt: &R, alloc: Global, words: &Words, hosts: u32) -> String {
    let found = read_words(alloc, words, hosts.clamp(1, 256));
    let shown = shown_answer(rt, alloc, &found);
    drop(found);
    shown
}

// Each line: the number of hosts, the words, and what they are.

// Verbs and operands.
const VERBS: &str = "\
16||usage
16|run|usage
16|help|usage
16|s run|usage
16|Run s|usage
16|runs s|usage
16|run s|Run s 4 4 1048576 4
16|explain s|Explain s 4 4 1048576 4
16|check s|Check s 4 4 1048576 4
16|demo 4|Demo 4 4 4 1048576 4
16|run help|Run help 4 4 1048576 4
16|run run|Run run 4 4 1048576 4
16|run |Run  4 4 1048576 4
16|run é|Run é 4 4 1048576 4
16|run s t|usage
16|run  s|usage
";

// Each option, in both forms and both places.
const OPTIONS: &str = "\
16|run --workers 3 s|Run s 3 4 1048576 4
16|run --workers=3 s|Run s 3 4 1048576 4
16|run s --workers 3|Run s 3 4 1048576 4
16|run s --workers=3|Run s 3 4 1048576 4
16|run --reducers 2 s|Run s 4 2 1048576 4
16|run --reducers=2 s|Run s 4 2 1048576 4
16|run s --reducers 2|Run s 4 2 1048576 4
16|run s --reducers=2|Run s 4 2 1048576 4
16|run --split 7 s|Run s 4 4 7 4
16|run --split=7 s|Run s 4 4 7 4
16|run s --split 7|Run s 4 4 7 4
16|run s --split=7|Run s 4 4 7 4
16|explain --split 9 s --reducers=2 --workers 1|Explain s 1 2 9 4
16|check --workers=1 --reducers 3 --split=5 s|Check s 1 3 5 4
16|demo --workers 2 3|Demo 3 2 4 1048576 4
16|run --attempts 1 s|Run s 4 4 1048576 1
16|run s --attempts=16|Run s 4 4 1048576 16
16|check --attempts 2 --split=5 s --workers 1 --reducers 9|Check s 1 9 5 2
";

// Options twice, without a value, and others.
const FAULTS: &str = "\
16|run s --workers=2 --workers 3|usage
16|run s --workers 2 --workers=2|usage
16|run --reducers=1 s --reducers 2|usage
16|run --split 5 --split 5 s|usage
16|run --attempts=5 s --attempts 5|usage
16|run s --attempts|usage
16|run s --attempt 2|usage
16|run s --workers|usage
16|run s --workers --split 5|usage
16|run --workers -- s|usage
16|run --workers s|usage
16|run s --workers=2=3|usage
16|run s --work 2|usage
16|run s --WORKERS 2|usage
16|run s --operand=t|usage
16|run s --=5|usage
16|run s ---|usage
16|run --é s|usage
16|--workers 2 run s|usage
16|--help|usage
16|run --help|usage
16|run s --version|usage
16|run s -h|usage
";

// Dashes.
const DASHES: &str = "\
16|run -|Run - 4 4 1048576 4
16|run s -|usage
16|run -x|usage
16|run -x s|usage
16|run -é|usage
16|run -1|usage
16|run --|usage
16|run s --|Run s 4 4 1048576 4
16|run s --workers 2 --|Run s 2 4 1048576 4
16|run -- s|Run s 4 4 1048576 4
16|run -- -x|Run -x 4 4 1048576 4
16|run -- --|Run -- 4 4 1048576 4
16|run -- --workers=2|Run --workers=2 4 4 1048576 4
16|run --split=2 -- -|Run - 4 4 2 4
16|run -- s t|usage
16|run s -- t|usage
16|run -- s --|usage
16|run -- s --workers 2|usage
16|run -- --workers 2|usage
16|-- run s|usage
";

// Values: their digits and their ranges.
const VALUES: &str = "\
16|run s --workers=|usage
16|run s --workers |usage
16|run s --workers 0|usage
16|run s --workers 000000000|usage
16|run s --workers 000000001|Run s 1 4 1048576 4
16|run s --workers 0000000001|usage
16|run s --workers 007|Run s 7 4 1048576 4
16|run s --workers +3|usage
16|run s --workers -3|usage
16|run s --workers -|usage
16|run s --workers 3x|usage
16|run s --workers 16|Run s 16 4 1048576 4
16|run s --workers 17|usage
256|run s --workers 256|Run s 256 4 1048576 4
256|run s --workers 257|usage
1|run s|Run s 1 4 1048576 4
3|run s|Run s 3 4 1048576 4
3|run s --workers 4|usage
16|run s --reducers 0|usage
16|run s --reducers 256|Run s 4 256 1048576 4
16|run s --reducers 257|usage
16|run s --split 1|Run s 4 4 1 4
16|run s --split 67108864|Run s 4 4 67108864 4
16|run s --split 67108865|usage
16|run s --split 999999999|usage
16|run s --attempts 0|usage
16|run s --attempts 17|usage
16|run s --attempts 016|Run s 4 4 1048576 16
";

// The count of `demo`.
const COUNTS: &str = "\
16|demo 0|usage
16|demo 1|Demo 1 4 4 1048576 4
16|demo 000100000|Demo 000100000 4 4 1048576 4
16|demo 0000000001|usage
16|demo 100001|usage
16|demo s|usage
16|demo -- 5|Demo 5 4 4 1048576 4
";

// Parameters, which are taken out before all else up to `--`.
const PARAMS: &str = "\
16|run s --param n=1|Run s 4 4 1048576 4 n=1
16|run --param n=1 s|Run s 4 4 1048576 4 n=1
16|--param n=1 run s|Run s 4 4 1048576 4 n=1
16|run s --param=n=1|Run s 4 4 1048576 4 n=1
16|run s --param n=|Run s 4 4 1048576 4 n=
16|run s --param n=a=b|Run s 4 4 1048576 4 n=a=b
16|run s --param n=$n;'|Run s 4 4 1048576 4 n=$n;'
16|run s --param _x9=1 --param=_x9=2|Run s 4 4 1048576 4 _x9=1 _x9=2
16|run --workers --param n=1 3 s|Run s 3 4 1048576 4 n=1
16|explain s --param n=--workers|Explain s 4 4 1048576 4 n=--workers
16|check --param n=1 -- -s|Check -s 4 4 1048576 4 n=1
16|demo 3 --param n=1|Demo 3 4 4 1048576 4 n=1
16|run -- --param=n=1|Run --param=n=1 4 4 1048576 4
16|run s -- --param n=1|usage
16|run --param n=1|usage
16|run --param -- n=1|usage
16|run s --param|usage
16|run s --param n|usage
16|run s --param 1=2|usage
16|run s --param =2|usage
16|run s --param=|usage
16|run s --param=n|usage
16|run s --param é=2|usage
16|run s --param n-1=2|usage
16|run s --params n=1|usage
16|run s --PARAM n=1|usage
";

// The first line of a table that is answered otherwise; nothing where there is none.
fn first_wrong<'t, R: Abort>(rt: &R, alloc: Global, table: &'t str) -> &'t str {
    for case in table.lines() {
        let mut parts = case.split('|');
        let (Some(hosts), Some(line), Some(wanted)) = (parts.next(), parts.next(), parts.next())
        else {
            return case;
        };
        let words = words_of(alloc, line).expect(rt, "memory");
        let found = shown(rt, alloc, &words, hosts.parse().unwrap_or(0));
        if found.as_str() != wanted {
            return case;
        }
    }
    ""
}

#[test]
fn reads_each_command(rt: HostRuntime) {
    for table in [VERBS, OPTIONS, FAULTS, DASHES, VALUES, COUNTS, PARAMS] {
        assert_eq!(rt; first_wrong(&rt, rt.alloc(), table), "");
    }
    let none = Words::new(rt.alloc());
    let found = shown(&rt, rt.alloc(), &none, 16);
    assert_eq!(rt; found.as_str(), "usage");
}

// The words `run s` with so many parameters.
fn with_params<R: Abort>(rt: &R, alloc: Global, count: usize) -> Words {
    let mut line = String::from_str(alloc, "run s").expect(rt, "memory");
    for _ in 0..count {
        line.push_str(" --param=n=1").expect(rt, "memory");
    }
    words_of(alloc, line.as_str()).expect(rt, "memory")
}

#[test]
fn at_most_64_parameters_are_taken(rt: HostRuntime) {
    let alloc = rt.alloc();
    let found = read_words(alloc, &with_params(&rt, alloc, 64), 16);
    let taken = match &found {
        Ok(command) => command.params.len(),
        Err(_) => 0,
    };
    drop(found);
    assert_eq!(rt; taken, 64);
    let found = shown(&rt, alloc, &with_params(&rt, alloc, 65), 16);
    assert_eq!(rt; found.as_str(), "usage");
}
