//! What a table gives of rows: one entry for each key, ascending, with its parts.
//!
//! Where memory is wanting the process ends: that drops nothing, so its proof is short.
ghost use Rattle.std.specs.Prelude.{◌≡◌, [], map, IfOk};
ghost use Rattle.pig_value.specs.Trees.{row_tree, tree};
ghost use Rattle.pig_value.specs.Valid.{IsRow, IsValue};
ghost use Rattle.pig_algebra.specs.Combining.{combined, parts_by};
ghost use Rattle.pig_algebra.specs.Cuts.{cut_typed};
ghost use Rattle.pig_runs.specs.Entries.{AreKeyed, keyed, run_of as run_of_tree};
ghost use Rattle.pig_combine_tests.specs.Added.{as_added};

use pig_algebra::{Cut, Cuts};
use pig_combine::Table;
use pig_keycode::{decode, decode_row, encode, encode_row};
use pig_runs::{Entry, Run};
use pig_typed::TExpr;
use pig_value::{Dir, Function, Positions, Seq, Text, Tuple, Value, order_rows, same};
use std::alloc::{AllocError, Global};
use std::process::Abort;

// The cuts, the rows and the entries of tables, with `;` between. A cut is `key`, `row`, a function, or a function of a
// column behind a dot; a row and an entry are a key, `:` and fields with commas between: `-` a null, `5` a long, other
// words chararrays, and `(` before a word a tuple of it.
const TABLE: &str = "COUNT COUNT_STAR ; ;
key COUNT.1 COUNT_STAR.1 SUM.1 MIN.1 ; g:g,- g:g,- ; g:0,2,-,-
COUNT ; 1:-,1 1:x,1 ; 1:1
SUM.0 ; all:9223372036854775807 all:1 all:5 ; all:-9223372036854775803
SUM.0 key ; b:1 a:2 b:3 -:4 a:5 ; -:4 a:7 b:4
MIN.1 MAX.1 ; k:0,m k:0,b k:0,- k:0,z l:0,- ; k:b,z l:-,-
MAX.0 MIN.0 COUNT.1 key ; k:3,- k:-2,x k:7,y ; k:7,-2,2
MIN SUM MAX ; k:5 k:4,4 k:6 ; k:5,11,6
row ; (b:b (a:a (b:b (b:b ; (a:(a (b:(b
SIZE COUNT_STAR ; k:1 ; k:-,1
COUNT_STAR ; \u{2}:1 a:1 \u{2}:1 :1 ; :1 \u{2}:2 a:1
COUNT_STAR ; 3:- 1:- 2:- 10:- 2:- ; 1:1 2:2 3:1 10:1";

fn push<R: Abort, T: Drop>(rt: &R, list: &mut Seq<T>, item: T) {
    list.push(item).expect(rt, "memory");
}

fn text<R: Abort>(rt: &R, alloc: Global, word: &str) -> Value {
    let text = String::from_str(alloc, word).expect(rt, "memory");
    Value::Chars(Text::from_string(text))
}

fn plain<R: Abort>(rt: &R, alloc: Global, word: &str) -> Value {
    if word == "-" {
        return Value::Null;
    }
    match word.parse::<i64>().ok() {
        Some(n) => Value::Long(n),
        None => text(rt, alloc, word),
    }
}

fn field<R: Abort>(rt: &R, alloc: Global, word: &str) -> Value {
    let Some(inner) = word.strip_prefix("(") else {
        return plain(rt, alloc, word);
    };
    let mut fields = Seq::new(alloc);
    push(rt, &mut fields, plain(rt, alloc, inner));
    Value::Tuple(fields)
}

fn fields<R: Abort>(rt: &R, alloc: Global, words: &str) -> Tuple {
    let mut row = Seq::new(alloc);
    for word in words.split(',') {
        push(rt, &mut row, field(rt, alloc, word));
    }
    row
}

// A row, read back from its code, which shows that it is of values.
fn sound_row<R: Abort>(rt: &R, alloc: Global, words: &str) -> Tuple
    ensures { IsRow (row_tree result) }
{
    let any = fields(rt, alloc, words);
    let mut bytes = Vec::new(alloc);
    encode_row(&any, &mut bytes).expect(rt, "memory");
    drop(any);
    let read = decode_row(alloc, bytes.as_slice()).expect(rt, "memory");
    read.expect(rt, "the row")
}

fn sound<R: Abort>(rt: &R, alloc: Global, word: &str) -> Value
    ensures { IsValue (tree result) }
{
    let any = field(rt, alloc, word);
    let mut bytes = Vec::new(alloc);
    encode(&any, Dir::Asc, &mut bytes).expect(rt, "memory");
    drop(any);
    let read = decode(alloc, bytes.as_slice()).expect(rt, "memory");
    read.expect(rt, "the value")
}

fn position<R: Abort>(rt: &R, alloc: Global, place: &str) -> Positions {
    let mut fields = Seq::new(alloc);
    push(rt, &mut fields, place.parse::<u32>().unwrap_or(0));
    fields
}

fn part<R: Abort>(rt: &R, alloc: Global, word: &str) -> Cut {
    let (name, columns) = match word.split_once('.') {
        Some((name, place)) => (name, Some(position(rt, alloc, place))),
        None => (word, None),
    };
    Cut::Part {
        function: Function::named(name).unwrap_or(Function::Size),
        columns,
    }
}

fn cut<R: Abort>(rt: &R, alloc: Global, word: &str) -> Cut {
    match word {
        "key" => Cut::Key(TExpr::Field(0)),
        "row" => Cut::Row,
        _ => part(rt, alloc, word),
    }
}

fn cuts<R: Abort>(rt: &R, alloc: Global, words: &str) -> Cuts {
    let mut cuts = Seq::new(alloc);
    for word in words.split_ascii_whitespace() {
        push(rt, &mut cuts, cut(rt, alloc, word));
    }
    cuts
}

// Adds a row under its key. A call that is refused is made again, and finds the table as it was.
fn add<R: Abort>(rt: &R, alloc: Global, table: &mut Table, word: &str) {
    let (key, row) = word.split_once(':').unwrap_or((word, ""));
    let key = sound(rt, alloc, key);
    let row = sound_row(rt, alloc, row);
    if table.add(&key, &row).is_err() {
        table.add(&key, &row).expect(rt, "memory");
    }
    drop((key, row));
}

// The run of rows under their keys.
fn run_of<R: Abort>(rt: &R, alloc: Global, cut_words: &str, rows: &str) -> Run
    ensures { result.dirs ≡ [] }
{
    let cuts = cuts(rt, alloc, cut_words);
    let mut table = Table::new(alloc, cuts).expect(rt, "memory");
    for word in rows.split_ascii_whitespace() {
        add(rt, alloc, &mut table, word);
    }
    table.flush().expect(rt, "memory")
}

// The run of entries that are added in turn.
fn combined_run(alloc: Global, cuts: Cuts, entries: &[Entry]) -> Result<Run, AllocError>
    requires { AreKeyed [] (map keyed entries.now) }
    ensures { IfOk result (λ run. run ≡ run_of_tree []
        (combined (parts_by (map cut_typed cuts)) (map as_added entries.now))) }
{
    let mut table = Table::new(alloc, cuts)?;
    for entry in entries {
        table.add(&entry.key, &entry.row)?;
    }
    table.flush()
}

// Whether the entry at a place is that of the word.
fn has_entry<R: Abort>(rt: &R, alloc: Global, run: &Run, at: usize, word: &str) -> bool
    requires { run.now.dirs ≡ [] }
{
    if at >= run.len() {
        return false;
    }
    let (key, row) = word.split_once(':').unwrap_or((word, ""));
    let found = run.key(alloc, at).expect(rt, "memory");
    let found_row = run.row(alloc, at).expect(rt, "memory");
    let wanted = field(rt, alloc, key);
    let wanted_row = fields(rt, alloc, row);
    let right = same(&found, &wanted) && order_rows(&found_row, &wanted_row).is_eq();
    drop((found, wanted));
    drop((found_row, wanted_row));
    right
}

fn has_entries<R: Abort>(rt: &R, alloc: Global, run: &Run, words: &str) -> bool
    requires { run.now.dirs ≡ [] }
{
    let mut at: usize = 0;
    for word in words.split_ascii_whitespace() {
        if !has_entry(rt, alloc, run, at, word) {
            return false;
        }
        at = at.saturating_add(1);
    }
    run.len() == at
}

fn holds<R: Abort>(rt: &R, alloc: Global, line: &str) -> bool {
    let (cut_words, rest) = line.split_once(" ;").unwrap_or((line, ""));
    let (rows, entries) = rest.split_once(" ;").unwrap_or((rest, ""));
    let run = run_of(rt, alloc, cut_words, rows);
    let right = has_entries(rt, alloc, &run, entries);
    drop(run);
    right
}

#[test]
fn a_table_has_one_entry_for_each_key(rt: HostRuntime) {
    for line in TABLE.lines() {
        assert!(rt; holds(&rt, rt.alloc(), line), "{line}");
    }
}

fn entry<R: Abort>(rt: &R, alloc: Global, key: &str, row: &str) -> Entry
    ensures key { IsValue (tree result.key) }
    ensures row { IsRow (row_tree result.row) }
{
    Entry {
        key: sound(rt, alloc, key),
        input: 0,
        row: sound_row(rt, alloc, row),
    }
}

#[test]
fn entries_are_combined(rt: HostRuntime) {
    let alloc = rt.alloc();
    let cuts = cuts(&rt, alloc, "COUNT SUM.1");
    let entries = [
        entry(&rt, alloc, "b", "x,1"),
        entry(&rt, alloc, "a", "-,2"),
        entry(&rt, alloc, "b", "y,3"),
    ];
    let run = combined_run(alloc, cuts, entries.as_slice()).expect(&rt, "memory");
    assert!(rt; has_entries(&rt, alloc, &run, "a:0,2 b:2,4"), "the parts");
    drop((run, entries));
}
