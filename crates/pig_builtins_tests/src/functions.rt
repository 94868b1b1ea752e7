//! What the functions give of arguments, and the folds of columns. Where memory is wanting the process ends: that drops
//! nothing, so its proof is short.
// Trees end by `drop`: one call is cheap to prove, and a tree that dies by name is taken apart variant by variant.
use pig_builtins::{Fold, apply, apply_column};
use pig_value::{Blob, Function, Pair, Pairs, Rows, Seq, Text, Tuple, Value, bag, copy, same};
use std::alloc::Global;
use std::process::Abort;

// A line for each call: the function, its arguments, `=` and what it gives.
//
// A value is `null`, `true`, `false`, `5` an int, `5L` a long, `'a_b` a chararray with spaces for `_`, or `#61ff` a
// bytearray; `(2`, `{2`, `<2` and `[2` make a tuple, a bag, a listed bag and a map with the keys a, b .. of the two
// values before them. `TOBAG2` is TOBAG of tuples of two fields.
const TABLE: &str = "COUNT = null
COUNT null = null
COUNT 5 = null
COUNT {0 = 0L
COUNT {0 {0 = null
COUNT null (1 null (1 {2 = 0L
COUNT null 1 (2 'x 1 (2 {2 = 1L
COUNT null 1 (2 'x 1 (2 <2 = 1L
COUNT (0 {1 = 0L
COUNT_STAR null (1 null (1 {2 = 2L
COUNT_STAR {0 = 0L
COUNT_STAR 5 = null
SUM null (1 null (1 {2 = null
SUM {0 = null
SUM 1 (1 null (1 5 (1 {3 = 6L
SUM 2147483647 (1 1 (1 {2 = 2147483648L
SUM 9223372036854775807L (1 1L (1 5L (1 {3 = -9223372036854775803L
SUM -9223372036854775808L (1 -1L (1 {2 = 9223372036854775807L
SUM 'a (1 {1 = null
SUM 1 2 (2 {1 = null
SUM = null
MIN null (1 null (1 {2 = null
MIN 3 (1 null (1 -2 (1 <3 = -2
MIN 'b (1 'a (1 {2 = 'a
MIN true (1 {1 = null
MIN 1 2 (2 {1 = null
MIN 'b (1 'B (1 {2 = 'B
MIN 7L (1 -7L (1 {2 = -7L
MAX 3 (1 null (1 -2 (1 {3 = 3
MAX 'b (1 'ab (1 {2 = 'b
MAX {0 = null
SIZE null = null
SIZE true = 1L
SIZE 7 = 1L
SIZE 7L = 1L
SIZE 'héllo = 5L
SIZE ' = 0L
SIZE #ff00 = 2L
SIZE 1 null (2 = 2L
SIZE 1 (1 1 (1 {2 = 2L
SIZE 1 (1 1 (1 1 (1 <3 = 3L
SIZE 1 2 [2 = 2L
SIZE 1 2 = null
CONCAT 'a = null
CONCAT 'héllo 'banana = 'héllobanana
CONCAT 'a ' 'b 'c = 'abc
CONCAT #c3 #a9 = #c3a9
CONCAT #ff #fe #61 = #fffe61
CONCAT 'a null = null
CONCAT null 'a 'b = null
CONCAT 'a #61 = null
IsEmpty {0 = true
IsEmpty <0 = true
IsEmpty [0 = true
IsEmpty 1 (1 {1 = false
IsEmpty 1 [1 = false
IsEmpty null = null
IsEmpty ' = null
IsEmpty {0 {0 = null
TOKENIZE 'the_dog,_the_end = 'the (1 'dog (1 'the (1 'end (1 {4
TOKENIZE 'a\"b(c)d*é = 'a (1 'b (1 'c (1 'd (1 'é (1 {5
TOKENIZE '_,*()\" = {0
TOKENIZE ' = {0
TOKENIZE #61 = null
TOKENIZE 'a 'b = null
SUBSTRING 'héllo 1 3 = 'él
SUBSTRING 'héllo 3 9 = 'lo
SUBSTRING 'héllo 0 5 = 'héllo
SUBSTRING 'héllo 5 5 = '
SUBSTRING 'héllo 5 9 = '
SUBSTRING 'héllo 6 9 = null
SUBSTRING 'héllo -1 3 = null
SUBSTRING 'héllo 3 2 = null
SUBSTRING 'héllo 2 -1 = null
SUBSTRING 'héllo 1L 3L = null
SUBSTRING null 1 3 = null
SUBSTRING 'héllo 1 = null
STARTSWITH 'banana 'ba = true
STARTSWITH 'banana 'na = false
STARTSWITH 'ba 'banana = false
STARTSWITH 'ba ' = true
STARTSWITH 'ba null = null
STARTSWITH 'ba = null
ENDSWITH 'banana 'na = true
ENDSWITH 'banana 'ba = false
ENDSWITH 'na 'banana = false
ENDSWITH 'é ' = true
ENDSWITH null 'a = null
ENDSWITH 'a 'a 'a = null
INDEXOF 'banana 'na = 2
INDEXOF 'banana 'x = -1
INDEXOF 'héllo 'l = 2
INDEXOF 'banana ' = 0
INDEXOF ' ' = 0
INDEXOF 'na 'banana = -1
INDEXOF 'banana #6e = null
INDEXOF 'banana = null
ABS -5 = 5
ABS 5L = 5L
ABS -2147483648 = -2147483648
ABS -9223372036854775808L = -9223372036854775808L
ABS '5 = null
ABS = null
TOTUPLE = null
TOTUPLE 1 null = 1 null (2
TOBAG = null
TOBAG 2 null 1 = null (1 1 (1 2 (1 {3
TOBAG 1 2 (2 = null
TOBAG2 3 4 (2 1 2 (2 = 1 2 (2 3 4 (2 {2
TOBAG2 null null = null null (2 null null (2 {2
TOBAG2 null 1 2 (2 = null null (2 1 2 (2 {2
TOBAG2 1 (1 = null
TOBAG2 5 = null
";

// Adds to a list.
fn push<R: Abort, T: Drop>(rt: &R, list: &mut Seq<T>, item: T) {
    list.push(item).expect(rt, "memory");
}

fn function_of(word: &str) -> Option<Function> {
    match word.strip_suffix("2") {
        Some("TOBAG") => Some(Function::ToBag { width: Some(2) }),
        _ => Function::named(word),
    }
}

fn hex(digit: u8) -> u8 {
    match digit {
        b'0'..=b'9' => digit - b'0',
        b'a'..=b'f' => digit - b'a' + 10,
        _ => 0,
    }
}

fn bytes_of<R: Abort>(rt: &R, alloc: Global, digits: &[u8]) -> Value {
    let mut bytes = Vec::new(alloc);
    for pair in digits.chunks_exact(2) {
        if let [high, low] = pair {
            let byte = (hex(*high) << 4) | hex(*low);
            bytes.push(byte).expect(rt, "memory");
        }
    }
    Value::Bytes(Blob::from_vec(bytes))
}

fn int_of(word: &str) -> Value {
    match word.parse::<i32>().ok() {
        Some(n) => Value::Int(n),
        None => Value::Null,
    }
}

fn whole_of(word: &str) -> Value {
    match word.strip_suffix("L") {
        Some(digits) => Value::Long(digits.parse::<i64>().unwrap_or(0)),
        None => int_of(word),
    }
}

fn chars<R: Abort>(rt: &R, alloc: Global, word: &str) -> Value {
    let text = word.replace(alloc, "_", " ").expect(rt, "memory");
    Value::Chars(Text::from_string(text))
}

fn leaf(word: &str) -> Value {
    match word {
        "null" => Value::Null,
        "true" => Value::Bool(true),
        "false" => Value::Bool(false),
        _ => whole_of(word),
    }
}

// The last so many values, in order.
fn last<R: Abort>(rt: &R, alloc: Global, values: &mut Vec<Value>, count: &str) -> Tuple {
    let mut taken = Vec::new(alloc);
    for _i in 0..count_of(count) {
        let value = values.pop().unwrap_or(Value::Null);
        taken.push(value).expect(rt, "memory");
    }
    taken.reverse();
    Seq::from_vec(taken)
}

// Adds a tuple to rows.
fn push_row<R: Abort>(rt: &R, rows: &mut Rows, value: Value) {
    if let Some(row) = value.into_tuple() {
        push(rt, rows, row);
    }
}

fn rows<R: Abort>(rt: &R, alloc: Global, values: Tuple) -> Rows {
    let mut rows = Seq::new(alloc);
    for value in values.into_vec() {
        push_row(rt, &mut rows, value);
    }
    rows
}

fn pair<R: Abort>(rt: &R, alloc: Global, key: char, value: &Value) -> Pair {
    let mut text = String::new(alloc);
    text.push(key).expect(rt, "memory");
    let key = Text::from_string(text);
    let value = copy(alloc, value).expect(rt, "memory");
    Pair { key, value }
}

fn pairs<R: Abort>(rt: &R, alloc: Global, values: &Tuple) -> Pairs {
    let mut pairs = Seq::new(alloc);
    let mut keys = "abcdefgh".chars();
    for value in values.as_slice() {
        let key = keys.next().unwrap_or('z');
        push(rt, &mut pairs, pair(rt, alloc, key, value));
    }
    pairs
}

fn count_of(word: &str) -> usize {
    word.parse::<usize>().unwrap_or(0)
}

// A tuple, a bag, a listed bag or a map of the last so many values.
fn joined<R: Abort>(
    rt: &R,
    alloc: Global,
    form: u8,
    count: &str,
    values: &mut Vec<Value>,
) -> Value {
    let fields = last(rt, alloc, values, count);
    match form {
        b'(' => Value::Tuple(fields),
        b'{' => Value::Bag(bag(rows(rt, alloc, fields))),
        b'<' => Value::Listed(rows(rt, alloc, fields)),
        _ => Value::Map(pairs(rt, alloc, &fields)),
    }
}

fn made<R: Abort>(rt: &R, alloc: Global, word: &str, values: &mut Vec<Value>) -> Value {
    if let Some(text) = word.strip_prefix("'") {
        return chars(rt, alloc, text);
    }
    if let Some(digits) = word.strip_prefix("#") {
        return bytes_of(rt, alloc, digits.as_bytes());
    }
    if let Some(count) = word.strip_prefix("(") {
        return joined(rt, alloc, b'(', count, values);
    }
    if let Some(count) = word.strip_prefix("{") {
        return joined(rt, alloc, b'{', count, values);
    }
    if let Some(count) = word.strip_prefix("<") {
        return joined(rt, alloc, b'<', count, values);
    }
    if let Some(count) = word.strip_prefix("[") {
        return joined(rt, alloc, b'[', count, values);
    }
    leaf(word)
}

// The values that the words write.
fn written<R: Abort>(rt: &R, alloc: Global, words: &str) -> Tuple {
    let mut values = Vec::new(alloc);
    for word in words.split_ascii_whitespace() {
        let value = made(rt, alloc, word, &mut values);
        values.push(value).expect(rt, "memory");
    }
    Seq::from_vec(values)
}

// Whether a value stands alone there.
fn is_alone(wanted: &[Value], value: &Value) -> bool {
    match wanted {
        [wanted] => same(value, wanted),
        _ => false,
    }
}

// Whether a value is what the words write alone.
fn is_written<R: Abort>(rt: &R, alloc: Global, value: Value, words: &str) -> bool {
    let wanted = written(rt, alloc, words);
    let is = is_alone(wanted.as_slice(), &value);
    drop(value);
    is
}

// What a function gives of arguments.
fn applied<R: Abort>(rt: &R, alloc: Global, function: Function, args: &str) -> Value {
    let args = written(rt, alloc, args);
    apply(alloc, function, &args).expect(rt, "memory")
}

// Whether the call of a line gives what the line says.
fn holds<R: Abort>(rt: &R, alloc: Global, line: &str) -> bool {
    let (call, value) = line.split_once(" = ").unwrap_or((line, ""));
    let (name, args) = call.split_once(" ").unwrap_or((call, ""));
    let Some(function) = function_of(name) else {
        return false;
    };
    let given = applied(rt, alloc, function, args);
    is_written(rt, alloc, given, value)
}

#[test]
fn functions_give_what_is_written(rt: HostRuntime) {
    for line in TABLE.lines() {
        assert!(rt; holds(&rt, rt.alloc(), line), "{line}");
    }
}

// What the fold of a function gives of a column, value by value.
fn folded<R: Abort>(rt: &R, alloc: Global, start: Fold, rows: &Rows, position: usize) -> Value {
    let mut fold = start;
    for row in rows.as_slice() {
        fold = fold.add(row.get(position));
    }
    fold.end(alloc).expect(rt, "memory")
}

// Whether the function gives this of the column, whole and value by value.
fn column_gives<R: Abort>(
    rt: &R,
    alloc: Global,
    function: Function,
    position: u32,
    value: &str,
) -> bool {
    let Some(start) = Fold::start(function) else {
        return false;
    };
    let fields = written(rt, alloc, "'k 5 (2 'k null (2 'l -7 (2 'l (1");
    let rows = rows(rt, alloc, fields);
    let whole = apply_column(alloc, function, rows.as_slice(), position).expect(rt, "memory");
    let at_once = is_written(rt, alloc, whole, value);
    let folded = folded(rt, alloc, start, &rows, position as usize);
    let one_by_one = is_written(rt, alloc, folded, value);
    at_once && one_by_one
}

#[test]
fn columns_are_folded(rt: HostRuntime) {
    let alloc = rt.alloc();
    assert!(rt; column_gives(&rt, alloc, Function::Count, 1, "2L"));
    assert!(rt; column_gives(&rt, alloc, Function::CountStar, 1, "4L"));
    assert!(rt; column_gives(&rt, alloc, Function::Sum, 1, "-2L"));
    assert!(rt; column_gives(&rt, alloc, Function::Min, 1, "-7"));
    assert!(rt; column_gives(&rt, alloc, Function::Max, 1, "5"));
    assert!(rt; column_gives(&rt, alloc, Function::Max, 0, "'l"));
    assert!(rt; column_gives(&rt, alloc, Function::Min, 2, "null"));
    assert!(rt; Fold::start(Function::Size).is_none());
}
