//! Numbers, fields and casts by hand.
//!
//! A case is a line of a text, with `|` between its parts, and `x` is a null. A call that has to succeed ends the process
//! where it doesn't: that drops nothing, so its proof is short.
// Trees end by `drop`: one call is cheap to prove, and a tree that dies by name is taken apart variant by variant.
use pig_cast::{cast, number, read_field};
use pig_value::{Blob, Boxed, Kind, Kinds, Pair, Pairs, Rows, Seq, Text, Tuple, Value, same};
use std::alloc::Global;
use std::process::Abort;

// The parts of a case.
fn two_parts(line: &str) -> (&str, &str) {
    line.split_once('|').unwrap_or((line, ""))
}

const NUMBERS: &str = "|x
-|x
+|x
+5|5
-007|-7
--5|x
 5|x
2147483648|2147483648
9223372036854775807|9223372036854775807
9223372036854775808|x
-9223372036854775808|-9223372036854775808
";

#[test]
fn reads_numbers(rt: HostRuntime) {
    for line in NUMBERS.lines() {
        let (text, expected) = two_parts(line);
        assert!(rt; number(text.as_bytes()) == long_of(expected));
    }
    assert!(rt; number(b"\xff") == None);
}

fn int_of(text: &str) -> Option<i32> {
    text.parse().ok()
}

fn long_of(text: &str) -> Option<i64> {
    text.parse().ok()
}

fn int(text: &str) -> Value {
    match int_of(text) {
        Some(n) => Value::Int(n),
        None => Value::Null,
    }
}

fn long(text: &str) -> Value {
    match long_of(text) {
        Some(n) => Value::Long(n),
        None => Value::Null,
    }
}

fn boolean(text: &str) -> Value {
    match text {
        "yes" => Value::Bool(true),
        "no" => Value::Bool(false),
        _ => Value::Null,
    }
}

fn text<R: Abort>(rt: &R, alloc: Global, text: &str) -> Value {
    Value::Chars(Text::from_str(alloc, text).expect(rt, "memory"))
}

fn bytes<R: Abort>(rt: &R, alloc: Global, bytes: &[u8]) -> Value {
    Value::Bytes(Blob::from_slice(alloc, bytes).expect(rt, "memory"))
}

// An int of one digit.
fn digit(digit: u8) -> Value {
    match digit {
        b'0'..=b'9' => Value::Int(i32::from(digit - b'0')),
        _ => Value::Null,
    }
}

// A tuple of ints of one digit.
fn ints<R: Abort>(rt: &R, alloc: Global, digits: &[u8]) -> Tuple {
    let mut fields = Seq::new(alloc);
    for n in digits {
        fields.push(digit(*n)).expect(rt, "memory");
    }
    fields
}

// Tuples of one int each.
fn rows<R: Abort>(rt: &R, alloc: Global, digits: &[u8]) -> Rows {
    let mut rows = Seq::new(alloc);
    for n in digits {
        rows.push(ints(rt, alloc, &[*n])).expect(rt, "memory");
    }
    rows
}

// A key, and an int under it.
fn pair<R: Abort>(rt: &R, alloc: Global, key: &str, n: &str) -> Pair {
    let key = Text::from_str(alloc, key).expect(rt, "memory");
    Pair { key, value: int(n) }
}

// The entries that a text has, as `a=1;b=x`.
fn pairs<R: Abort>(rt: &R, alloc: Global, entries: &str) -> Pairs {
    let mut pairs = Seq::new(alloc);
    for entry in entries.split(';') {
        if let Some((key, n)) = entry.split_once('=') {
            pairs.push(pair(rt, alloc, key, n)).expect(rt, "memory");
        }
    }
    pairs
}

fn kinds_of_ints<R: Abort>(rt: &R, alloc: Global, count: u32) -> Kinds {
    let mut kinds = Seq::new(alloc);
    for _ in 0..count {
        kinds.push(Kind::Int).expect(rt, "memory");
    }
    kinds
}

// Whether the text reads as this value.
fn reads<R: Abort>(rt: &R, alloc: Global, text: &[u8], kind: Kind, expected: Value) -> bool {
    let read = read_field(alloc, text, &kind).expect(rt, "memory");
    let is = same(&read, &expected);
    drop(read);
    drop(kind);
    drop(expected);
    is
}

const INTS_AND_LONGS: &str = "|x|x
2)|x|x
+5|5|5
-|x|x
--5|x|x
 5|x|x
2147483647|2147483647|2147483647
2147483648|x|2147483648
-2147483648|-2147483648|-2147483648
-2147483649|x|-2147483649
-9223372036854775809|x|x
";

#[test]
fn reads_ints_and_longs(rt: HostRuntime) {
    let alloc = rt.alloc();
    for line in INTS_AND_LONGS.lines() {
        let (text, expected) = two_parts(line);
        let (short, whole) = two_parts(expected);
        assert!(rt; reads(&rt, alloc, text.as_bytes(), Kind::Int, int(short)));
        assert!(rt; reads(&rt, alloc, text.as_bytes(), Kind::Long, long(whole)));
    }
}

const BOOLEANS: &str = "true|yes
TRUE|yes
fAlse|no
t|x
true |x
|x
";

#[test]
fn reads_booleans(rt: HostRuntime) {
    for line in BOOLEANS.lines() {
        let (text, expected) = two_parts(line);
        assert!(rt;
            reads(
                &rt,
                rt.alloc(),
                text.as_bytes(),
                Kind::Boolean,
                boolean(expected)
            )
        );
    }
}

// Whether the bytes read as this text.
fn reads_text<R: Abort>(rt: &R, alloc: Global, bytes: &[u8], expected: &str) -> bool {
    let expected = text(rt, alloc, expected);
    reads(rt, alloc, bytes, Kind::Chararray, expected)
}

// A maximal invalid part is a start of a character that another byte or the end cuts off, or else one byte.
#[test]
fn reads_bytes_as_text(rt: HostRuntime) {
    let cases: [(&[u8], &str); 12] = [
        (b"h\xc3\xa9llo", "h\u{e9}llo"),
        (b"\x80", "\u{fffd}"),
        (b"\xc0\xaf", "\u{fffd}\u{fffd}"),
        (b"\xc3", "\u{fffd}"),
        (b"\xc3x", "\u{fffd}x"),
        (b"\xe2\x82", "\u{fffd}"),
        (b"\xe2\x82\xe2\x82\xac", "\u{fffd}\u{20ac}"),
        (b"\xed\xa0\x80", "\u{fffd}\u{fffd}\u{fffd}"),
        (b"\xf0\x9f\x98x", "\u{fffd}x"),
        (b"\xf0\x8f\xbf", "\u{fffd}\u{fffd}\u{fffd}"),
        (b"\xf4\x90", "\u{fffd}\u{fffd}"),
        (b"a\xff,b", "a\u{fffd},b"),
    ];
    for (bytes, expected) in cases {
        assert!(rt; reads_text(&rt, rt.alloc(), bytes, expected));
    }
}

#[test]
fn reads_bytes(rt: HostRuntime) {
    let alloc = rt.alloc();
    let expected = bytes(&rt, alloc, b"\xff\x00");
    assert!(rt; reads(&rt, alloc, b"\xff\x00", Kind::Bytearray, expected));
    assert!(rt; reads(&rt, alloc, b"", Kind::Bytearray, Value::Null));
    assert!(rt; reads(&rt, alloc, b"", Kind::Chararray, Value::Null));
}

// The text, the count of fields, and the ints that are read.
const TUPLES: &str = "|2|none
(|2|none
(1|2|none
)|2|none
()|1|x
()|0|
()|2|xx
(1,2)|2|12
(1,2,3)|2|12
(1)|2|1x
(,2)|2|x2
(a,2)|2|x2
((1,9),2)|2|x2
(1,2]|2|none
(]|1|none
([(1])),2)|2|none
(1)(2)|2|none
";

// A tuple of these ints, or a null.
fn tuple<R: Abort>(rt: &R, alloc: Global, digits: &str) -> Value {
    match digits {
        "none" => Value::Null,
        _ => Value::Tuple(ints(rt, alloc, digits.as_bytes())),
    }
}

// Whether a text reads as a tuple of these ints.
fn reads_tuple<R: Abort>(rt: &R, alloc: Global, text: &str, count: &str, digits: &str) -> bool {
    let count: u32 = count.parse().unwrap_or(0);
    let kind = Kind::Tuple(kinds_of_ints(rt, alloc, count));
    let expected = tuple(rt, alloc, digits);
    reads(rt, alloc, text.as_bytes(), kind, expected)
}

#[test]
fn reads_tuples(rt: HostRuntime) {
    for line in TUPLES.lines() {
        let (text, expected) = two_parts(line);
        let (count, digits) = two_parts(expected);
        assert!(rt; reads_tuple(&rt, rt.alloc(), text, count, digits));
    }
}

const BAGS: &str = "{}|
{()}|x
{(2),(1),(2)}|122
{(x),(3,4)}|x3
{(1),}|none
{,}|none
{(1)}x|none
{1}|none
{(1),(2}|none
{(1) }|none
(1)|none
";

// A bag of tuples of one of these ints each, or a null.
fn bag<R: Abort>(rt: &R, alloc: Global, digits: &str) -> Value {
    match digits {
        "none" => Value::Null,
        _ => Value::Bag(rows(rt, alloc, digits.as_bytes())),
    }
}

// Whether a text reads as a bag of tuples of one of these ints each.
fn reads_bag<R: Abort>(rt: &R, alloc: Global, text: &str, digits: &str) -> bool {
    let kind = Kind::Bag(kinds_of_ints(rt, alloc, 1));
    let expected = bag(rt, alloc, digits);
    reads(rt, alloc, text.as_bytes(), kind, expected)
}

#[test]
fn reads_bags(rt: HostRuntime) {
    for line in BAGS.lines() {
        let (text, digits) = two_parts(line);
        assert!(rt; reads_bag(&rt, rt.alloc(), text, digits));
    }
}

const MAPS: &str = "[]|
[#1]|=1
[k#]|k=x
[k#1,k#2]|k=2
[b#1,a#2,b#x]|a=2;b=x
[k#1#2]|k=x
[(a,b)#1]|(a,b)=1
[k]|none
[a#1,]|none
[a#1,b#(2]|none
";

// A map of these entries, or a null.
fn map<R: Abort>(rt: &R, alloc: Global, entries: &str) -> Value {
    match entries {
        "none" => Value::Null,
        _ => Value::Map(pairs(rt, alloc, entries)),
    }
}

// Whether a text reads as a map of these entries.
fn reads_map<R: Abort>(rt: &R, alloc: Global, text: &[u8], entries: &str) -> bool {
    let kind = Kind::Map(Boxed::new(alloc, Kind::Int).expect(rt, "memory"));
    let expected = map(rt, alloc, entries);
    reads(rt, alloc, text, kind, expected)
}

#[test]
fn reads_maps(rt: HostRuntime) {
    for line in MAPS.lines() {
        let (text, entries) = two_parts(line);
        assert!(rt; reads_map(&rt, rt.alloc(), text.as_bytes(), entries));
    }
    // two keys of different bytes may read as one text
    assert!(rt; reads_map(&rt, rt.alloc(), b"[\xff#1,\xfe#2]", "\u{fffd}=2"));
}

// A tuple of a text, and of a map of bags of ints.
fn nested_kind<R: Abort>(rt: &R, alloc: Global) -> Kind {
    let bag = Kind::Bag(kinds_of_ints(rt, alloc, 1));
    let mut kinds = Seq::new(alloc);
    kinds.push(Kind::Chararray).expect(rt, "memory");
    let map = Kind::Map(Boxed::new(alloc, bag).expect(rt, "memory"));
    kinds.push(map).expect(rt, "memory");
    Kind::Tuple(kinds)
}

fn nested_value<R: Abort>(rt: &R, alloc: Global) -> Value {
    let key = Text::from_str(alloc, "k").expect(rt, "memory");
    let value = Value::Bag(rows(rt, alloc, b"12"));
    let mut entry = Seq::new(alloc);
    entry.push(Pair { key, value }).expect(rt, "memory");
    let mut fields = Seq::new(alloc);
    let before = text(rt, alloc, "\u{fffd}{,[(,)]}");
    fields.push(before).expect(rt, "memory");
    fields.push(Value::Map(entry)).expect(rt, "memory");
    Value::Tuple(fields)
}

// Commas and brackets inside items are part of them.
#[test]
fn reads_nested_items(rt: HostRuntime) {
    let kind = nested_kind(&rt, rt.alloc());
    let expected = nested_value(&rt, rt.alloc());
    let field = b"(\xe2\x82{,[(,)]},[k#{(2),(1)}],5)";
    assert!(rt; reads(&rt, rt.alloc(), field, kind, expected));
}

// Text that opens so many brackets of each kind in turn, and closes them; the innermost closing one is given.
fn nested<R: Abort>(rt: &R, alloc: Global, depth: usize, innermost: u8) -> Vec<u8> {
    let mut text = Vec::new(alloc);
    for i in 0..depth {
        text.push(b"([{"[i % 3]).expect(rt, "memory");
    }
    text.push(innermost).expect(rt, "memory");
    for i in 1..depth {
        text.push(b")]}"[(depth - 1 - i) % 3]).expect(rt, "memory");
    }
    text
}

// The text as the one field of a tuple.
fn in_brackets<R: Abort>(rt: &R, alloc: Global, inner: &[u8]) -> Vec<u8> {
    let mut field = Vec::from_slice(alloc, b"(").expect(rt, "memory");
    field.extend_from_slice(inner).expect(rt, "memory");
    field.push(b')').expect(rt, "memory");
    field
}

// A tuple of the text alone.
fn tuple_of_text<R: Abort>(rt: &R, alloc: Global, inner: &[u8]) -> Value {
    let written = String::from_utf8_lossy(alloc, inner).expect(rt, "memory");
    let mut row = Seq::new(alloc);
    let field = text(rt, alloc, written.as_str());
    row.push(field).expect(rt, "memory");
    Value::Tuple(row)
}

// A tuple of the text alone where it is balanced, or else a null.
fn bracketed<R: Abort>(rt: &R, alloc: Global, inner: &[u8], balanced: bool) -> Value {
    if balanced {
        return tuple_of_text(rt, alloc, inner);
    }
    Value::Null
}

// Whether brackets of this depth read as the text that they are, or as a null where they aren't balanced.
fn reads_brackets<R: Abort>(rt: &R, alloc: Global, depth: usize, last: u8, balanced: bool) -> bool {
    let mut kinds = Seq::new(alloc);
    kinds.push(Kind::Chararray).expect(rt, "memory");
    let inner = nested(rt, alloc, depth, last);
    let field = in_brackets(rt, alloc, &inner);
    let expected = bracketed(rt, alloc, &inner, balanced);
    reads(rt, alloc, &field, Kind::Tuple(kinds), expected)
}

// Brackets match however deep they stand.
#[test]
fn reads_deep_brackets(rt: HostRuntime) {
    // the last of so many brackets is of the kind that the remainder of the place by 3 names
    let cases: [(usize, u8, bool); 8] = [
        (30, b'}', true),
        (30, b')', false),
        (31, b')', true),
        (32, b']', true),
        (33, b'}', true),
        (33, b')', false),
        (99, b'}', true),
        (99, b']', false),
    ];
    for (depth, innermost, balanced) in cases {
        assert!(rt; reads_brackets(&rt, rt.alloc(), depth, innermost, balanced));
    }
}

// Whether the value casts to this one.
fn gives<R: Abort>(rt: &R, alloc: Global, from: Value, to: Kind, expected: Value) -> bool {
    let made = cast(alloc, &from, &to).expect(rt, "memory");
    let is = same(&made, &expected);
    drop(from);
    drop(to);
    drop(made);
    drop(expected);
    is
}

// Whether the value casts to itself.
fn stays<R: Abort>(rt: &R, alloc: Global, from: Value, to: Kind) -> bool {
    let made = cast(alloc, &from, &to).expect(rt, "memory");
    let is = same(&made, &from);
    drop(made);
    drop(to);
    drop(from);
    is
}

// The text, and the int, the long and the boolean that it casts to.
const TEXTS: &str = "|x|x|x
-12|-12|-12|x
2147483648|x|2147483648|x
fALSE|x|x|no
1 |x|x|x
";

// Whether the bytes cast to these.
fn bytes_give_each<R: Abort>(rt: &R, alloc: Global, from: &[u8], expected: &str) -> bool {
    let (short, expected) = two_parts(expected);
    let (whole, truth) = two_parts(expected);
    gives(rt, alloc, bytes(rt, alloc, from), Kind::Int, int(short))
        && gives(rt, alloc, bytes(rt, alloc, from), Kind::Long, long(whole))
        && gives(
            rt,
            alloc,
            bytes(rt, alloc, from),
            Kind::Boolean,
            boolean(truth),
        )
}

// Whether the text casts to these.
fn text_gives_each<R: Abort>(rt: &R, alloc: Global, from: &str, expected: &str) -> bool {
    let (short, expected) = two_parts(expected);
    let (whole, truth) = two_parts(expected);
    gives(rt, alloc, text(rt, alloc, from), Kind::Int, int(short))
        && gives(rt, alloc, text(rt, alloc, from), Kind::Long, long(whole))
        && gives(
            rt,
            alloc,
            text(rt, alloc, from),
            Kind::Boolean,
            boolean(truth),
        )
}

#[test]
fn casts_bytes(rt: HostRuntime) {
    for line in TEXTS.lines() {
        let (from, expected) = two_parts(line);
        assert!(rt; bytes_give_each(&rt, rt.alloc(), from.as_bytes(), expected));
        let raw = bytes(&rt, rt.alloc(), from.as_bytes());
        assert!(rt; stays(&rt, rt.alloc(), raw, Kind::Bytearray));
    }
}

#[test]
fn casts_texts(rt: HostRuntime) {
    for line in TEXTS.lines() {
        let (from, expected) = two_parts(line);
        assert!(rt; text_gives_each(&rt, rt.alloc(), from, expected));
        let chars = text(&rt, rt.alloc(), from);
        assert!(rt; stays(&rt, rt.alloc(), chars, Kind::Chararray));
    }
}

#[test]
fn casts_bytes_of_a_tuple(rt: HostRuntime) {
    let alloc = rt.alloc();
    let raw = bytes(&rt, alloc, b"(\xff,3)");
    let written = text(&rt, alloc, "(\u{fffd},3)");
    assert!(rt; gives(&rt, alloc, raw, Kind::Chararray, written));
    let raw = bytes(&rt, alloc, b"(\xff,3)");
    let kind = Kind::Tuple(kinds_of_ints(&rt, alloc, 2));
    let expected = Value::Tuple(ints(&rt, alloc, b"x3"));
    assert!(rt; gives(&rt, alloc, raw, kind, expected));
}

// Whether a long casts to this int and this text, and the int to a long.
fn casts_long<R: Abort>(rt: &R, alloc: Global, from: i64, low: i32, written: &str) -> bool {
    let wide = i64::from(low);
    gives(rt, alloc, Value::Long(from), Kind::Int, Value::Int(low))
        && gives(
            rt,
            alloc,
            Value::Long(from),
            Kind::Chararray,
            text(rt, alloc, written),
        )
        && gives(rt, alloc, Value::Int(low), Kind::Long, Value::Long(wide))
}

#[test]
fn casts_longs(rt: HostRuntime) {
    let cases: [(i64, i32, &str); 6] = [
        (0, 0, "0"),
        (-90, -90, "-90"),
        (2147483648, -2147483648, "2147483648"),
        (4294967295, -1, "4294967295"),
        (9223372036854775807, -1, "9223372036854775807"),
        (-9223372036854775808, 0, "-9223372036854775808"),
    ];
    for (from, low, written) in cases {
        assert!(rt; casts_long(&rt, rt.alloc(), from, low, written));
    }
}

#[test]
fn casts_other_values(rt: HostRuntime) {
    let alloc = rt.alloc();
    let expected = text(&rt, alloc, "-2147483648");
    let least = Value::Int(-2147483648);
    assert!(rt; gives(&rt, alloc, least, Kind::Chararray, expected));
    let expected = text(&rt, alloc, "true");
    assert!(rt; gives(&rt, alloc, Value::Bool(true), Kind::Chararray, expected));
    assert!(rt; gives(&rt, alloc, Value::Null, Kind::Chararray, Value::Null));
    let listed = Value::Listed(Seq::new(alloc));
    assert!(rt; stays(&rt, alloc, listed, Kind::Bag(Seq::new(alloc))));
}
