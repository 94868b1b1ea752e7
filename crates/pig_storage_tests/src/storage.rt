//! Lines and rows by hand: where the lines of an input stand, and what is stored for it. Where memory is wanting the
//! process ends: that drops nothing, so its proof is short.
use pig_storage::{Span, line_row, line_row_over, next_line, write_row};
use pig_value::{Boxed, Column, Columns, Delim, Kind, Kinds, Seq};
use std::alloc::{AllocError, Global};
use std::process::Abort;

// A kind by a letter: a capital is a plain kind, `t` a tuple of two ints, `u` one of a chararray and a bag,
// `b` a bag of one int and `m` a map of ints.
fn kind<R: Abort>(rt: &R, alloc: Global, letter: u8) -> Kind {
    match letter {
        b'B' => Kind::Boolean,
        b'I' => Kind::Int,
        b'L' => Kind::Long,
        b'Y' => Kind::Bytearray,
        b't' => Kind::Tuple(two_kinds(rt, alloc, Kind::Int, Kind::Int)),
        b'u' => {
            let bag = Kind::Bag(one_kind(rt, alloc, Kind::Int));
            Kind::Tuple(two_kinds(rt, alloc, Kind::Chararray, bag))
        }
        b'b' => Kind::Bag(one_kind(rt, alloc, Kind::Int)),
        b'm' => Kind::Map(Boxed::new(alloc, Kind::Int).expect(rt, "memory")),
        _ => Kind::Chararray,
    }
}

// Adds to a list.
fn push<R: Abort, T: Drop>(rt: &R, list: &mut Seq<T>, item: T) {
    list.push(item).expect(rt, "memory");
}

fn one_kind<R: Abort>(rt: &R, alloc: Global, first: Kind) -> Kinds {
    let mut kinds = Seq::new(alloc);
    push(rt, &mut kinds, first);
    kinds
}

fn two_kinds<R: Abort>(rt: &R, alloc: Global, first: Kind, second: Kind) -> Kinds {
    let mut kinds = one_kind(rt, alloc, first);
    push(rt, &mut kinds, second);
    kinds
}

fn column<R: Abort>(rt: &R, alloc: Global, letter: u8, position: u32) -> Column {
    let kind = kind(rt, alloc, letter);
    Column { position, kind }
}

// The columns of a text: the letter of a kind, and the position behind it.
fn columns<R: Abort>(rt: &R, alloc: Global, wanted: &str) -> Columns {
    let mut columns = Seq::new(alloc);
    for word in wanted.split(' ') {
        let (letter, position) = word.split_once(':').unwrap_or((word, ""));
        let position: u32 = position.parse().unwrap_or(0);
        for letter in letter.as_bytes() {
            push(rt, &mut columns, column(rt, alloc, *letter, position));
        }
    }
    columns
}

// The rows of an input at these columns, as they are stored.
fn stored(
    alloc: Global,
    input: &[u8],
    delim: Delim,
    columns: &Columns,
) -> Result<Vec<u8>, AllocError> {
    let mut out = Vec::new(alloc);
    let mut from = 0;
    while let Some(span) = next_line(input, from) {
        let row = line_row(alloc, &input[from..span.to], delim, columns)?;
        write_row(&row, delim, &mut out)?;
        from = span.next;
    }
    Ok(out)
}

// The rows of an input at these columns, as they are stored, each read over the one before it.
fn stored_over(
    alloc: Global,
    input: &[u8],
    delim: Delim,
    columns: &Columns,
) -> Result<Vec<u8>, AllocError> {
    let mut out = Vec::new(alloc);
    let mut row = Seq::new(alloc);
    let mut from = 0;
    while let Some(span) = next_line(input, from) {
        line_row_over(alloc, &input[from..span.to], delim, columns, &mut row)?;
        write_row(&row, delim, &mut out)?;
        from = span.next;
    }
    Ok(out)
}

// Whether a line has its first byte, the one behind its last, and the one behind its LF at these places.
fn is_line(input: &[u8], from: usize, to: usize, next: usize) -> bool {
    from <= input.len() && next_line(input, from) == Some(Span { from, to, next })
}

// Whether the input ends there, and no line is behind it.
fn is_end(input: &[u8], at: usize) -> bool {
    input.len() == at && next_line(input, at) == None
}

#[test]
fn finds_each_line(rt: HostRuntime) {
    assert!(rt; is_end(b"", 0));
    let input = b"a\n\r\n";
    assert!(rt; is_line(input, 0, 1, 2) && is_line(input, 2, 2, 4) && is_end(input, 4));
    let input = b"a\r\n\nb\r";
    assert!(rt; is_line(input, 0, 1, 3) && is_line(input, 3, 3, 4) && is_line(input, 4, 5, 6));
    assert!(rt; is_end(input, 6));
    let input = b"\n\n";
    assert!(rt; is_line(input, 0, 0, 1) && is_line(input, 1, 1, 2) && is_end(input, 2));
    let input = b"\r\r\n\r";
    assert!(rt; is_line(input, 0, 1, 3) && is_line(input, 3, 3, 4) && is_end(input, 4));
    assert!(rt; is_line(b"abc", 0, 3, 3) && is_end(b"abc", 3));
}

fn delimiter<R: Abort>(rt: &R, text: &str) -> Delim {
    Delim::new(text).ok().expect(rt, "a delimiter")
}

// Whether these lines are stored for an input at these columns.
fn stores<R: Abort>(
    rt: &R,
    alloc: Global,
    input: &[u8],
    delim: &str,
    wanted: &str,
    expected: &[u8],
) -> bool {
    let columns = columns(rt, alloc, wanted);
    let delim = delimiter(rt, delim);
    let out = stored(alloc, input, delim, &columns).expect(rt, "memory");
    let over = stored_over(alloc, input, delim, &columns).expect(rt, "memory");
    out.as_slice() == expected && over.as_slice() == expected
}

#[test]
fn stores_what_it_reads(rt: HostRuntime) {
    let alloc = rt.alloc();
    let missing = b"1\t2\r\n\n3\t4";
    assert!(rt; stores(&rt, alloc, missing, "\t", "I:0 I:1", b"1\t2\n\t\n3\t4\n"));
    assert!(rt; stores(&rt, alloc, b"", "\t", "I:0 I:1", b""));
    assert!(rt; stores(&rt, alloc, b"\n", "\t", "C:0", b"\n"));
    let ints = b"+5\n-\n2147483648\n-2147483648\n 5\n--5\n007\n";
    let read = b"5\n\n\n-2147483648\n\n\n7\n";
    assert!(rt; stores(&rt, alloc, ints, "\t", "I:0", read));
    assert!(rt; stores(&rt, alloc, b"a\r\r\nb\r", "\t", "C:0", b"a\r\nb\n"));
    let commas = b"1,2,3\n4\n,5\n";
    assert!(rt; stores(&rt, alloc, commas, ",", "I:0 I:1", b"1,2\n4,\n,5\n"));
    assert!(rt;
        stores(
            &rt,
            alloc,
            b"a,b,c",
            ",",
            "C:2 C:0 C:0 C:7 C:1",
            b"c,a,a,,b\n"
        )
    );
    let marks = b"\xef\xbf\xbd\xef\xbf\xbdx\n";
    assert!(rt; stores(&rt, alloc, b"\xff\xe2\x82x", "\t", "C:0", marks));
    assert!(rt; stores(&rt, alloc, b"(1,2),5\n", ",", "C:0", b"(1\n"));
}

#[test]
fn stores_nested_text(rt: HostRuntime) {
    let alloc = rt.alloc();
    let three = b"{(1),(2}\t[k#1,k#2]\t(1,2)\n";
    assert!(rt; stores(&rt, alloc, three, "\t", "b:0 m:1 t:2", b"\t[k#2]\t(1,2)\n"));
    assert!(rt; stores(&rt, alloc, b"(1,2),5\n", ",", "t:0 I:1", b",\n"));
    let tuples = b"(\n(1,2,3)\n(1)\n()\n(a,2)\n(1,(2,3))\n(1,2]\n(1,2)x\n(1)(2)\n";
    let read = b"\n(1,2)\n(1,)\n(,)\n(,2)\n(1,)\n\n\n\n";
    assert!(rt; stores(&rt, alloc, tuples, "\t", "t:0", read));
    let bags = b"{}\n{(2),(1),(2)}\n{(1),}\n{(1)}x\n{1}\n{(1),(2}\n{(x)}\n";
    let read = b"{}\n{(1),(2),(2)}\n\n\n\n\n{()}\n";
    assert!(rt; stores(&rt, alloc, bags, "\t", "b:0", read));
    let maps = b"[k]\n[#1]\n[]\n[b#1,a#2,b#3]\n[k#x#1]\n[a#1,b]\n[a#1,]\n";
    let read = b"\n[#1]\n[]\n[a#2,b#3]\n[k#]\n\n\n";
    assert!(rt; stores(&rt, alloc, maps, "\t", "m:0", read));
    let items = b"(a{[,]},{(2),(1)})\n(\xc3{},{})\n";
    let read = b"(a{[,]},{(1),(2)})\n(\xef\xbf\xbd{},{})\n";
    assert!(rt; stores(&rt, alloc, items, "\t", "u:0", read));
}

#[test]
fn stores_plain_text(rt: HostRuntime) {
    let alloc = rt.alloc();
    assert!(rt;
        stores(
            &rt,
            alloc,
            b"TRUE\nfAlse\nt\n",
            "\t",
            "B:0",
            b"true\nfalse\n\n"
        )
    );
    let longs = b"9223372036854775807\n9223372036854775808\n-9223372036854775808\n";
    let read = b"9223372036854775807\n\n-9223372036854775808\n";
    assert!(rt; stores(&rt, alloc, longs, "\t", "L:0", read));
    assert!(rt; stores(&rt, alloc, b"\xff\xfe\n", "\t", "Y:0", b"\xff\xfe\n"));
}

// Whether two columns of text are cut so at a delimiter.
fn cuts<R: Abort>(rt: &R, alloc: Global, delim: &str, input: &[u8], expected: &[u8]) -> bool {
    stores(rt, alloc, input, delim, "C:0 C:1", expected)
}

// Two columns of text at each kind of delimiter; a further field is dropped, a missing one is null.
#[test]
fn cuts_at_each_delimiter(rt: HostRuntime) {
    let alloc = rt.alloc();
    assert!(rt; cuts(&rt, alloc, "\t", b"a,b\tc\td\ne\n", b"a,b\tc\ne\t\n"));
    assert!(rt; cuts(&rt, alloc, "\\t", b"\ta\n", b"\ta\n"));
    assert!(rt; cuts(&rt, alloc, ",", b"a\tb,c,d\n", b"a\tb,c\n"));
    assert!(rt; cuts(&rt, alloc, "\0", b"a\0\0c\n", b"a\0\n"));
    assert!(rt;
        cuts(
            &rt,
            alloc,
            "\u{7f}",
            b"a\x7fb\xc3\xa9\n",
            b"a\x7fb\xc3\xa9\n"
        )
    );
    assert!(rt; cuts(&rt, alloc, "x", b"oxenx\n", b"oxen\n"));
    assert!(rt; cuts(&rt, alloc, "(", b"(a(b)\n", b"(a\n"));
    assert!(rt; cuts(&rt, alloc, "\\", b"a\\tb\n", b"a\\tb\n"));
}

// A million fields: the last is `end`, and the others are empty.
fn long_line<R: Abort>(rt: &R, alloc: Global) -> Vec<u8> {
    let mut line = Vec::with_capacity(alloc, 1_000_002).expect(rt, "memory");
    for _ in 0..999_999 {
        line.push(b',').expect(rt, "memory");
    }
    line.extend_from_slice(b"end").expect(rt, "memory");
    line
}

// What is stored of a line at these columns.
fn line_stored<R: Abort>(rt: &R, alloc: Global, line: &[u8], wanted: &str) -> Vec<u8> {
    let columns = columns(rt, alloc, wanted);
    let comma = delimiter(rt, ",");
    let row = line_row(alloc, line, comma, &columns).expect(rt, "memory");
    let mut out = Vec::new(alloc);
    write_row(&row, Delim::tab(), &mut out).expect(rt, "memory");
    out
}

#[test]
fn reads_a_line_of_a_million_fields(rt: HostRuntime) {
    let line = long_line(&rt, rt.alloc());
    let wanted = "C:1000000 C:999999 C:0 C:999999";
    let out = line_stored(&rt, rt.alloc(), line.as_slice(), wanted);
    assert!(rt; out.as_slice() == b"\tend\t\tend\n".as_slice());
}

// A text is read over a longer one, a shorter one and a null; bytes are over bytes; a number is over a number.
#[test]
fn reads_rows_over_others(rt: HostRuntime) {
    let alloc = rt.alloc();
    let lines = b"abc\t\xff\xfe\t7\nx\t\t\n\tz\t8\nlonger than all\tmore bytes\t9\n";
    let read = b"abc\t\xff\xfe\t7\nx\t\t\n\tz\t8\nlonger than all\tmore bytes\t9\n";
    assert!(rt; stores(&rt, alloc, lines, "\t", "C:0 Y:1 I:2", read));
    let short = b"a\tb\n\nc\n\xff\td\n";
    assert!(rt;
        stores(
            &rt,
            alloc,
            short,
            "\t",
            "C:1 C:0",
            b"b\ta\n\t\n\tc\nd\t\xef\xbf\xbd\n"
        )
    );
}
