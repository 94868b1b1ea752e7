// Worked rows of the whole: their words, scripts and inputs, and by hand what each STORE is due.

/// A STORE: its statement, its directory, and the lines that each of its parts holds.
#[derive(Clone, Copy, Drop)]
pub struct Store {
    pub statement: u32,
    pub dir: &'static str,
    /// Whether the lines of a part are due in their order.
    pub list: bool,
    /// Each line ends in an LF. Those of no list stand ascending within their part.
    pub parts: &'static [&'static str],
}

/// A run.
#[derive(Clone, Copy, Drop)]
pub struct Row {
    pub line: &'static str,
    pub script: &'static str,
    pub a: &'static str,
    pub b: &'static str,
    /// How many input paths the STOREs reach, each taken once.
    pub paths: u64,
    /// How many bare LIMITs the STOREs reach.
    pub kept: u64,
    /// The lines that tasks read.
    pub read: u64,
    /// The entries that map tasks hand on.
    pub shuffled: u64,
    pub stores: &'static [Store],
}

/// A row over one input, to be filled in.
const ONE_INPUT: Row = Row {
    line: "run s --workers 2 --reducers 1",
    script: "",
    a: "",
    b: "",
    paths: 1,
    kept: 0,
    read: 0,
    shuffled: 0,
    stores: &[],
};

/// Four words are handed on to be counted, and four counts to be ordered, of which the third one begins the second part.
const WORD_COUNT: Row = Row {
    line: "run s --workers 2 --reducers 2",
    script: "a = LOAD 'a' AS (line:chararray);
w = FOREACH a GENERATE FLATTEN(TOKENIZE(line)) AS word;
g = GROUP w BY word PARALLEL 2;
c = FOREACH g GENERATE group AS word, COUNT(w) AS n;
o = ORDER c BY n DESC, word;
STORE o INTO 'p';",
    a: "the cat\nthe dog, the end\ncat\n",
    read: 3,
    shuffled: 8,
    stores: &[Store {
        statement: 6,
        dir: "p",
        list: true,
        parts: &["the\t3\ncat\t2\n", "dog\t1\nend\t1\n"],
    }],
    ..ONE_INPUT
};

/// An empty piece has one split, and no line: the parts stand, and are empty.
const EMPTY_PIECE: Row = Row {
    line: "run s --workers 2 --reducers 2",
    script: "a = LOAD 'a' AS (line:chararray);
w = FOREACH a GENERATE FLATTEN(TOKENIZE(line)) AS word;
g = GROUP w BY word;
c = FOREACH g GENERATE group AS word, COUNT(w) AS n;
o = ORDER c BY n DESC, word;
STORE o INTO 'p';
z = GROUP a ALL;
STORE z INTO 'q';",
    stores: &[
        Store {
            statement: 6,
            dir: "p",
            list: true,
            parts: &["", ""],
        },
        Store {
            statement: 8,
            dir: "q",
            list: false,
            parts: &["", ""],
        },
    ],
    ..ONE_INPUT
};

/// The GROUP has a second use, the FILTER, so its three rows are handed on as they are.
const GOOD_URLS: Row = Row {
    script: "urls = LOAD 'a' USING PigStorage(',') AS (url, category:chararray, rank_of:int);
good = FILTER urls BY rank_of > 2;
groups = GROUP good BY category;
big = FILTER groups BY COUNT(good) > 1;
o = FOREACH big GENERATE group, SUM(good.rank_of);
STORE o INTO 'p';",
    a: "a,news,5\nb,news,3\nc,shop,9\nd,news,1\n",
    read: 4,
    shuffled: 3,
    stores: &[Store {
        statement: 6,
        dir: "p",
        list: false,
        parts: &["news\t8\n"],
    }],
    ..ONE_INPUT
};

/// Nine bytes are five splits, each of which is a part; in two of them no line begins.
const LINE_ENDS: Row = Row {
    line: "run s --workers 2 --split 2",
    script: "a = LOAD 'a' AS (x:int, y:int);
STORE a INTO 'p';",
    a: "1\t2\r\n\n3\t4",
    read: 3,
    stores: &[Store {
        statement: 2,
        dir: "p",
        list: true,
        parts: &["1\t2\n", "", "\t\n", "3\t4\n", ""],
    }],
    ..ONE_INPUT
};

/// Bags are stored, so each row is handed on. The part of a key goes by its text: that of null is empty, and 1 is 49 as a byte.
const NULL_GROUPS: Row = Row {
    line: "run s --workers 2 --reducers 2",
    script: "a = LOAD 'a' AS (k:int, v:chararray);
g = GROUP a BY k;
STORE g INTO 'p';",
    a: "1\tx\n\ty\n\tz\n",
    read: 3,
    shuffled: 3,
    stores: &[Store {
        statement: 3,
        dir: "p",
        list: false,
        parts: &["\t{(,y),(,z)}\n", "1\t{(1,x)}\n"],
    }],
    ..ONE_INPUT
};

/// Both take all five rows, and read them each for itself.
const NULL_JOIN: Row = Row {
    line: "run s --workers 2 --reducers 2",
    script: "a = LOAD 'a' AS (k:int, v:chararray);
b = LOAD 'b' AS (k:int, v:chararray);
g = COGROUP a BY k, b BY k;
j = JOIN a BY k FULL, b BY k;
STORE g INTO 'p';
STORE j INTO 'q';",
    a: "1\tx\n\ty\n\tz\n",
    b: "1\tp\n\tq\n",
    paths: 2,
    read: 10,
    shuffled: 10,
    stores: &[
        Store {
            statement: 5,
            dir: "p",
            list: false,
            parts: &["\t{(,y),(,z)}\t{}\n\t{}\t{(,q)}\n", "1\t{(1,x)}\t{(1,p)}\n"],
        },
        Store {
            statement: 6,
            dir: "q",
            list: false,
            parts: &["\t\t\tq\n\ty\t\t\n\tz\t\t\n", "1\tx\t1\tp\n"],
        },
    ],
    ..ONE_INPUT
};

/// The one key is handed on once.
const NULL_SUMS: Row = Row {
    script: "a = LOAD 'a' AS (k:chararray, x:int);
g = GROUP a BY k;
o = FOREACH g GENERATE group, COUNT(a.x), COUNT_STAR(a.x), SUM(a.x), MIN(a.x);
STORE o INTO 'p';",
    a: "g\t\ng\t\n",
    read: 2,
    shuffled: 1,
    stores: &[Store {
        statement: 4,
        dir: "p",
        list: false,
        parts: &["g\t0\t2\t\t\n"],
    }],
    ..ONE_INPUT
};

/// Of eight map tasks three have a line, which begin at 0, 20 and 22; each of them hands on the one
/// key.
const WRAPPING_SUM: Row = Row {
    line: "run s --workers 2 --reducers 1 --split 3",
    script: "a = LOAD 'a' AS (x:long);
g = GROUP a ALL;
o = FOREACH g GENERATE SUM(a.x);
STORE o INTO 'p';",
    a: "9223372036854775807\n1\n5\n",
    read: 3,
    shuffled: 3,
    stores: &[Store {
        statement: 4,
        dir: "p",
        list: false,
        parts: &["-9223372036854775803\n"],
    }],
    ..ONE_INPUT
};

const DESCENDING: Row = Row {
    line: "run s --workers 2 --reducers 3",
    script: "a = LOAD 'a' AS (k:int, v:chararray);
o = ORDER a BY k DESC;
STORE o INTO 'p';",
    a: "2\ta\n\tb\n3\tc\n2\tA\n",
    read: 4,
    shuffled: 4,
    stores: &[Store {
        statement: 3,
        dir: "p",
        list: true,
        parts: &["3\tc\n", "2\tA\n", "2\ta\n\tb\n"],
    }],
    ..ONE_INPUT
};

/// All three rows are kept, and both STOREs see them. A LIMIT has one part, however many reducers
/// there are.
const BARE_LIMIT: Row = Row {
    line: "run s --workers 2",
    script: "a = LOAD 'a' AS (x:int);
l = LIMIT a 5;
STORE l INTO 'p';
STORE l INTO 'q';",
    a: "1\n2\n3\n",
    kept: 1,
    read: 3,
    shuffled: 3,
    stores: &[
        Store {
            statement: 3,
            dir: "p",
            list: false,
            parts: &["1\n2\n3\n"],
        },
        Store {
            statement: 4,
            dir: "q",
            list: false,
            parts: &["1\n2\n3\n"],
        },
    ],
    ..ONE_INPUT
};

const NESTED_ORDER: Row = Row {
    script: "a = LOAD 'a' AS (k:chararray, n:int, s:chararray);
g = GROUP a BY k;
r = FOREACH g { o = ORDER a BY n; t = LIMIT o 1; GENERATE group, t, o.(n,s); };
STORE r INTO 'p';",
    a: "k\t2\tb\nk\t1\tz\nk\t1\ty\n",
    read: 3,
    shuffled: 3,
    stores: &[Store {
        statement: 4,
        dir: "p",
        list: false,
        parts: &["k\t{(k,1,y)}\t{(1,y),(1,z),(2,b)}\n"],
    }],
    ..ONE_INPUT
};

/// The one split of a LOAD is one part.
const FLATTENED: Row = Row {
    line: "run s --workers 2",
    script: "t = LOAD 'a' AS (k:int, a:{(x:int)}, b:{(y:int)});
o = FOREACH t GENERATE k, FLATTEN(a), FLATTEN(b);
STORE o INTO 'p';",
    a: "1\t{(1),(2)}\t{(7)}\n2\t{}\t{(8)}\n3\t\t{(9)}\n",
    read: 3,
    stores: &[Store {
        statement: 3,
        dir: "p",
        list: false,
        parts: &["1\t1\t7\n1\t2\t7\n3\t\t9\n"],
    }],
    ..ONE_INPUT
};

/// Each STORE reads all four lines.
const BRANCHES: Row = Row {
    line: "run s --workers 2",
    script: "a = LOAD 'a' AS (x:int);
SPLIT a INTO b IF x > 2, c IF x < 2, d OTHERWISE;
STORE b INTO 'p';
STORE c INTO 'q';
STORE d INTO 'r';",
    a: "1\n2\n3\n\n",
    read: 12,
    stores: &[
        Store {
            statement: 3,
            dir: "p",
            list: false,
            parts: &["3\n"],
        },
        Store {
            statement: 4,
            dir: "q",
            list: false,
            parts: &["1\n"],
        },
        Store {
            statement: 5,
            dir: "r",
            list: false,
            parts: &["2\n"],
        },
    ],
    ..ONE_INPUT
};

/// The ORDER has its two parts by reducers, the UNION by its two paths, of one split each.
const WIDENING_UNION: Row = Row {
    line: "run s --workers 2 --reducers 2",
    script: "x = LOAD 'a' AS (x:int);
y = LOAD 'b' AS (x:long);
u = UNION x, y;
o = ORDER u BY x;
STORE o INTO 'p';
STORE u INTO 'q';",
    a: "1\n",
    b: "2147483648\n",
    paths: 2,
    read: 4,
    shuffled: 2,
    stores: &[
        Store {
            statement: 5,
            dir: "p",
            list: true,
            parts: &["1\n", "2147483648\n"],
        },
        Store {
            statement: 6,
            dir: "q",
            list: true,
            parts: &["1\n", "2147483648\n"],
        },
    ],
    ..ONE_INPUT
};

const TEXTS: Row = Row {
    line: "run s --workers 2",
    script: "a = LOAD 'a' AS (s:chararray, t:chararray, n:int);
o = FOREACH a GENERATE SIZE(s), SUBSTRING(s,1,3), SUBSTRING(s,3,9), INDEXOF(t,'na'),
    INDEXOF(t,'x'), ABS(n), STARTSWITH(t,'ba'), ENDSWITH(t,'ba'), CONCAT(s,t);
STORE o INTO 'p';",
    a: "héllo\tbanana\t-5\n",
    read: 1,
    stores: &[Store {
        statement: 3,
        dir: "p",
        list: false,
        parts: &["5\tél\tlo\t2\t-1\t5\ttrue\tfalse\théllobanana\n"],
    }],
    ..ONE_INPUT
};

/// How many rows there are.
pub const ROWS: u64 = 15;

/// The rows in turn; behind the last one that again.
pub fn worked_row(place: u64) -> &'static Row {
    match place {
        0 => &WORD_COUNT,
        1 => &EMPTY_PIECE,
        2 => &GOOD_URLS,
        3 => &LINE_ENDS,
        4 => &NULL_GROUPS,
        5 => &NULL_JOIN,
        6 => &NULL_SUMS,
        7 => &WRAPPING_SUM,
        8 => &DESCENDING,
        9 => &BARE_LIMIT,
        10 => &NESTED_ORDER,
        11 => &FLATTENED,
        12 => &BRANCHES,
        13 => &WIDENING_UNION,
        _ => &TEXTS,
    }
}
