use pig_value::{Seq, Text};

/// A word of the language that is no name, whatever the case of its letters.
#[derive(Debug, Clone, Copy, PartialEq, Eq, Drop)]
pub enum Keyword {
    All,
    And,
    As,
    Asc,
    Assert,
    Bag,
    BigDecimal,
    BigInteger,
    Boolean,
    By,
    Bytearray,
    Case,
    Chararray,
    Cogroup,
    Cross,
    Cube,
    DateTime,
    Define,
    Dense,
    Desc,
    Describe,
    Distinct,
    Double,
    Dump,
    Else,
    End,
    Explain,
    False,
    Filter,
    Flatten,
    Float,
    Foreach,
    Full,
    Generate,
    Group,
    If,
    Illustrate,
    Import,
    In,
    Inner,
    Int,
    Into,
    Is,
    Join,
    Left,
    Limit,
    Load,
    Long,
    Map,
    MapReduce,
    Not,
    Null,
    OnSchema,
    Or,
    Order,
    Otherwise,
    Outer,
    Parallel,
    Rank,
    Register,
    Right,
    Rollup,
    Sample,
    Set,
    Split,
    Store,
    Stream,
    Then,
    True,
    Tuple,
    Union,
    Using,
    When,
}

// The keywords, each with its name.
pub static KEYWORDS: [(&[u8], Keyword); 73] = [
    (b"ALL", Keyword::All),
    (b"AND", Keyword::And),
    (b"AS", Keyword::As),
    (b"ASC", Keyword::Asc),
    (b"ASSERT", Keyword::Assert),
    (b"BAG", Keyword::Bag),
    (b"BIGDECIMAL", Keyword::BigDecimal),
    (b"BIGINTEGER", Keyword::BigInteger),
    (b"BOOLEAN", Keyword::Boolean),
    (b"BY", Keyword::By),
    (b"BYTEARRAY", Keyword::Bytearray),
    (b"CASE", Keyword::Case),
    (b"CHARARRAY", Keyword::Chararray),
    (b"COGROUP", Keyword::Cogroup),
    (b"CROSS", Keyword::Cross),
    (b"CUBE", Keyword::Cube),
    (b"DATETIME", Keyword::DateTime),
    (b"DEFINE", Keyword::Define),
    (b"DENSE", Keyword::Dense),
    (b"DESC", Keyword::Desc),
    (b"DESCRIBE", Keyword::Describe),
    (b"DISTINCT", Keyword::Distinct),
    (b"DOUBLE", Keyword::Double),
    (b"DUMP", Keyword::Dump),
    (b"ELSE", Keyword::Else),
    (b"END", Keyword::End),
    (b"EXPLAIN", Keyword::Explain),
    (b"FALSE", Keyword::False),
    (b"FILTER", Keyword::Filter),
    (b"FLATTEN", Keyword::Flatten),
    (b"FLOAT", Keyword::Float),
    (b"FOREACH", Keyword::Foreach),
    (b"FULL", Keyword::Full),
    (b"GENERATE", Keyword::Generate),
    (b"GROUP", Keyword::Group),
    (b"IF", Keyword::If),
    (b"ILLUSTRATE", Keyword::Illustrate),
    (b"IMPORT", Keyword::Import),
    (b"IN", Keyword::In),
    (b"INNER", Keyword::Inner),
    (b"INT", Keyword::Int),
    (b"INTO", Keyword::Into),
    (b"IS", Keyword::Is),
    (b"JOIN", Keyword::Join),
    (b"LEFT", Keyword::Left),
    (b"LIMIT", Keyword::Limit),
    (b"LOAD", Keyword::Load),
    (b"LONG", Keyword::Long),
    (b"MAP", Keyword::Map),
    (b"MAPREDUCE", Keyword::MapReduce),
    (b"NOT", Keyword::Not),
    (b"NULL", Keyword::Null),
    (b"ONSCHEMA", Keyword::OnSchema),
    (b"OR", Keyword::Or),
    (b"ORDER", Keyword::Order),
    (b"OTHERWISE", Keyword::Otherwise),
    (b"OUTER", Keyword::Outer),
    (b"PARALLEL", Keyword::Parallel),
    (b"RANK", Keyword::Rank),
    (b"REGISTER", Keyword::Register),
    (b"RIGHT", Keyword::Right),
    (b"ROLLUP", Keyword::Rollup),
    (b"SAMPLE", Keyword::Sample),
    (b"SET", Keyword::Set),
    (b"SPLIT", Keyword::Split),
    (b"STORE", Keyword::Store),
    (b"STREAM", Keyword::Stream),
    (b"THEN", Keyword::Then),
    (b"TRUE", Keyword::True),
    (b"TUPLE", Keyword::Tuple),
    (b"UNION", Keyword::Union),
    (b"USING", Keyword::Using),
    (b"WHEN", Keyword::When),
];

/// A mark of one or two bytes that is no letter and no digit.
#[derive(Debug, Clone, Copy, PartialEq, Eq, Drop)]
pub enum Symbol {
    /// `;`
    Semicolon,
    /// `,`
    Comma,
    /// `(`
    OpenParen,
    /// `)`
    CloseParen,
    /// `{`
    OpenBrace,
    /// `}`
    CloseBrace,
    /// `[`
    OpenBracket,
    /// `]`
    CloseBracket,
    /// `:`
    Colon,
    /// `::`
    DoubleColon,
    /// `.`
    Dot,
    /// `#`
    Hash,
    /// `=`
    Assign,
    /// `==`
    Equal,
    /// `!=`
    NotEqual,
    /// `<`
    Less,
    /// `<=`
    LessEqual,
    /// `>`
    Greater,
    /// `>=`
    GreaterEqual,
    /// `+`
    Plus,
    /// `-`
    Minus,
    /// `*`
    Star,
    /// `/`
    Slash,
    /// `%`
    Percent,
    /// `?`
    Question,
}

// The symbols, each with its text.
pub static SYMBOLS: [(&[u8], Symbol); 25] = [
    (b";", Symbol::Semicolon),
    (b",", Symbol::Comma),
    (b"(", Symbol::OpenParen),
    (b")", Symbol::CloseParen),
    (b"{", Symbol::OpenBrace),
    (b"}", Symbol::CloseBrace),
    (b"[", Symbol::OpenBracket),
    (b"]", Symbol::CloseBracket),
    (b":", Symbol::Colon),
    (b"::", Symbol::DoubleColon),
    (b".", Symbol::Dot),
    (b"#", Symbol::Hash),
    (b"=", Symbol::Assign),
    (b"==", Symbol::Equal),
    (b"!=", Symbol::NotEqual),
    (b"<", Symbol::Less),
    (b"<=", Symbol::LessEqual),
    (b">", Symbol::Greater),
    (b">=", Symbol::GreaterEqual),
    (b"+", Symbol::Plus),
    (b"-", Symbol::Minus),
    (b"*", Symbol::Star),
    (b"/", Symbol::Slash),
    (b"%", Symbol::Percent),
    (b"?", Symbol::Question),
];

/// What a token is: one form for each row of the token table, with what it holds.
#[derive(Debug, Drop)]
pub enum TokenForm {
    /// A name, as it is written.
    Ident(Text),
    /// A keyword, in any case of its letters.
    Keyword(Keyword),
    /// A whole number from 0 to 2147483647.
    Int(i32),
    /// A whole number from 0 to 9223372036854775807, written with an `L`.
    Long(i64),
    /// A number with a point. No rule takes one, so it holds nothing.
    Float,
    /// `$` and a number from 0 to 999999999.
    Position(u32),
    /// A text between quotes, with its escapes decoded. It holds no LF.
    Text(Text),
    /// A mark.
    Symbol(Symbol),
}

/// A token, and the offset in bytes of its first byte in the script.
#[derive(Debug, Drop)]
pub struct Token {
    pub form: TokenForm,
    pub from: u64,
}

/// The tokens of a script, in the order in which they stand.
pub type Tokens = Seq<Token>;
