//! What no clause says of `lex`, `cut` and `depth`: that each form of token is read with ample memory, what a fault
//! prints, and statements and depths by hand.
//!
//! Where memory is wanting the process ends: that drops nothing, so its proof is short.
ghost use Rattle.std.specs.Prelude.{◌<◌, ◌^◌, length};

use pig_syntax::{LexFault, Piece, Token, TokenForm, Tokens, cut, depth, lex};
use std::alloc::Global;
use std::process::Abort;

// Scripts, each with its tokens or the place of its fault.
const TEXTS: &str = "\
\x20=> \n\
a = b_1; => 0 a 2 Assign 4 b_1 7 Semicolon \n\
a :: b:c => 0 a 2 DoubleColon 5 b 6 Colon 7 c \n\
::: => 0 DoubleColon 2 Colon \n\
= == === <= < >= > != => 0 Assign 2 Equal 5 Equal 7 Assign 9 LessEqual 12 Less 14 GreaterEqual 17 Greater 19 NotEqual \n\
;,(){}[]:.#+-*/%? => 0 Semicolon 1 Comma 2 OpenParen 3 CloseParen 4 OpenBrace 5 CloseBrace 6 OpenBracket 7 CloseBracket 8 Colon 9 Dot 10 Hash 11 Plus 12 Minus 13 Star 14 Slash 15 Percent 16 Question \n\
0 007 2147483647 => 0 0 2 7 6 2147483647 \n\
2147483648 => bad at 0\n\
2147483648L 5l => 0 2147483648L 12 5L \n\
9223372036854775807L => 0 9223372036854775807L \n\
9223372036854775808L => bad at 0\n\
1x => bad at 0\n\
12L3 => bad at 0\n\
1_ => bad at 0\n\
1.5 1.5e-3f 1.5F 0.0E+7 2.5e3 => 0 float 4 float 12 float 17 float 24 float \n\
1.5x => bad at 0\n\
1.5e => bad at 0\n\
1.5fe => bad at 0\n\
1. => 0 1 1 Dot \n\
.5 => 0 Dot 1 5 \n\
1.x => 0 1 1 Dot 2 x \n\
99999999999.5 => 0 float \n\
$0 $123456789 $012 => 0 $0 3 $123456789 14 $12 \n\
$1234567890 => bad at 0\n\
$ => bad at 0\n\
$1a => bad at 0\n\
_a => bad at 0\n\
a_ => 0 a_ \n\
1é => bad at 1\n\
'' => 0 '' \n\
'aé€𝄞' => 0 'aé€𝄞' \n\
'\\'' '\\\\' '\\t' => 0 ''' 5 '\\' 10 '\t' \n\
'\\u00e9\\u20AC\\uFFFFx' => 0 'é€\u{ffff}x' \n\
'\\n' => bad at 0\n\
'\\u000a' => bad at 0\n\
'\\ud800' => bad at 0\n\
'\\uDFFF' => bad at 0\n\
'\\uD7FF' => 0 '\u{d7ff}' \n\
'\\u00g0' => bad at 0\n\
'\\u12' => bad at 0\n\
'\\x' => bad at 0\n\
'a => bad at 0\n\
'\\' => bad at 0\n\
a -- => 0 a \n\
a--b => 0 a \n\
a - -b => 0 a 2 Minus 4 Minus 5 b \n\
/*/*/b => 5 b \n\
/* /* */ */ => 9 Star 10 Slash \n\
/*/ => bad at 0\n\
a /* b => bad at 2\n\
/**/a => 4 a \n\
a/b*/ => 0 a 1 Slash 2 b 3 Star 4 Slash \n\
a ! b => bad at 2\n\
a @ => bad at 2\n\
a\0 => bad at 1\n\
x = FILTER nope BY @; => bad at 19";

// Scripts, each with its statements as places of tokens.
const PIECES: &str = "\
\x20=> \n\
1; => 0-1 \n\
;; => 0-0 1-1 \n\
1 1;1; => 0-2 3-4 \n\
1{1;1;};1; => 0-7 8-9 \n\
}{;1; => 0-2 3-4 \n\
}};{{;};1 => 0-2 3-9 \n\
1;1 => 0-1 2-3 \n\
{; => 0-2 ";

// Scripts, each with the depth of all its tokens.
const DEPTHS: &str = "\
\x20=> 0\n\
1;1 => 0\n\
({[]}) => 3\n\
()(())() => 2\n\
))((( => 1\n\
CASE 1 CASE END 1 (END) => 2\n\
(((((((((((((((((((((((((((((((((((((((((((((((((((((((((((((((( => 64\n\
[[[[[[[[[[[[[[[[[[[[[[[[[[[[[[[[[[[[[[[[[[[[[[[[[[[[[[[[[[[[[[[[[ => 65";

// A token as `offset form`, with a space behind it.
fn shown_token<R: Abort>(rt: &R, alloc: Global, token: &Token) -> String {
    let from = token.from;
    let shown = match &token.form {
        TokenForm::Ident(name) => format!(in alloc; "{from} {} ", name.as_str()),
        TokenForm::Keyword(keyword) => format!(in alloc; "{from} <{keyword:?}> "),
        TokenForm::Int(number) => format!(in alloc; "{from} {number} "),
        TokenForm::Long(number) => format!(in alloc; "{from} {number}L "),
        TokenForm::Float => format!(in alloc; "{from} float "),
        TokenForm::Position(number) => format!(in alloc; "{from} ${number} "),
        TokenForm::Text(text) => format!(in alloc; "{from} '{}' ", text.as_str()),
        TokenForm::Symbol(symbol) => format!(in alloc; "{from} {symbol:?} "),
    };
    shown.expect(rt, "memory")
}

// All these tokens one after the other.
fn shown_tokens<R: Abort>(rt: &R, alloc: Global, tokens: &Tokens) -> String {
    let mut text = String::new(alloc);
    for token in tokens.as_slice() {
        let token = shown_token(rt, alloc, token);
        text.push_str(token.as_str()).expect(rt, "memory");
    }
    text
}

// What a fault prints.
fn shown_fault<R: Abort>(rt: &R, alloc: Global, fault: &LexFault) -> String {
    let shown = match fault {
        LexFault::Bad { offset } => format!(in alloc; "bad at {offset}"),
        LexFault::OutOfMemory => String::from_str(alloc, "out of memory"),
    };
    shown.expect(rt, "memory")
}

// The tokens of a script one after the other, or its fault.
fn shown<R: Abort>(rt: &R, alloc: Global, script: &[u8]) -> String {
    match lex(alloc, script) {
        Ok(tokens) => shown_tokens(rt, alloc, &tokens),
        Err(fault) => shown_fault(rt, alloc, &fault),
    }
}

// The statements of tokens one after the other, as `from-to`.
fn shown_pieces<R: Abort>(rt: &R, alloc: Global, tokens: &Tokens) -> String {
    let mut text = String::new(alloc);
    let pieces = cut(alloc, tokens).expect(rt, "memory");
    for piece in pieces.as_slice() {
        let piece = format!(in alloc; "{}-{} ", piece.from, piece.to).expect(rt, "memory");
        text.push_str(piece.as_str()).expect(rt, "memory");
    }
    text
}

// The statements of a script.
fn pieces<R: Abort>(rt: &R, alloc: Global, script: &str) -> String {
    match lex(alloc, script.as_bytes()) {
        Ok(tokens) => shown_pieces(rt, alloc, &tokens),
        Err(_) => String::new(alloc),
    }
}

// The depth of all these tokens as one statement.
fn depth_of(tokens: &Tokens) -> u32
    requires { length tokens.now < 2 ^ 32 }
{
    let whole = Piece {
        from: 0,
        to: tokens.len(),
    };
    depth(tokens, &whole)
}

// The depth of all tokens of a script.
fn depths<R: Abort>(rt: &R, alloc: Global, script: &str) -> String {
    let shown = match lex(alloc, script.as_bytes()) {
        Ok(tokens) => {
            if tokens.len() < 1 << 32 {
                format!(in alloc; "{}", depth_of(&tokens))
            } else {
                String::from_str(alloc, "too many tokens")
            }
        }
        Err(_) => String::from_str(alloc, "no tokens"),
    };
    shown.expect(rt, "memory")
}

#[test]
fn reads_each_form(rt: HostRuntime) {
    for row in TEXTS.lines() {
        let (script, wanted) = row.split_once(" => ").unwrap_or(("", "none"));
        let shown = shown(&rt, rt.alloc(), script.as_bytes());
        assert_eq!(rt; shown.as_str(), wanted);
    }
}

#[test]
fn reads_bytes_and_lines(rt: HostRuntime) {
    let cases: [(&[u8], &str); 6] = [
        (b" \t\r\n", ""),
        (b"'a\nb'", "bad at 0"),
        (b"'\xff'", "bad at 0"),
        (b"'\xc3\\u00a9'", "bad at 0"),
        (b"a --\xff'\nb", "0 a 7 b "),
        (b"a /* \xff * / ' */ b", "0 a 16 b "),
    ];
    for (script, wanted) in cases {
        let shown = shown(&rt, rt.alloc(), script);
        assert_eq!(rt; shown.as_str(), wanted);
    }
}

#[test]
fn cuts_at_the_end_of_each_statement(rt: HostRuntime) {
    for row in PIECES.lines() {
        let (script, wanted) = row.split_once(" => ").unwrap_or(("", "none"));
        let pieces = pieces(&rt, rt.alloc(), script);
        assert_eq!(rt; pieces.as_str(), wanted);
    }
}

#[test]
fn nests_as_deep_as_its_brackets(rt: HostRuntime) {
    for row in DEPTHS.lines() {
        let (script, wanted) = row.split_once(" => ").unwrap_or(("", "none"));
        let depth = depths(&rt, rt.alloc(), script);
        assert_eq!(rt; depth.as_str(), wanted);
    }
}

#[test]
fn reads_each_keyword_in_any_case(rt: HostRuntime) {
    let shown = shown(
        &rt,
        rt.alloc(),
        b"AlL aNd As aSc AsSeRt bAg BiGdEcImAl bIgInTeGeR BoOlEaN bY ByTeArRaY cAsE ChArArRaY \
          cOgRoUp CrOsS cUbE DaTeTiMe dEfInE DeNsE dEsC DeScRiBe dIsTiNcT DoUbLe dUmP ElSe eNd \
          ExPlAiN fAlSe FiLtEr fLaTtEn FlOaT fOrEaCh FuLl gEnErAtE GrOuP iF IlLuStRaTe iMpOrT In \
          iNnEr InT iNtO Is jOiN LeFt lImIt LoAd lOnG MaP mApReDuCe NoT nUlL OnScHeMa oR OrDeR \
          oThErWiSe OuTeR pArAlLeL RaNk rEgIsTeR RiGhT rOlLuP SaMpLe sEt SpLiT sToRe StReAm tHeN \
          TrUe tUpLe UnIoN uSiNg WhEn ",
    );
    assert_eq!(rt;
        shown.as_str(),
        "0 <All> 4 <And> 8 <As> 11 <Asc> 15 <Assert> 22 <Bag> 26 <BigDecimal> 37 <BigInteger> 48 \
          <Boolean> 56 <By> 59 <Bytearray> 69 <Case> 74 <Chararray> 84 <Cogroup> 92 <Cross> 98 \
          <Cube> 103 <DateTime> 112 <Define> 119 <Dense> 125 <Desc> 130 <Describe> 139 <Distinct> \
          148 <Double> 155 <Dump> 160 <Else> 165 <End> 169 <Explain> 177 <False> 183 <Filter> 190 \
          <Flatten> 198 <Float> 204 <Foreach> 212 <Full> 217 <Generate> 226 <Group> 232 <If> 235 \
          <Illustrate> 246 <Import> 253 <In> 256 <Inner> 262 <Int> 266 <Into> 271 <Is> 274 <Join> \
          279 <Left> 284 <Limit> 290 <Load> 295 <Long> 300 <Map> 304 <MapReduce> 314 <Not> 318 \
          <Null> 323 <OnSchema> 332 <Or> 335 <Order> 341 <Otherwise> 351 <Outer> 357 <Parallel> \
          366 <Rank> 371 <Register> 380 <Right> 386 <Rollup> 393 <Sample> 400 <Set> 404 <Split> \
          410 <Store> 416 <Stream> 423 <Then> 428 <True> 433 <Tuple> 439 <Union> 445 <Using> 451 \
          <When> "
    );
}
