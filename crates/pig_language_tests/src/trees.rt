//! What no clause says of `parse`: that each form is read with ample memory, as the tree that the grammar gives it, and
//! which statement is the first that is off the grammar.
use crate::reading::{Answer, counted, parsed};
use pig_parser::SyntaxFault;
use pig_shown_tests::plain;
use pig_syntax::Stmts;
use std::alloc::Global;
use std::process::Abort;

// Expressions, each with its tree; a row with none is off the grammar.
const EXPRESSIONS: &str = "\
1 => Int(1)\n\
2147483647 => Int(2147483647)\n\
5L => Long(5)\n\
1.5 => Float\n\
't' => Text('t')\n\
TRUE => Bool(true)\n\
false => Bool(false)\n\
NULL => Null\n\
b => Field(Name('b'))\n\
$3 => Field(Position(3))\n\
a::b => Field(Name('a::b'))\n\
group => Field(Name('group'))\n\
a::GROUP::b => Field(Name('a::group::b'))\n\
cube => Field(Name('cube'))\n\
a::CUBE::b => Field(Name('a::cube::b'))\n\
SUM(cube.s) => Call { name: 'SUM', args: [Post { a: Field(Name('cube')), steps: [Project { fields: [Name('s')], single: true }] }] }\n\
b OR c OR d => Chain { first: Field(Name('b')), rest: [Link { op: Or, a: Field(Name('c')) }, Link { op: Or, a: Field(Name('d')) }] }\n\
b AND c OR d AND e => Chain { first: Chain { first: Field(Name('b')), rest: [Link { op: And, a: Field(Name('c')) }] }, rest: [Link { op: Or, a: Chain { first: Field(Name('d')), rest: [Link { op: And, a: Field(Name('e')) }] } }] }\n\
NOT b AND c => Chain { first: Not(Field(Name('b'))), rest: [Link { op: And, a: Field(Name('c')) }] }\n\
NOT a == b => Not(Compare { op: Eq, a: Field(Name('a')), b: Field(Name('b')) })\n\
a == b => Compare { op: Eq, a: Field(Name('a')), b: Field(Name('b')) }\n\
a != b => Compare { op: Ne, a: Field(Name('a')), b: Field(Name('b')) }\n\
a < b => Compare { op: Lt, a: Field(Name('a')), b: Field(Name('b')) }\n\
a <= b => Compare { op: Le, a: Field(Name('a')), b: Field(Name('b')) }\n\
a > b => Compare { op: Gt, a: Field(Name('a')), b: Field(Name('b')) }\n\
a >= b => Compare { op: Ge, a: Field(Name('a')), b: Field(Name('b')) }\n\
a + b < c * d => Compare { op: Lt, a: Chain { first: Field(Name('a')), rest: [Link { op: Add, a: Field(Name('b')) }] }, b: Chain { first: Field(Name('c')), rest: [Link { op: Mul, a: Field(Name('d')) }] } }\n\
a IS NULL => IsNull { a: Field(Name('a')), not: false }\n\
a + b IS NOT NULL => IsNull { a: Chain { first: Field(Name('a')), rest: [Link { op: Add, a: Field(Name('b')) }] }, not: true }\n\
a - b + c => Chain { first: Field(Name('a')), rest: [Link { op: Sub, a: Field(Name('b')) }, Link { op: Add, a: Field(Name('c')) }] }\n\
a * b / c % d => Chain { first: Field(Name('a')), rest: [Link { op: Mul, a: Field(Name('b')) }, Link { op: Div, a: Field(Name('c')) }, Link { op: Rem, a: Field(Name('d')) }] }\n\
a + b * c - d => Chain { first: Field(Name('a')), rest: [Link { op: Add, a: Chain { first: Field(Name('b')), rest: [Link { op: Mul, a: Field(Name('c')) }] } }, Link { op: Sub, a: Field(Name('d')) }] }\n\
(a + b) * c => Chain { first: Chain { first: Field(Name('a')), rest: [Link { op: Add, a: Field(Name('b')) }] }, rest: [Link { op: Mul, a: Field(Name('c')) }] }\n\
a - (b - c) => Chain { first: Field(Name('a')), rest: [Link { op: Sub, a: Chain { first: Field(Name('b')), rest: [Link { op: Sub, a: Field(Name('c')) }] } }] }\n\
- a * b => Chain { first: Minus(Field(Name('a'))), rest: [Link { op: Mul, a: Field(Name('b')) }] }\n\
a * - b => Chain { first: Field(Name('a')), rest: [Link { op: Mul, a: Minus(Field(Name('b'))) }] }\n\
- (int) x => Minus(Cast { to: Int, a: Field(Name('x')) })\n\
(int) x + 1 => Chain { first: Cast { to: Int, a: Field(Name('x')) }, rest: [Link { op: Add, a: Int(1) }] }\n\
(x) => Field(Name('x'))\n\
((x)) => Field(Name('x'))\n\
(c ? a : b) => Choose { cond: Field(Name('c')), yes: Field(Name('a')), no: Field(Name('b')) }\n\
(c ? (d ? 1 : 2) : 3) => Choose { cond: Field(Name('c')), yes: Choose { cond: Field(Name('d')), yes: Int(1), no: Int(2) }, no: Int(3) }\n\
(c == 1 ? a : b) + 1 => Chain { first: Choose { cond: Compare { op: Eq, a: Field(Name('c')), b: Int(1) }, yes: Field(Name('a')), no: Field(Name('b')) }, rest: [Link { op: Add, a: Int(1) }] }\n\
(int) (x) => Cast { to: Int, a: Field(Name('x')) }\n\
(tuple(a, b: int)) x => Cast { to: Tuple([FieldTree { name: 'a', kind: None }, FieldTree { name: 'b', kind: Some(Int) }]), a: Field(Name('x')) }\n\
(bag{t: (a)}) x => Cast { to: Bag([FieldTree { name: 'a', kind: None }]), a: Field(Name('x')) }\n\
(map[]) x#'k' => Cast { to: Map(None), a: Post { a: Field(Name('x')), steps: [Look('k')] } }\n\
(map[long]) x => Cast { to: Map(Some(Long)), a: Field(Name('x')) }\n\
a.b => Post { a: Field(Name('a')), steps: [Project { fields: [Name('b')], single: true }] }\n\
a.$1 => Post { a: Field(Name('a')), steps: [Project { fields: [Position(1)], single: true }] }\n\
a.(b) => Post { a: Field(Name('a')), steps: [Project { fields: [Name('b')], single: false }] }\n\
a::b.(c,$1)#'k' => Post { a: Field(Name('a::b')), steps: [Project { fields: [Name('c'), Position(1)], single: false }, Look('k')] }\n\
a.b.c => Post { a: Field(Name('a')), steps: [Project { fields: [Name('b')], single: true }, Project { fields: [Name('c')], single: true }] }\n\
(a).b => Post { a: Field(Name('a')), steps: [Project { fields: [Name('b')], single: true }] }\n\
f() => Call { name: 'f', args: [] }\n\
f(a, b + 1) => Call { name: 'f', args: [Field(Name('a')), Chain { first: Field(Name('b')), rest: [Link { op: Add, a: Int(1) }] }] }\n\
a IN (b) => Compare { op: Eq, a: Field(Name('a')), b: Field(Name('b')) }\n\
a IN (1, 2, 3) => Chain { first: Compare { op: Eq, a: Field(Name('a')), b: Int(1) }, rest: [Link { op: Or, a: Compare { op: Eq, a: Field(Name('a')), b: Int(2) } }, Link { op: Or, a: Compare { op: Eq, a: Field(Name('a')), b: Int(3) } }] }\n\
a in (b OR c, (d)) => Chain { first: Compare { op: Eq, a: Field(Name('a')), b: Chain { first: Field(Name('b')), rest: [Link { op: Or, a: Field(Name('c')) }] } }, rest: [Link { op: Or, a: Compare { op: Eq, a: Field(Name('a')), b: Field(Name('d')) } }] }\n\
NOT a IN (1, 2) => Not(Chain { first: Compare { op: Eq, a: Field(Name('a')), b: Int(1) }, rest: [Link { op: Or, a: Compare { op: Eq, a: Field(Name('a')), b: Int(2) } }] })\n\
a + b IN (1, 2, 3) => Chain { first: Compare { op: Eq, a: Chain { first: Field(Name('a')), rest: [Link { op: Add, a: Field(Name('b')) }] }, b: Int(1) }, rest: [Link { op: Or, a: Compare { op: Eq, a: Chain { first: Field(Name('a')), rest: [Link { op: Add, a: Field(Name('b')) }] }, b: Int(2) } }, Link { op: Or, a: Compare { op: Eq, a: Chain { first: Field(Name('a')), rest: [Link { op: Add, a: Field(Name('b')) }] }, b: Int(3) } }] }\n\
a IN (1) AND b IN (2) => Chain { first: Compare { op: Eq, a: Field(Name('a')), b: Int(1) }, rest: [Link { op: And, a: Compare { op: Eq, a: Field(Name('b')), b: Int(2) } }] }\n\
a IN (b IN (1, 2), c) => Chain { first: Compare { op: Eq, a: Field(Name('a')), b: Chain { first: Compare { op: Eq, a: Field(Name('b')), b: Int(1) }, rest: [Link { op: Or, a: Compare { op: Eq, a: Field(Name('b')), b: Int(2) } }] } }, rest: [Link { op: Or, a: Compare { op: Eq, a: Field(Name('a')), b: Field(Name('c')) } }] }\n\
(a IN (1, 2)) IN (b, c) => Chain { first: Compare { op: Eq, a: Chain { first: Compare { op: Eq, a: Field(Name('a')), b: Int(1) }, rest: [Link { op: Or, a: Compare { op: Eq, a: Field(Name('a')), b: Int(2) } }] }, b: Field(Name('b')) }, rest: [Link { op: Or, a: Compare { op: Eq, a: Chain { first: Compare { op: Eq, a: Field(Name('a')), b: Int(1) }, rest: [Link { op: Or, a: Compare { op: Eq, a: Field(Name('a')), b: Int(2) } }] }, b: Field(Name('c')) } }] }\n\
(int) a.b IN ('1', '2') => Chain { first: Compare { op: Eq, a: Cast { to: Int, a: Post { a: Field(Name('a')), steps: [Project { fields: [Name('b')], single: true }] } }, b: Text('1') }, rest: [Link { op: Or, a: Compare { op: Eq, a: Cast { to: Int, a: Post { a: Field(Name('a')), steps: [Project { fields: [Name('b')], single: true }] } }, b: Text('2') } }] }\n\
CASE WHEN a THEN b END => Choose { cond: Field(Name('a')), yes: Field(Name('b')), no: Null }\n\
CASE WHEN a THEN 1 WHEN b THEN 2 WHEN c THEN 3 ELSE 4 END => Choose { cond: Field(Name('a')), yes: Int(1), no: Choose { cond: Field(Name('b')), yes: Int(2), no: Choose { cond: Field(Name('c')), yes: Int(3), no: Int(4) } } }\n\
case When a tHEN b eLsE c enD => Choose { cond: Field(Name('a')), yes: Field(Name('b')), no: Field(Name('c')) }\n\
CASE a WHEN 1 THEN b END => Choose { cond: Compare { op: Eq, a: Field(Name('a')), b: Int(1) }, yes: Field(Name('b')), no: Null }\n\
CASE a + b WHEN 1 THEN 'p' WHEN c THEN 'q' WHEN 3 THEN 'r' ELSE 's' END => Choose { cond: Compare { op: Eq, a: Chain { first: Field(Name('a')), rest: [Link { op: Add, a: Field(Name('b')) }] }, b: Int(1) }, yes: Text('p'), no: Choose { cond: Compare { op: Eq, a: Chain { first: Field(Name('a')), rest: [Link { op: Add, a: Field(Name('b')) }] }, b: Field(Name('c')) }, yes: Text('q'), no: Choose { cond: Compare { op: Eq, a: Chain { first: Field(Name('a')), rest: [Link { op: Add, a: Field(Name('b')) }] }, b: Int(3) }, yes: Text('r'), no: Text('s') } } }\n\
CASE a WHEN b OR c THEN d END => Choose { cond: Compare { op: Eq, a: Field(Name('a')), b: Chain { first: Field(Name('b')), rest: [Link { op: Or, a: Field(Name('c')) }] } }, yes: Field(Name('d')), no: Null }\n\
CASE WHEN a THEN CASE b WHEN 1 THEN 2 END ELSE CASE WHEN c THEN 3 ELSE 4 END END => Choose { cond: Field(Name('a')), yes: Choose { cond: Compare { op: Eq, a: Field(Name('b')), b: Int(1) }, yes: Int(2), no: Null }, no: Choose { cond: Field(Name('c')), yes: Int(3), no: Int(4) } }\n\
CASE CASE WHEN a THEN 1 END WHEN b THEN 2 WHEN c THEN 3 END => Choose { cond: Compare { op: Eq, a: Choose { cond: Field(Name('a')), yes: Int(1), no: Null }, b: Field(Name('b')) }, yes: Int(2), no: Choose { cond: Compare { op: Eq, a: Choose { cond: Field(Name('a')), yes: Int(1), no: Null }, b: Field(Name('c')) }, yes: Int(3), no: Null } }\n\
CASE a IN (1) WHEN b THEN c END => Choose { cond: Compare { op: Eq, a: Compare { op: Eq, a: Field(Name('a')), b: Int(1) }, b: Field(Name('b')) }, yes: Field(Name('c')), no: Null }\n\
(CASE WHEN a THEN b END) + 1 => Chain { first: Choose { cond: Field(Name('a')), yes: Field(Name('b')), no: Null }, rest: [Link { op: Add, a: Int(1) }] }\n\
CASE WHEN a THEN b END.c => Post { a: Choose { cond: Field(Name('a')), yes: Field(Name('b')), no: Null }, steps: [Project { fields: [Name('c')], single: true }] }\n\
f(CASE WHEN a THEN b END, a IN (1)) => Call { name: 'f', args: [Choose { cond: Field(Name('a')), yes: Field(Name('b')), no: Null }, Compare { op: Eq, a: Field(Name('a')), b: Int(1) }] }\n\
f(g(1)).x => Post { a: Call { name: 'f', args: [Call { name: 'g', args: [Int(1)] }] }, steps: [Project { fields: [Name('x')], single: true }] }\n\
a == b == c\n\
a < b > c\n\
NOT NOT b\n\
- - b\n\
(int) - b\n\
(int) (int) b\n\
(int) a + \n\
a + NOT b\n\
a +\n\
a OR\n\
AND a\n\
\x20\n\
a::\n\
a::1\n\
::a\n\
a.\n\
a.()\n\
a.(b,)\n\
a.'k'\n\
a#b\n\
a#\n\
(a, b)\n\
()\n\
(a\n\
a)\n\
(c ? a)\n\
(c ? a : )\n\
c ? a : b\n\
(c ? a : b : d)\n\
a IS b\n\
a IS NOT b\n\
a IS\n\
a b\n\
f(,)\n\
f(a,)\n\
f(a b)\n\
a::f(b)\n\
(tuple) a\n\
(bag) a\n\
(map) a\n\
(int a)\n\
*\n\
a IN ()\n\
a IN b\n\
a IN (b,)\n\
a IN (,b)\n\
a IN (b\n\
a NOT IN (b)\n\
a IN (b) IN (c)\n\
a == b IN (c)\n\
a IN (b) == c\n\
a IN (b) IS NULL\n\
IN (a)\n\
a IN (b c)\n\
CASE END\n\
CASE a END\n\
CASE ELSE a END\n\
CASE a ELSE b END\n\
CASE WHEN a END\n\
CASE WHEN a THEN END\n\
CASE WHEN THEN a END\n\
CASE WHEN a THEN b\n\
CASE WHEN a THEN b ELSE c\n\
CASE WHEN a THEN b ELSE END\n\
CASE WHEN a THEN b ELSE c ELSE d END\n\
CASE WHEN a THEN b ELSE c WHEN d THEN e END\n\
CASE a b WHEN c THEN d END\n\
CASE WHEN a, b THEN c END\n\
WHEN a THEN b END\n\
CASE WHEN a THEN b END END\n\
(CASE WHEN a THEN b)\n\
INT\n\
rollup\n\
cube(a)\n\
rank\n\
a::dense\n\
a = b";

// Types, each with its tree; a row with none is off the grammar.
const TYPES: &str = "\
int => Int\n\
long => Long\n\
chararray => Chararray\n\
bytearray => Bytearray\n\
boolean => Boolean\n\
float => Float\n\
double => Float\n\
biginteger => Float\n\
bigdecimal => Float\n\
datetime => Float\n\
(a) => Tuple([FieldTree { name: 'a', kind: None }])\n\
tuple(a: int, b) => Tuple([FieldTree { name: 'a', kind: Some(Int) }, FieldTree { name: 'b', kind: None }])\n\
{(a)} => Bag([FieldTree { name: 'a', kind: None }])\n\
{t: (a: long)} => Bag([FieldTree { name: 'a', kind: Some(Long) }])\n\
bag{tuple(a)} => Bag([FieldTree { name: 'a', kind: None }])\n\
bag{t: tuple(a, b)} => Bag([FieldTree { name: 'a', kind: None }, FieldTree { name: 'b', kind: None }])\n\
[] => Map(None)\n\
[int] => Map(Some(Int))\n\
map[] => Map(None)\n\
map[{(a: [int])}] => Map(Some(Bag([FieldTree { name: 'a', kind: Some(Map(Some(Int))) }])))\n\
(a: (b: (c: int))) => Tuple([FieldTree { name: 'a', kind: Some(Tuple([FieldTree { name: 'b', kind: Some(Tuple([FieldTree { name: 'c', kind: Some(Int) }])) }])) }])\n\
\x20\n\
uint\n\
tuple\n\
()\n\
(a:)\n\
(a b)\n\
(a,)\n\
{}\n\
{a}\n\
{t: }\n\
{(a)\n\
bag(a)\n\
bag{a: int}\n\
map\n\
map[b: int]\n\
[int\n\
int int\n\
tuple{(a)}\n\
map{(a)}";

// Operators, each with its tree; a row with none is off the grammar.
const OPERATORS: &str = "\
LOAD 'p' AS (a) => Load { path: 'p', func: None, schema: [FieldTree { name: 'a', kind: None }] }\n\
LOAD 'p' USING F() AS (a: int, b) => Load { path: 'p', func: Some(Func { name: 'F', args: [] }), schema: [FieldTree { name: 'a', kind: Some(Int) }, FieldTree { name: 'b', kind: None }] }\n\
LOAD 'p' USING F('x', 'y') AS (a) => Load { path: 'p', func: Some(Func { name: 'F', args: ['x', 'y'] }), schema: [FieldTree { name: 'a', kind: None }] }\n\
FILTER a BY b => Filter { from: 'a', cond: Field(Name('b')) }\n\
FOREACH a GENERATE * => Foreach { from: 'a', steps: [], items: [All] }\n\
FOREACH a GENERATE b, c AS d, e + 1 AS f: int => Foreach { from: 'a', steps: [], items: [Value { value: Field(Name('b')), flatten: false, names: None }, Value { value: Field(Name('c')), flatten: false, names: Some(One(FieldTree { name: 'd', kind: None })) }, Value { value: Chain { first: Field(Name('e')), rest: [Link { op: Add, a: Int(1) }] }, flatten: false, names: Some(One(FieldTree { name: 'f', kind: Some(Int) })) }] }\n\
FOREACH a GENERATE FLATTEN(b), FLATTEN(c) AS (d, e: long), * => Foreach { from: 'a', steps: [], items: [Value { value: Field(Name('b')), flatten: true, names: None }, Value { value: Field(Name('c')), flatten: true, names: Some(Several([FieldTree { name: 'd', kind: None }, FieldTree { name: 'e', kind: Some(Long) }])) }, All] }\n\
FOREACH a GENERATE f(b) AS (c), FLATTEN(d) AS e => Foreach { from: 'a', steps: [], items: [Value { value: Call { name: 'f', args: [Field(Name('b'))] }, flatten: false, names: Some(Several([FieldTree { name: 'c', kind: None }])) }, Value { value: Field(Name('d')), flatten: true, names: Some(One(FieldTree { name: 'e', kind: None })) }] }\n\
FOREACH a { GENERATE b; } => Foreach { from: 'a', steps: [], items: [Value { value: Field(Name('b')), flatten: false, names: None }] }\n\
FOREACH a { p = FILTER b BY c > 1; q = DISTINCT p; r = ORDER q BY $0 DESC, d; s = LIMIT r 5; t = b.(c, d); GENERATE group, t AS u; } => Foreach { from: 'a', steps: [Step { alias: 'p', nested: Filter { from: BagRef { field: Name('b'), sel: None }, cond: Compare { op: Gt, a: Field(Name('c')), b: Int(1) } } }, Step { alias: 'q', nested: Distinct { from: BagRef { field: Name('p'), sel: None } } }, Step { alias: 'r', nested: Order { from: BagRef { field: Name('q'), sel: None }, keys: Fields([OrderField { field: Position(0), dir: Desc }, OrderField { field: Name('d'), dir: Asc }]) } }, Step { alias: 's', nested: Limit { from: BagRef { field: Name('r'), sel: None }, count: 5 } }, Step { alias: 't', nested: Take { from: BagRef { field: Name('b'), sel: Some(Project { fields: [Name('c'), Name('d')], single: false }) } } }], items: [Value { value: Field(Name('group')), flatten: false, names: None }, Value { value: Field(Name('t')), flatten: false, names: Some(One(FieldTree { name: 'u', kind: None })) }] }\n\
FOREACH a { p = ORDER b.c BY * ASC; q = LIMIT $1 7L; r = DISTINCT x::y.$0; GENERATE *; } => Foreach { from: 'a', steps: [Step { alias: 'p', nested: Order { from: BagRef { field: Name('b'), sel: Some(Project { fields: [Name('c')], single: true }) }, keys: All(Asc) } }, Step { alias: 'q', nested: Limit { from: BagRef { field: Position(1), sel: None }, count: 7 } }, Step { alias: 'r', nested: Distinct { from: BagRef { field: Name('x::y'), sel: Some(Project { fields: [Position(0)], single: true }) } } }], items: [All] }\n\
GROUP a ALL => GroupAll { from: 'a', using: None }\n\
COGROUP a ALL USING 'u' PARALLEL 2 => GroupAll { from: 'a', using: Some('u') }\n\
GROUP a BY b => Group { inputs: [GroupInput { from: 'a', keys: [Field(Name('b'))], inner: false }], using: None }\n\
GROUP a BY (b) => Group { inputs: [GroupInput { from: 'a', keys: [Field(Name('b'))], inner: false }], using: None }\n\
GROUP a BY (b, c + 1, $2) => Group { inputs: [GroupInput { from: 'a', keys: [Field(Name('b')), Chain { first: Field(Name('c')), rest: [Link { op: Add, a: Int(1) }] }, Field(Position(2))], inner: false }], using: None }\n\
GROUP a BY (b + c) * d => Group { inputs: [GroupInput { from: 'a', keys: [Chain { first: Chain { first: Field(Name('b')), rest: [Link { op: Add, a: Field(Name('c')) }] }, rest: [Link { op: Mul, a: Field(Name('d')) }] }], inner: false }], using: None }\n\
GROUP a BY ((b), (c)) => Group { inputs: [GroupInput { from: 'a', keys: [Field(Name('b')), Field(Name('c'))], inner: false }], using: None }\n\
GROUP a BY (b ? c : d) => Group { inputs: [GroupInput { from: 'a', keys: [Choose { cond: Field(Name('b')), yes: Field(Name('c')), no: Field(Name('d')) }], inner: false }], using: None }\n\
GROUP a BY (int) b => Group { inputs: [GroupInput { from: 'a', keys: [Cast { to: Int, a: Field(Name('b')) }], inner: false }], using: None }\n\
GROUP a BY ((int) b, c) => Group { inputs: [GroupInput { from: 'a', keys: [Cast { to: Int, a: Field(Name('b')) }, Field(Name('c'))], inner: false }], using: None }\n\
COGROUP a BY b INNER, c BY d OUTER, e BY (f, g) USING 'u' PARALLEL 4 => Group { inputs: [GroupInput { from: 'a', keys: [Field(Name('b'))], inner: true }, GroupInput { from: 'c', keys: [Field(Name('d'))], inner: false }, GroupInput { from: 'e', keys: [Field(Name('f')), Field(Name('g'))], inner: false }], using: Some('u') }\n\
GROUP a BY b PARALLEL 4 => Group { inputs: [GroupInput { from: 'a', keys: [Field(Name('b'))], inner: false }], using: None }\n\
JOIN a BY k, b BY k => Join { inputs: [JoinInput { from: 'a', keys: [Field(Name('k'))] }, JoinInput { from: 'b', keys: [Field(Name('k'))] }], side: Inner, using: None }\n\
JOIN a BY k LEFT, b BY k => Join { inputs: [JoinInput { from: 'a', keys: [Field(Name('k'))] }, JoinInput { from: 'b', keys: [Field(Name('k'))] }], side: Left, using: None }\n\
JOIN a BY k RIGHT, b BY k => Join { inputs: [JoinInput { from: 'a', keys: [Field(Name('k'))] }, JoinInput { from: 'b', keys: [Field(Name('k'))] }], side: Right, using: None }\n\
JOIN a BY k FULL, b BY k => Join { inputs: [JoinInput { from: 'a', keys: [Field(Name('k'))] }, JoinInput { from: 'b', keys: [Field(Name('k'))] }], side: Full, using: None }\n\
JOIN a BY k LEFT OUTER, b BY k => Join { inputs: [JoinInput { from: 'a', keys: [Field(Name('k'))] }, JoinInput { from: 'b', keys: [Field(Name('k'))] }], side: Left, using: None }\n\
JOIN a BY k FULL OUTER, b BY k USING 'u' PARALLEL 3 => Join { inputs: [JoinInput { from: 'a', keys: [Field(Name('k'))] }, JoinInput { from: 'b', keys: [Field(Name('k'))] }], side: Full, using: Some('u') }\n\
JOIN a BY (k, $1) RIGHT OUTER, b BY (k, l), c BY (m, n) => Join { inputs: [JoinInput { from: 'a', keys: [Field(Name('k')), Field(Position(1))] }, JoinInput { from: 'b', keys: [Field(Name('k')), Field(Name('l'))] }, JoinInput { from: 'c', keys: [Field(Name('m')), Field(Name('n'))] }], side: Right, using: None }\n\
UNION a, b => Union { onschema: false, from: ['a', 'b'] }\n\
UNION ONSCHEMA a, b, a => Union { onschema: true, from: ['a', 'b', 'a'] }\n\
DISTINCT a => Distinct { from: 'a' }\n\
DISTINCT a PARALLEL 3 => Distinct { from: 'a' }\n\
ORDER a BY * => Order { from: 'a', keys: All(Asc) }\n\
ORDER a BY * DESC PARALLEL 2 => Order { from: 'a', keys: All(Desc) }\n\
ORDER a BY b, $1 ASC, c::d DESC => Order { from: 'a', keys: Fields([OrderField { field: Name('b'), dir: Asc }, OrderField { field: Position(1), dir: Asc }, OrderField { field: Name('c::d'), dir: Desc }]) }\n\
ORDER a BY b PARALLEL 2 => Order { from: 'a', keys: Fields([OrderField { field: Name('b'), dir: Asc }]) }\n\
LIMIT a 0 => Limit { from: 'a', count: 0 }\n\
LIMIT a 9223372036854775807L => Limit { from: 'a', count: 9223372036854775807 }\n\
CUBE a BY CUBE(p) => Cube { from: 'a', rollup: false, dims: [Name('p')] }\n\
CUBE a BY ROLLUP(p, $1, q::r) => Cube { from: 'a', rollup: true, dims: [Name('p'), Position(1), Name('q::r')] }\n\
cuBe a By RollUp(cube, GROUP) parallel 2 => Cube { from: 'a', rollup: true, dims: [Name('cube'), Name('group')] }\n\
RANK a BY b => Rank { from: 'a', keys: Fields([OrderField { field: Name('b'), dir: Asc }]), dense: false }\n\
RANK a BY b DENSE => Rank { from: 'a', keys: Fields([OrderField { field: Name('b'), dir: Asc }]), dense: true }\n\
RANK a BY b DESC DENSE => Rank { from: 'a', keys: Fields([OrderField { field: Name('b'), dir: Desc }]), dense: true }\n\
RANK a BY * => Rank { from: 'a', keys: All(Asc), dense: false }\n\
RANK a BY * DESC DENSE => Rank { from: 'a', keys: All(Desc), dense: true }\n\
rAnk a By b::c dEsc, $1, GROUP asc DenSe => Rank { from: 'a', keys: Fields([OrderField { field: Name('b::c'), dir: Desc }, OrderField { field: Position(1), dir: Asc }, OrderField { field: Name('group'), dir: Asc }]), dense: true }\n\
\x20\n\
a\n\
LOAD 'p'\n\
LOAD p AS (a)\n\
LOAD 'p' USING F AS (a)\n\
LOAD 'p' USING F() \n\
LOAD 'p' AS a\n\
LOAD 'p' AS ()\n\
LOAD 'p' AS (a) AS (b)\n\
FILTER a\n\
FILTER BY a\n\
FILTER a BY\n\
FILTER group BY b\n\
FOREACH a GENERATE\n\
FOREACH a GENERATE b,\n\
FOREACH a GENERATE b AS\n\
FOREACH a GENERATE b AS c:\n\
FOREACH a GENERATE b AS ()\n\
FOREACH a GENERATE * AS b\n\
FOREACH a GENERATE FLATTEN b\n\
FOREACH a GENERATE FLATTEN(b\n\
FOREACH a b\n\
FOREACH a { }\n\
FOREACH a { GENERATE b }\n\
FOREACH a { GENERATE b; \n\
FOREACH a { p = b; }\n\
FOREACH a { GENERATE b; p = c; }\n\
FOREACH a { p = b GENERATE c; }\n\
FOREACH a { p = b + 1; GENERATE c; }\n\
FOREACH a { p = LIMIT b c; GENERATE p; }\n\
FOREACH a { p = FILTER b; GENERATE p; }\n\
FOREACH a { p = GROUP b ALL; GENERATE p; }\n\
FOREACH a { p = RANK b BY c; GENERATE p; }\n\
FOREACH a { GENERATE b; } c\n\
GROUP a\n\
GROUP a BY\n\
GROUP a BY ()\n\
GROUP a BY (b,)\n\
GROUP a BY (b, c).d\n\
GROUP a BY (b, (c, d))\n\
GROUP a BY b c\n\
GROUP a ALL, b BY c\n\
GROUP a BY b, c ALL\n\
GROUP a BY b USING u\n\
GROUP a BY b PARALLEL\n\
GROUP a BY b PARALLEL 1L\n\
GROUP a BY b PARALLEL 1 USING 'u'\n\
GROUP a BY b INNER OUTER\n\
GROUP a BY b LEFT\n\
JOIN a BY b\n\
JOIN a BY b,\n\
JOIN a BY b OUTER, c BY d\n\
JOIN a BY b INNER, c BY d\n\
JOIN a BY b, c BY d LEFT\n\
JOIN a BY b LEFT RIGHT, c BY d\n\
JOIN a ALL, b BY c\n\
UNION a\n\
UNION ONSCHEMA a\n\
UNION a b\n\
UNION a, b PARALLEL 2\n\
UNION a, group\n\
DISTINCT\n\
DISTINCT a, b\n\
DISTINCT a 1\n\
ORDER a\n\
ORDER a BY\n\
ORDER a BY *, b\n\
ORDER a BY b c\n\
ORDER a BY 'k'\n\
ORDER a BY b + 1\n\
ORDER a BY b ASC DESC\n\
LIMIT a\n\
LIMIT a b\n\
LIMIT a - 1\n\
LIMIT a 1.5\n\
LIMIT a 1 PARALLEL 2\n\
CUBE a BY b\n\
CUBE a BY (b)\n\
CUBE a BY CUBE\n\
CUBE a BY CUBE b\n\
CUBE a BY CUBE()\n\
CUBE a BY CUBE(b,)\n\
CUBE a BY CUBE(b c)\n\
CUBE a BY CUBE(b + 1)\n\
CUBE a BY CUBE(*)\n\
CUBE a BY CUBE(b\n\
CUBE a BY GROUP(b)\n\
CUBE a BY CUBE(b), ROLLUP(c)\n\
CUBE a BY CUBE(b) USING 'u'\n\
CUBE a BY CUBE(b) PARALLEL\n\
CUBE a CUBE(b)\n\
CUBE cube BY CUBE(b)\n\
ROLLUP a BY ROLLUP(b)\n\
RANK a\n\
RANK a DENSE\n\
RANK a BY\n\
RANK a BY DENSE\n\
RANK a BY *, b\n\
RANK a BY b, DENSE\n\
RANK a BY b c\n\
RANK a BY b DENSE DENSE\n\
RANK a BY b DENSE DESC\n\
RANK a BY DENSE b\n\
RANK a BY b + 1\n\
RANK a BY 'k'\n\
RANK a BY (b, c)\n\
RANK a BY b PARALLEL 2\n\
RANK a BY b DENSE PARALLEL 2\n\
RANK a BY b USING 'u'\n\
RANK a b\n\
RANK a, b BY c\n\
RANK BY b\n\
RANK dense BY b\n\
DENSE RANK a BY b\n\
ASSERT a BY b";

// Scripts, each with its trees or the first statement that is off the grammar.
const SCRIPTS: &str = "\
\x20=> []\n\
; => [Empty]\n\
x = DISTINCT a; ;  => [Assign { alias: 'x', op: Distinct { from: 'a' } }, Empty]\n\
SPLIT a INTO b IF c; => [Split { from: 'a', branches: [Branch { alias: 'b', cond: Field(Name('c')) }], otherwise: None }]\n\
SPLIT a INTO b IF c, d IF NOT e, f OTHERWISE; => [Split { from: 'a', branches: [Branch { alias: 'b', cond: Field(Name('c')) }, Branch { alias: 'd', cond: Not(Field(Name('e'))) }], otherwise: Some('f') }]\n\
STORE a INTO 'o'; => [Store { from: 'a', path: 'o', func: None }]\n\
STORE a INTO 'o' USING F(','); => [Store { from: 'a', path: 'o', func: Some(Func { name: 'F', args: [','] }) }]\n\
ASSERT a BY b; => [Assert { from: 'a', cond: Field(Name('b')), message: None }]\n\
ASSERT a BY b > 0, 'm'; => [Assert { from: 'a', cond: Compare { op: Gt, a: Field(Name('b')), b: Int(0) }, message: Some('m') }]\n\
assert a by a IN (1, 2), 'it\\'s, 1 or 2'; => [Assert { from: 'a', cond: Chain { first: Compare { op: Eq, a: Field(Name('a')), b: Int(1) }, rest: [Link { op: Or, a: Compare { op: Eq, a: Field(Name('a')), b: Int(2) } }] }, message: Some('it\'s, 1 or 2') }]\n\
ASSERT a BY CASE WHEN b THEN c END, ''; => [Assert { from: 'a', cond: Choose { cond: Field(Name('b')), yes: Field(Name('c')), no: Null }, message: Some('') }]\n\
REGISTER 'a'; DEFINE x; STREAM; MAPREDUCE ); SAMPLE a 1; CROSS a, b; DUMP a; ILLUSTRATE; DESCRIBE a; EXPLAIN; IMPORT; SET a { ; }; => [Unsupported, Unsupported, Unsupported, Unsupported, Unsupported, Unsupported, Unsupported, Unsupported, Unsupported, Unsupported, Unsupported, Unsupported]\n\
x = CROSS a, b; y = STREAM; z = SAMPLE a 1.5; => [Unsupported, Unsupported, Unsupported]\n\
x = DISTINCT a; x = ; => syntax at 2\n\
x = DISTINCT a; ; x => syntax at 3\n\
x = DISTINCT a => syntax at 1\n\
DUMP a => syntax at 1\n\
x = DISTINCT a; y = b; z = c; => syntax at 2\n\
x; => syntax at 1\n\
x DISTINCT a; => syntax at 1\n\
x = ; => syntax at 1\n\
group = DISTINCT a; => syntax at 1\n\
cube = DISTINCT a; => syntax at 1\n\
rank = DISTINCT a; => syntax at 1\n\
dense = DISTINCT a; => syntax at 1\n\
RANK a BY b; => syntax at 1\n\
DISTINCT a; => syntax at 1\n\
a, b; => syntax at 1\n\
x = y = DUMP a; => syntax at 1\n\
SPLIT a INTO b; => syntax at 1\n\
SPLIT a INTO b IF c,; => syntax at 1\n\
SPLIT a INTO d OTHERWISE; => syntax at 1\n\
SPLIT a INTO b IF c, d OTHERWISE, e IF f; => syntax at 1\n\
SPLIT a INTO b IF c d IF e; => syntax at 1\n\
x = SPLIT a INTO b IF c; => syntax at 1\n\
STORE a INTO o; => syntax at 1\n\
STORE a INTO 'o' USING F; => syntax at 1\n\
STORE a INTO 'o' USING F('x',); => syntax at 1\n\
STORE a INTO 'o' USING F(x); => syntax at 1\n\
STORE 'o'; => syntax at 1\n\
x = STORE a INTO 'o'; => syntax at 1\n\
STORE a INTO 'o' USING 'u'; => syntax at 1\n\
ASSERT a; => syntax at 1\n\
ASSERT a BY; => syntax at 1\n\
ASSERT a BY b,; => syntax at 1\n\
ASSERT a BY b, c; => syntax at 1\n\
ASSERT a BY b, 'm', 'n'; => syntax at 1\n\
ASSERT a BY b 'm'; => syntax at 1\n\
ASSERT a, 'm' BY b; => syntax at 1\n\
ASSERT 'a' BY b; => syntax at 1\n\
x = ASSERT a BY b; => syntax at 1\n\
}{; x = DISTINCT a; => syntax at 1";

// Whole scripts, each with the number of its trees.
const COUNTED: &str = "\
a = LOAD 'in' AS (line:chararray); w = FOREACH a GENERATE FLATTEN(TOKENIZE(line)) AS word; g = GROUP w BY word PARALLEL 2; c = FOREACH g GENERATE group AS word, COUNT(w) AS n; o = ORDER c BY n DESC, word; STORE o INTO 'out'; => 6\n\
urls = LOAD 'u' USING PigStorage(',') AS (url, category:chararray, rank_of:int); good = FILTER urls BY rank_of > 2; groups = GROUP good BY category; big = FILTER groups BY COUNT(good) > 1; o = FOREACH big GENERATE group, SUM(good.rank_of); STORE o INTO 'out'; => 6\n\
z = GROUP a ALL; STORE z INTO 'all'; => 2\n\
a = LOAD 'in' AS (x:int, y:int); STORE a INTO 'out'; => 2\n\
a = LOAD 'a' AS (k:int, v:chararray); b = LOAD 'b' AS (k:int, v:chararray); g = GROUP a BY k; c = COGROUP a BY k, b BY k; j = JOIN a BY k, b BY k; f = JOIN a BY k FULL, b BY k; => 6\n\
a = LOAD 'in' AS (k:chararray, x:int); g = GROUP a BY k; o = FOREACH g GENERATE group, COUNT(a.x), COUNT_STAR(a.x), SUM(a.x), MIN(a.x); => 3\n\
i = LOAD 'in' AS (a:int, b:int); o = FOREACH i GENERATE a+1, b/2, b%2, b/0, (long)a+1; => 2\n\
a = LOAD 'in' AS (x:long); g = GROUP a ALL; o = FOREACH g GENERATE SUM(a.x); => 3\n\
t = LOAD 'in' AS (a:chararray, b:int); g = GROUP t BY b; o = FOREACH g GENERATE group, COUNT(t); => 3\n\
a = LOAD 'a' AS (k:int, v:int); b = LOAD 'b' AS (k:int, w:int); j = JOIN a BY k LEFT, b BY k; f = FILTER j BY v > 1 AND w > 2; STORE f INTO 'o';  => 5\n\
a = LOAD 'in' AS (k:int, v:chararray); o = ORDER a BY k DESC; => 2\n\
a = LOAD 'in' AS (x:int); l = LIMIT a 2; STORE l INTO 'p'; STORE l INTO 'q'; m = LIMIT a 0; n = LIMIT a 5; => 6\n\
a = LOAD 'in' AS (k:chararray, n:int, s:chararray); g = GROUP a BY k; r = FOREACH g { o = ORDER a BY n; t = LIMIT o 1; GENERATE group, t, o.(n,s); }; => 3\n\
a = LOAD 'in' AS (b:bag{t:(x:int)}, m:map[int], t:tuple(a:int,b:int)); c = LOAD 'in' USING PigStorage(',') AS (t:(a:int,b:int), c:int); => 2\n\
x = FILTER nope BY $0 == 1; y = LOAD 'no' AS (a:int); STORE y INTO 'o'; y = LOAD 'i' AS (a:float); y = LOAD 'i.gz' AS (a:int); => 5\n\
a = LOAD 'in' AS (k:int, a:{(x:int)}, b:{(y:int)}); o = FOREACH a GENERATE k, FLATTEN(a), FLATTEN(b); => 2\n\
a = LOAD 'in' AS (x:int); SPLIT a INTO b IF x > 2, c IF x < 2, d OTHERWISE; => 2\n\
a = LOAD 'a' AS (x:int); b = LOAD 'b' AS (x:long); u = UNION a, b; o = ORDER u BY x; => 4\n\
a = LOAD 'in' AS (p:chararray, y:chararray, s:int); c = CUBE a BY CUBE(p, y); r = FOREACH c GENERATE group, SUM(cube.s); => 3\n\
a = LOAD 'in' AS (k:int, v:chararray); r = RANK a BY k DESC; d = RANK a BY k DESC DENSE; o = ORDER d BY rank_a; STORE r INTO 'r'; => 5\n\
a = LOAD 'in' AS (s:chararray, t:chararray, n:int); o = FOREACH a GENERATE SIZE(s), SUBSTRING(s,1,3), SUBSTRING(s,3,9), INDEXOF(t,'na'), INDEXOF(t,'x'), ABS(n), STARTSWITH(t,'ba'), ENDSWITH(t,'ba'), CONCAT(s,t); => 2\n\
a = LOAD 'in' AS (m:map[]); o = FOREACH a GENERATE (int)m#'a' + 1, m#'zz', (m#'b' == 'x' ? 'yes' : 'no'); => 2\n\
v = LOAD 'visits' AS (user:chararray, page:chararray, time:int); g = GROUP v BY user; c = FOREACH g GENERATE group, COUNT(v) AS n, SUM(v.time) AS t; o = ORDER c BY n DESC, $0; top = LIMIT o 10; STORE top INTO 'top';  => 6";

fn shown_trees<R: Abort>(rt: &R, alloc: Global, trees: &Stmts) -> String {
    let shown = format!(in alloc; "{trees:?}").expect(rt, "memory");
    plain(alloc, shown.as_str()).expect(rt, "memory")
}

fn shown_place<R: Abort>(rt: &R, alloc: Global, statement: u32) -> String {
    format!(in alloc; "syntax at {statement}").expect(rt, "memory")
}

// The trees of a script, or `syntax at` and the number of the first statement that has none.
fn shown<R: Abort>(rt: &R, alloc: Global, script: &str) -> String {
    let found = parsed(rt, alloc, script);
    let shown = match &found {
        Answer::Trees(trees) => shown_trees(rt, alloc, trees),
        Answer::SyntaxAt(statement) => shown_place(rt, alloc, *statement),
        _ => String::from_str(alloc, "no answer").expect(rt, "memory"),
    };
    drop(found);
    shown
}

// A text between two others.
fn within<R: Abort>(rt: &R, alloc: Global, around: (&str, &str), text: &str) -> String {
    let (front, end) = around;
    format!(in alloc; "{front}{text}{end}").expect(rt, "memory")
}

// What the row of a table should show, by its tree, which stands between the two texts of `trees`.
fn wanted_of<R: Abort>(rt: &R, alloc: Global, trees: (&str, &str), tree: Option<&str>) -> String {
    match tree {
        Some(tree) => within(rt, alloc, trees, tree),
        None => String::from_str(alloc, "syntax at 1").expect(rt, "memory"),
    }
}

// The part of a row, and its tree if it has one.
fn parts(row: &str) -> (&str, Option<&str>) {
    match row.split_once(" => ") {
        Some((part, tree)) => (part, Some(tree)),
        None => (row, None),
    }
}

// The first row of a table that does not hold, with what is read there, or nothing. The part stands between the two
// texts of `script`, and its tree between those of `trees`.
fn first_wrong<R: Abort>(
    rt: &R,
    alloc: Global,
    table: &str,
    script: (&str, &str),
    trees: (&str, &str),
) -> String {
    for row in table.lines() {
        let (part, tree) = parts(row);
        let wanted = wanted_of(rt, alloc, trees, tree);
        let script = within(rt, alloc, script, part);
        let found = shown(rt, alloc, script.as_str());
        if found.as_str() != wanted.as_str() {
            return format!(in alloc; "{script}: {found}").expect(rt, "memory");
        }
    }
    String::new(alloc)
}

#[test]
fn reads_each_expression(rt: HostRuntime) {
    let script = ("x = FILTER a BY ", ";");
    let trees = (
        "[Assign { alias: 'x', op: Filter { from: 'a', cond: ",
        " } }]",
    );
    let wrong = first_wrong(&rt, rt.alloc(), EXPRESSIONS, script, trees);
    assert_eq!(rt; wrong.as_str(), "");
}

#[test]
fn reads_each_type(rt: HostRuntime) {
    let script = ("x = LOAD 'p' AS (a: ", ");");
    let trees = (
        "[Assign { alias: 'x', op: Load { path: 'p', func: None, schema: [FieldTree { name: 'a', kind: Some(",
        ") }] } }]",
    );
    let wrong = first_wrong(&rt, rt.alloc(), TYPES, script, trees);
    assert_eq!(rt; wrong.as_str(), "");
}

#[test]
fn reads_each_operator(rt: HostRuntime) {
    let script = ("x = ", ";");
    let trees = ("[Assign { alias: 'x', op: ", " }]");
    let wrong = first_wrong(&rt, rt.alloc(), OPERATORS, script, trees);
    assert_eq!(rt; wrong.as_str(), "");
}

#[test]
fn reads_each_script(rt: HostRuntime) {
    let wrong = first_wrong(&rt, rt.alloc(), SCRIPTS, ("", ""), ("", ""));
    assert_eq!(rt; wrong.as_str(), "");
}

#[test]
fn reads_whole_scripts(rt: HostRuntime) {
    let alloc = rt.alloc();
    for row in COUNTED.lines() {
        let (script, wanted) = row.split_once(" => ").unwrap_or(("", "none"));
        let number = counted(&rt, alloc, script);
        let number = format!(in alloc; "{number}").expect(&rt, "memory");
        assert_eq!(rt; number.as_str(), wanted, "{script}");
    }
}

#[test]
fn shows_faults(rt: HostRuntime) {
    let alloc = rt.alloc();
    let fault = SyntaxFault::Syntax { statement: 7 };
    let shown = format!(in alloc; "{fault}, {}", SyntaxFault::OutOfMemory);
    let shown = shown.expect(&rt, "memory");
    assert_eq!(rt;
        shown.as_str(),
        "statement 7 is off the grammar, out of memory"
    );
}
