// Texts of whole code: their trees, or why and on which line they are refused. Each line of a table is a text and behind `=>` what
// is due; a line's end in either is written `⏎`, and a line that begins with `//` says what stands below it. Where several tokens of
// a text that is refused could be meant, each stands on a line of its own.
ghost use Rattle.std.specs.Prelude.{◌≡◌, true};
ghost use Rattle.star_grammar.specs.Tokens.{ends};

use crate::whole::{shown_args, shown_code, shown_header, shown_statements};
use star_read::{read_args, read_expr, read_file, read_header, read_simple};
use star_token::{Tokens, file_tokens, tokens};
use std::alloc::Global;
use std::test::Fail;
use test_shown::{Differing, Shown, shown_stop, unfolded};
use ytt_base::fault::Stop;
use ytt_base::text::{Memory, Text};

/// What a text is read as.
#[derive(Clone, Copy)]
enum As {
    Expr,
    Args,
    Line,
    Header,
    File,
}

/// A file's code as it is read.
fn read_whole(alloc: Global, text: &Text) -> Result<String, Stop> {
    let found = file_tokens(alloc, text.as_str(), 2)?;
    file_in(alloc, &found)
}

fn file_in(alloc: Global, found: &Tokens) -> Result<String, Stop>
    requires { ends found.now.tokens ≡ true }
{
    let file = read_file(alloc, found)?;
    Ok(shown_statements(alloc, &file.code)?)
}

fn expr_in(alloc: Global, found: &Tokens) -> Result<String, Stop>
    requires { ends found.now.tokens ≡ true }
{
    let expr = read_expr(alloc, found)?;
    Ok(shown_code(alloc, expr.get())?)
}

fn args_in(alloc: Global, found: &Tokens) -> Result<String, Stop>
    requires { ends found.now.tokens ≡ true }
{
    let args = read_args(alloc, found)?;
    Ok(shown_args(alloc, &args)?)
}

fn line_in(alloc: Global, found: &Tokens) -> Result<String, Stop>
    requires { ends found.now.tokens ≡ true }
{
    let line = read_simple(alloc, found)?;
    Ok(shown_statements(alloc, &line.code)?)
}

fn header_in(alloc: Global, found: &Tokens) -> Result<String, Stop>
    requires { ends found.now.tokens ≡ true }
{
    let header = read_header(alloc, found)?;
    Ok(shown_header(alloc, &header)?)
}

/// A comment's code as it is read.
fn read_comment(alloc: Global, kind: As, text: &Text) -> Result<String, Stop> {
    let found = tokens(alloc, text.as_str(), 2, 1)?;
    match kind {
        As::Expr | As::File => expr_in(alloc, &found),
        As::Args => args_in(alloc, &found),
        As::Line => line_in(alloc, &found),
        As::Header => header_in(alloc, &found),
    }
}

fn read(alloc: Global, kind: As, text: &str) -> Result<String, Stop> {
    let text = Text::of(alloc, text)?;
    match kind {
        As::File => read_whole(alloc, &text),
        _ => read_comment(alloc, kind, &text),
    }
}

fn answer(alloc: Global, kind: As, text: &str) -> Result<String, Fail> {
    match read(alloc, kind, text) {
        Ok(shown) => Ok(shown),
        Err(stop) => Ok(shown_stop(alloc, &stop)?),
    }
}

/// Expressions.
const EXPRESSIONS: &str = "\
// integers
0 => 0
12 => 12
0x7f => 127
0xFf => 255
0o17 => 15
170141183460469231731687303715884105727 => 170141183460469231731687303715884105727
0x7fffffffffffffffffffffffffffffff => 170141183460469231731687303715884105727
1if x else 2 => (if x 1 2)
0or 1 => (or 0 1)
// texts
'a' => 'a'
\"a'b\" => 'a'b'
'' => ''
'''a''b''' => 'a''b'
\"\"\"a\"\"\" => 'a'
r'a\\n' => 'a\\n'
r'\\' => '\\'
r\"\"\"\\\"\"\" => '\\'
'\\a\\b\\f\\n\\r\\t\\v' => '\u{7}\u{8}\u{c}⏎\r\t\u{b}'
'\\\\\\'\\\"' => '\\'\"'
'\\x41\\x7F' => 'A\u{7f}'
'\\u00e9\\u20AC' => 'é€'
'\\U0001F600\\U0010FFFF' => '😀\u{10FFFF}'
'é' => 'é'
// names
x => x
_a1 => _a1
None => None
iff => iff
 \ta  => a
// `or`, `and`, `not`
a or b or c => (or (or a b) c)
a or b and c => (or a (and b c))
a and b or c => (or (and a b) c)
a and b and c => (and (and a b) c)
not a and b => (and (not a) b)
a and not b => (and a (not b))
not not a => (not (not a))
not a == b => (not (== a b))
not a in b => (not (in a b))
// comparisons
a == b => (== a b)
a != b => (!= a b)
a < b => (< a b)
a > b => (> a b)
a <= b => (<= a b)
a >= b => (>= a b)
a in b => (in a b)
a not in b => (not-in a b)
a == (b == c) => (== a (== b c))
a < b | c => (< a (| b c))
a | b < c => (< (| a b) c)
// operators between operands, each beside its neighbours
a | b | c => (| (| a b) c)
a | b ^ c => (| a (^ b c))
a ^ b | c => (| (^ a b) c)
a ^ b ^ c => (^ (^ a b) c)
a ^ b & c => (^ a (& b c))
a & b ^ c => (^ (& a b) c)
a & b & c => (& (& a b) c)
a & b << c => (& a (<< b c))
a << b & c => (& (<< a b) c)
a << b >> c => (>> (<< a b) c)
a << b + c => (<< a (+ b c))
a - b >> c => (>> (- a b) c)
a - b + c => (+ (- a b) c)
a + b * c => (+ a (* b c))
a * b - c => (- (* a b) c)
a * b // c % d => (% (// (* a b) c) d)
a % -b => (% a (- b))
-a * b => (* (- a) b)
2--1 => (- 2 (- 1))
-+~a => (- (+ (~ a)))
-a.b => (- (. a b))
-a[0] => (- (at a 0))
~a(b) => (~ (call a b))
// conditionals and lambdas
a if b else c => (if b a c)
a if b else c if d else e => (if b a (if d c e))
a or b if c or d else e => (if (or c d) (or a b) e)
a if (b if c else d) else e => (if (if c b d) a e)
a if b else lambda: c => (if b a (lambda : c))
lambda: 1 => (lambda : 1)
lambda x: x => (lambda x : x)
lambda x,: x => (lambda x : x)
lambda x, *a, y=1, **k: x => (lambda x *a y=1 **k : x)
lambda x, y=1, *, z, w=2: x => (lambda x y=1 * z w=2 : x)
lambda *: 1 => (lambda * : 1)
lambda None: 1 => (lambda None : 1)
lambda x: lambda y: x => (lambda x : (lambda y : x))
lambda x: x if y else z => (lambda x : (if y x z))
lambda x=lambda: 1: x => (lambda x=(lambda : 1) : x)
lambda x=lambda x, y=1: x, y=2: x => (lambda x=(lambda x y=1 : x) y=2 : x)
// attributes, calls, indices, slices
a.b.c => (. (. a b) c)
a.None => (. a None)
'a'.b => (. 'a' b)
(1).a => (. 1 a)
a() => (call a)
a(b)(c) => (call (call a b) c)
a(b,) => (call a b)
f(a, *b, c=1, **d) => (call f a (* b) c=1 (** d))
f(a=1, b) => (call f a=1 b)
f(None=1) => (call f None=1)
f(a == b) => (call f (== a b))
f(a if b else c) => (call f (if b a c))
f((a, b)) => (call f (tuple a b))
a[0] => (at a 0)
a[0, 1] => (at a (tuple 0 1))
a[b,] => (at a (tuple b))
x[1:2:3] => (slice x 1 2 3)
x[:] => (slice x _ _ _)
x[::] => (slice x _ _ _)
x[1:] => (slice x 1 _ _)
x[:2] => (slice x _ 2 _)
x[::3] => (slice x _ _ 3)
x[1::3] => (slice x 1 _ 3)
a.b()[0].c => (. (at (call (. a b)) 0) c)
// displays
() => (tuple)
(a) => a
(a,) => (tuple a)
(a, b) => (tuple a b)
a, b => (tuple a b)
a, => (tuple a)
[] => (list)
[a, b] => (list a b)
[a,] => (list a)
[(a, b)] => (list (tuple a b))
{} => (dict)
{a: b, c: d,} => (dict a:b c:d)
{a: b if c else d} => (dict a:(if c b d))
// comprehensions
[x for x in a if b if c] => (list-for x for x a if b if c)
[x for x in a for y in b] => (list-for x for x a for y b)
{k: v for k, v in d} => (dict-for k v for (tuple k v) d)
[x if y else z for x in a] => (list-for (if y x z) for x a)
[x for x in (a if b else c)] => (list-for x for x (if b a c))
[x for (y, z) in a] => (list-for x for (tuple y z) a)
[x for [y, z] in a] => (list-for x for (list y z) a)
[x for x.y[0] in a] => (list-for x for (at (. x y) 0) a)
[x for x, in a] => (list-for x for (tuple x) a)
// lines: what begins on another line tells it
(a +⏎b) => (+ a b@2)
(a⏎+ b) => (+@2 a b@2)
(a⏎if b⏎else c) => (if@2 b@2 a c@3)
(a⏎.b) => (.@2 a b)
f(⏎x=1) => (call f x@2=1@2)
(⏎a, b) => (tuple a@2 b@2)
[⏎x⏎for x in a] => (list-for x@2 for x@3 a@3)
// refused: tokens
017 => error: CodeForm at b.yml:1
00 => error: CodeForm at b.yml:1
0o8 => error: CodeForm at b.yml:1
0X1 => error: CodeForm at b.yml:1
1.5 => error: FloatRefused at b.yml:1
1. => error: FloatRefused at b.yml:1
1e3 => error: FloatRefused at b.yml:1
1E+3 => error: FloatRefused at b.yml:1
(a⏎, .5) => error: FloatRefused at b.yml:2
x.5 => error: FloatRefused at b.yml:1
a / b => error: FloatRefused at b.yml:1
170141183460469231731687303715884105728 => error: IntWide at b.yml:1
0x80000000000000000000000000000000 => error: IntWide at b.yml:1
'\\x80' => error: CodeForm at b.yml:1
'\\x4' => error: CodeForm at b.yml:1
'\\uD800' => error: CodeForm at b.yml:1
'\\U00110000' => error: CodeForm at b.yml:1
'\\q' => error: CodeForm at b.yml:1
(⏎'a => error: CodeForm at b.yml:2
'a⏎b' => error: CodeForm at b.yml:1
'''a⏎b''' => error: CodeForm at b.yml:1
(⏎while) => error: CodeForm at b.yml:2
as => error: CodeForm at b.yml:1
is => error: CodeForm at b.yml:1
yield => error: CodeForm at b.yml:1
é => error: CodeForm at b.yml:1
$ => error: CodeForm at b.yml:1
a # b => error: CodeForm at b.yml:1
a\r => error: CodeForm at b.yml:1
// refused: expressions
 => error: CodeForm at b.yml:1
a b => error: CodeForm at b.yml:1
'a' 'b' => error: CodeForm at b.yml:1
a⏎b => error: CodeForm at b.yml:1
(a⏎ => error: CodeForm at b.yml:2
(a or⏎) => error: CodeForm at b.yml:2
(a or⏎lambda: b) => error: CodeForm at b.yml:2
(a and⏎or b) => error: CodeForm at b.yml:2
(a ==⏎not b) => error: CodeForm at b.yml:2
(a == b⏎== c) => error: CodeForm at b.yml:2
(a < b⏎in c) => error: CodeForm at b.yml:2
(a⏎not⏎== b) => error: CodeForm at b.yml:3
(a +⏎* b) => error: CodeForm at b.yml:2
(a *⏎not b) => error: CodeForm at b.yml:2
(a if b⏎) => error: CodeForm at b.yml:2
(a if b⏎if c else d else e) => error: CodeForm at b.yml:2
(a if b else⏎) => error: CodeForm at b.yml:2
(lambda x,⏎x: 1) => error: CodeForm at b.yml:2
(lambda x=1, y⏎: x) => error: CodeForm at b.yml:2
(lambda **k,⏎x: 1) => error: CodeForm at b.yml:2
(lambda *a,⏎*b: 1) => error: CodeForm at b.yml:2
(lambda *a, b,⏎a: 1) => error: CodeForm at b.yml:2
(lambda x=1,⏎x=2: 1) => error: CodeForm at b.yml:2
(lambda a, **⏎a: 1) => error: CodeForm at b.yml:2
(lambda a=lambda b: b,⏎a: 1) => error: CodeForm at b.yml:2
(lambda⏎(x): 1) => error: CodeForm at b.yml:2
(a.⏎if) => error: CodeForm at b.yml:2
(a.⏎1) => error: CodeForm at b.yml:2
f(⏎,) => error: CodeForm at b.yml:2
f((a)⏎=1) => error: CodeForm at b.yml:2
f(a.b⏎=1) => error: CodeForm at b.yml:2
f(a=⏎*b) => error: CodeForm at b.yml:2
f(x⏎for x in y) => error: CodeForm at b.yml:2
a[⏎] => error: CodeForm at b.yml:2
a[1:2:3⏎:4] => error: CodeForm at b.yml:2
a[1, 2⏎:3] => error: CodeForm at b.yml:2
(a,⏎,b) => error: CodeForm at b.yml:2
[⏎,] => error: CodeForm at b.yml:2
[a⏎) => error: CodeForm at b.yml:2
{a⏎} => error: CodeForm at b.yml:2
{a: b⏎: c} => error: CodeForm at b.yml:2
{⏎**a} => error: CodeForm at b.yml:2
{a: b,⏎c} => error: CodeForm at b.yml:2
// refused: comprehensions
[x for x in a⏎, b] => error: CodeForm at b.yml:2
[x for x in a if b⏎else c] => error: CodeForm at b.yml:2
[x for x in⏎lambda: 1] => error: CodeForm at b.yml:2
[x, y⏎for x in a] => error: CodeForm at b.yml:2
[x for x⏎] => error: CodeForm at b.yml:2
[x for 1⏎in a] => error: CodeForm at b.yml:2
[x for None⏎in a] => error: CodeForm at b.yml:2
[x for x.y⏎in a] => error: CodeForm at b.yml:2
[x for f(x)⏎in a] => error: CodeForm at b.yml:2
[x for ()⏎in a] => error: CodeForm at b.yml:2
[x⏎if y] => error: CodeForm at b.yml:2
";

/// Arguments in a comment.
const ARGS: &str = "\
// read
 => (args)
a => (args a)
a, b=1, *c, **d, => (args a b=1 (* c) (** d))
(a, b), [c] => (args (tuple a b) (list c))
// refused
, a => error: CodeForm at b.yml:1
a b => error: CodeForm at b.yml:1
a⏎ => error: CodeForm at b.yml:1
";

/// Simple statements in a comment.
const LINES: &str = "\
// read
a = 1 => (= a 1)
a, b = b, a => (= (tuple a b) (tuple b a))
a, = b => (= (tuple a) b)
(a, b) = c => (= (tuple a b) c)
[a, (b, c)] = d => (= (list a (tuple b c)) d)
a[0] = 1 => (= (at a 0) 1)
a.b[0] = 1 => (= (at (. a b) 0) 1)
f(a)[0], b = 1 => (= (tuple (at (call f a) 0) b) 1)
(a) = 1 => (= a 1)
a = b if c else d => (= a (if c b d))
(a) += 1 => (+= a 1)
a[0] -= 1, 2 => (-= (at a 0) (tuple 1 2))
a *= 1 => (*= a 1)
a //= 1 => (//= a 1)
a %= 1 => (%= a 1)
a &= 1 => (&= a 1)
a |= 1 => (|= a 1)
a ^= 1 => (^= a 1)
a <<= 1 => (<<= a 1)
a >>= 1 => (>>= a 1)
a; b => (do a) | (do b)
a; => (do a)
a⏎ => (do a)
⏎⏎a⏎⏎ => (do@3 a@3)
a, b => (do (tuple a b))
return => (return None)
return a, b => (return (tuple a b))
break; continue; pass => break | continue | pass
load('p') => (load 'p')
load('p', 'a') => (load 'p' a=a)
load('p', 'a', b='c',) => (load 'p' a=a b=c)
load('p', None='c') => (load 'p' None=c)
// refused
a /= b => error: FloatRefused at b.yml:1
(x = =⏎1.5) => error: FloatRefused at b.yml:2
 => error: CodeForm at b.yml:1
;a => error: CodeForm at b.yml:1
a;;b => error: CodeForm at b.yml:1
a⏎b => error: CodeForm at b.yml:2
(a⏎+ 1⏎) = 2 => error: CodeForm at b.yml:3
(a.b⏎) = 1 => error: CodeForm at b.yml:2
(None⏎) = 1 => error: CodeForm at b.yml:2
f(⏎) = 1 => error: CodeForm at b.yml:2
a[1:⏎2] = 1 => error: CodeForm at b.yml:2
(a, 1⏎) = 2 => error: CodeForm at b.yml:2
[⏎] = 2 => error: CodeForm at b.yml:2
a = (b⏎) = c => error: CodeForm at b.yml:2
(a,⏎b) += 1 => error: CodeForm at b.yml:2
a += (b⏎) += c => error: CodeForm at b.yml:2
load(⏎a) => error: CodeForm at b.yml:2
load('p', a⏎) => error: CodeForm at b.yml:2
load('p', a=⏎b) => error: CodeForm at b.yml:2
load('p' 'a') => error: CodeForm at b.yml:1
if a: => error: CodeForm at b.yml:1
end => error: CodeForm at b.yml:1
";

/// Heads and ends of blocks in a comment.
const HEADERS: &str = "\
// read
if a: => (if a)
if a:⏎ => (if a)
if (a, b): => (if (tuple a b))
elif a or b: => (elif (or a b))
else: => else
end => end
for x in y: => (for x y)
for x, y in a, b: => (for (tuple x y) (tuple a b))
for x[0] in y: => (for (at x 0) y)
def f(): => (def f)
def None(): => (def None)
def f(x, y=1, *, z, **k): => (def f x y=1 * z **k)
def f(a=lambda x: x, *b): => (def f a=(lambda x : x) *b)
// refused
if (a⏎): b => error: CodeForm at b.yml:2
if (a⏎), b: => error: CodeForm at b.yml:2
if a => error: CodeForm at b.yml:1
else a: => error: CodeForm at b.yml:1
for x in y => error: CodeForm at b.yml:1
for x.y in z: => error: CodeForm at b.yml:1
for True in z: => error: CodeForm at b.yml:1
def f(a,⏎a): => error: CodeForm at b.yml:2
def f(x=1, y⏎): => error: CodeForm at b.yml:2
def f.g(): => error: CodeForm at b.yml:1
pass => error: CodeForm at b.yml:1
end: => error: CodeForm at b.yml:1
";

/// Files of code.
const FILES: &str = "\
// read
 =>
⏎⏎ =>
# c =>
x = 1 => (= x 1)
x = 1; y = 2;⏎ => (= x 1) | (= y 2)
# c⏎x = 1 # d⏎⏎ => (=@2 x@2 1@2)
x = (1,⏎# c⏎2)⏎ => (= x (tuple 1 2@3))
x = '''a⏎b'''⏎y => (= x 'a⏎b') | (do@3 y@3)
x = '''a\\⏎b'''⏎y => (= x 'ab') | (do@3 y@3)
load('p', 'a')⏎ => (load 'p' a=a)
def f(x):⏎  return x⏎end⏎ => (def f x) | (return@2 x@2) | end@3
def f():⏎end => (def f) | end@2
if a:⏎  b⏎elif c:⏎  d⏎else:⏎  e⏎end⏎ => (if a) | (do@2 b@2) | (elif@3 c@3) | (do@4 d@4) | else@5 | (do@6 e@6) | end@7
if a:⏎elif b:⏎elif c:⏎end⏎ => (if a) | (elif@2 b@2) | (elif@3 c@3) | end@4
for x in y:⏎  if x: # c⏎    break⏎  end⏎  continue⏎end⏎ => (for x y) | (if@2 x@2) | break@3 | end@4 | continue@5 | end@6
def f():⏎  for x in y:⏎    return⏎  end⏎end⏎f()⏎ => (def f) | (for@2 x@2 y@2) | (return@3 None@3) | end@4 | end@5 | (do@6 (call@6 f@6))
for x in y:⏎  def f():⏎    for z in x:⏎      break⏎    end⏎  end⏎end⏎ => (for x y) | (def@2 f) | (for@3 z@3 x@3) | break@4 | end@5 | end@6 | end@7
// refused
x = 1⏎y = 'a\\⏎b' => error: CodeForm at b.yml:2
x = '''a⏎b => error: CodeForm at b.yml:1
return 1⏎ => error: CodeForm at b.yml:1
x = 1⏎break⏎ => error: CodeForm at b.yml:2
def f():⏎  break⏎end⏎ => error: CodeForm at b.yml:2
for x in y:⏎  return⏎end⏎ => error: CodeForm at b.yml:2
for x in y:⏎  def f():⏎    continue⏎  end⏎end⏎ => error: CodeForm at b.yml:3
if a:⏎  load('p', 'a')⏎end⏎ => error: CodeForm at b.yml:2
def f(x):⏎  return x⏎ => error: CodeForm at b.yml:3
end⏎ => error: CodeForm at b.yml:1
if a: b⏎ => error: CodeForm at b.yml:1
if a:⏎  b⏎else:⏎  c⏎else:⏎  d⏎end⏎ => error: CodeForm at b.yml:5
if a:⏎  b⏎else:⏎  c⏎elif d:⏎end⏎ => error: CodeForm at b.yml:5
for x in y:⏎else:⏎end⏎ => error: CodeForm at b.yml:2
def f():⏎end x⏎ => error: CodeForm at b.yml:2
";

/// Compares what the text of a row is read as with what is due.
fn compare_row(alloc: Global, wrong: &mut Differing, kind: As, row: &str) -> Result<(), Fail> {
    let (text, due) = row.split_once(" =>").ok_or("a row without what is due")?;
    let text = unfolded(alloc, text)?;
    let is = answer(alloc, kind, text.as_str())?;
    let due = unfolded(alloc, due.strip_prefix(" ").unwrap_or(""))?;
    wrong.compare(row, is.as_str(), due.as_str());
    Ok(())
}

/// Compares the rows of a table.
fn compare_all(alloc: Global, wrong: &mut Differing, kind: As, table: &str) -> Result<(), Fail> {
    for row in table.lines() {
        if !row.starts_with("//") {
            compare_row(alloc, wrong, kind, row)?;
        }
    }
    Ok(())
}

/// Compares the rows of all tables.
fn compare_tables(alloc: Global, wrong: &mut Differing) -> Result<(), Fail> {
    compare_all(alloc, wrong, As::Expr, EXPRESSIONS)?;
    compare_all(alloc, wrong, As::Args, ARGS)?;
    compare_all(alloc, wrong, As::Line, LINES)?;
    compare_all(alloc, wrong, As::Header, HEADERS)?;
    compare_all(alloc, wrong, As::File, FILES)
}

#[test]
fn code_is_read_or_refused(rt: HostRuntime) -> Result<(), Fail> {
    let alloc = rt.alloc();
    let mut wrong = Differing::new(alloc);
    compare_tables(alloc, &mut wrong)?;
    assert_eq!(rt; wrong.take()?.as_str(), "");
    Ok(())
}

/// A text before so many of one, a text, and as many of another: as what it is read, and whether that is the line on which it is
/// too deep, or 0 where it is read.
const DEEP: &[(As, u32, &str, &str, &str, u32)] = &[
    // a literal in brackets is one level, and so is each pair
    (As::Expr, 99, "(", "1", ")", 0),
    (As::Expr, 100, "(", "1", ")", 1),
    (As::Expr, 100, "[", "", "]", 0),
    (As::Expr, 101, "[", "", "]", 1),
    (As::Expr, 99, "-", "1", "", 0),
    (As::Expr, 100, "-", "1", "", 1),
    (As::Expr, 99, "not ", "a", "", 0),
    (As::Expr, 100, "not ", "a", "", 1),
    (As::Expr, 99, "lambda: ", "a", "", 0),
    (As::Expr, 100, "lambda: ", "a", "", 1),
    (As::Expr, 99, "f(", "a", ")", 0),
    (As::Expr, 100, "f(", "a", ")", 1),
    (As::Line, 99, "[", "a", "]", 0),
    (As::Line, 100, "[", "a", "]", 1),
    (As::File, 99, "{1:", "2", "}", 0),
    (As::File, 100, "{1:", "2", "}", 1),
    // fifty blocks
    (As::File, 50, "if a:\n", "b\n", "end\n", 0),
    (As::File, 51, "if a:\n", "b\n", "end\n", 51),
    (As::File, 50, "for a in b:\n", "", "end\n", 0),
    (As::File, 51, "for a in b:\n", "", "end\n", 51),
];

/// A text of so many of one, another, and as many of a third.
fn nested(
    alloc: Global,
    count: u32,
    front: &str,
    inside: &str,
    back: &str,
) -> Result<String, Memory> {
    let mut text = Shown::new(alloc);
    for _ in 0..count {
        text.put(front);
    }
    text.put(inside);
    for _ in 0..count {
        text.put(back);
    }
    text.take()
}

/// What is due of a text that is too deep on this line.
fn too_deep(alloc: Global, line: u32) -> Result<String, Memory> {
    let mut due = Shown::new(alloc);
    due.put("error: TooDeep at b.yml:");
    due.put_number(i128::from(line));
    due.take()
}

/// Whether a text is read, where the line is 0, and else is too deep on this line.
fn is_as_deep(alloc: Global, kind: As, text: &str, line: u32) -> Result<bool, Fail> {
    let is = answer(alloc, kind, text)?;
    if line == 0 {
        return Ok(!is.starts_with("error"));
    }
    let due = too_deep(alloc, line)?;
    Ok(is.as_str() == due.as_str())
}

#[test]
fn code_is_too_deep(rt: HostRuntime) -> Result<(), Fail> {
    let alloc = rt.alloc();
    for (kind, count, front, inside, back, line) in DEEP {
        let text = nested(alloc, *count, front, inside, back)?;
        let is_due = is_as_deep(alloc, *kind, text.as_str(), *line)?;
        assert!(rt; is_due, "{count} times {front}");
    }
    Ok(())
}
