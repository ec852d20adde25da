// Where a reader stands between two tokens.
ghost use Rattle.std.specs.Prelude.{◌≡◌, ◌&&◌, if◌then◌else◌, nat_le};
ghost use Rattle.star_grammar.specs.Standing as spec;

use star_grammar::{Kind, Stand, Start};

/// How many blocks may be open.
const MAX_BLOCKS: u32 = 50;

/// Where the first token stands.
pub fn at_first() -> Stand
    ensures { result ≡ spec.at_first }
{
    Stand {
        opened: 0,
        begins: true,
        depth: 0,
        base: 0,
        lambdas: 0,
        walks: false,
        line: 0,
    }
}

fn is_outside(stand: Stand) -> bool
    ensures { result ≡ spec.is_outside stand }
{
    stand.depth <= stand.base && stand.lambdas == 0
}

fn ends_targets(stand: Stand) -> bool
    ensures { result ≡ spec.ends_targets stand }
{
    stand.walks && stand.depth == 0
}

fn parts_arguments(stand: Stand, kind: Kind) -> bool
    ensures { result ≡ spec.parts_arguments stand kind }
{
    match kind {
        Kind::Comma => is_outside(stand),
        _ => false,
    }
}

fn parts_code(stand: Stand, kind: Kind) -> bool
    ensures { result ≡ spec.parts_code stand kind }
{
    match kind {
        Kind::Assign => is_outside(stand),
        Kind::Augment | Kind::Semicolon | Kind::LineEnd | Kind::Return | Kind::Elif | Kind::Def =>
            true,
        Kind::If | Kind::For => stand.begins,
        Kind::In => ends_targets(stand),
        _ => false,
    }
}

/// Whether another expression begins behind such a token.
fn parts(start: Start, stand: Stand, kind: Kind) -> bool
    ensures { result ≡ spec.parts start stand kind }
{
    match start {
        Start::Args => parts_arguments(stand, kind),
        _ => parts_code(stand, kind),
    }
}

fn is_opener(kind: Kind) -> bool
    ensures { result ≡ spec.is_opener kind }
{
    matches!(kind, Kind::Def | Kind::If | Kind::For)
}

/// Whether such a token opens a block.
fn opens(stand: Stand, kind: Kind) -> bool
    ensures { result ≡ (stand.begins && spec.is_opener kind) }
{
    stand.begins && is_opener(kind)
}

fn opened_after(stand: Stand, kind: Kind) -> u32
    ensures { result ≡ spec.opened_after stand kind }
{
    match kind {
        Kind::EndWord => stand.opened.saturating_sub(1),
        _ => {
            if opens(stand, kind) {
                stand.opened.saturating_add(1)
            } else {
                stand.opened
            }
        }
    }
}

fn depth_after(stand: Stand, kind: Kind) -> u32
    ensures { result ≡ spec.depth_after stand kind }
{
    match kind {
        Kind::Open | Kind::OpenBracket | Kind::OpenBrace => stand.depth.saturating_add(1),
        Kind::Close | Kind::CloseBracket | Kind::CloseBrace => stand.depth.saturating_sub(1),
        _ => stand.depth,
    }
}

fn base_after(stand: Stand, kind: Kind) -> u32
    ensures { result ≡ spec.base_after stand kind }
{
    match kind {
        Kind::Def => 1,
        Kind::LineEnd => 0,
        _ => stand.base,
    }
}

/// So many lambdas, changed where no bracket of an expression is open.
fn lambdas_or(stand: Stand, changed: u32) -> u32
    ensures { result ≡ (if nat_le stand.depth stand.base then changed else stand.lambdas) }
{
    if stand.depth <= stand.base {
        changed
    } else {
        stand.lambdas
    }
}

fn lambdas_after(stand: Stand, kind: Kind) -> u32
    ensures { result ≡ spec.lambdas_after stand kind }
{
    match kind {
        Kind::Lambda => lambdas_or(stand, stand.lambdas.saturating_add(1)),
        Kind::Colon => lambdas_or(stand, stand.lambdas.saturating_sub(1)),
        _ => stand.lambdas,
    }
}

fn walks_after(stand: Stand, kind: Kind) -> bool
    ensures { result ≡ spec.walks_after stand kind }
{
    match kind {
        Kind::For => stand.begins || stand.walks,
        Kind::In => stand.walks && !ends_targets(stand),
        _ => stand.walks,
    }
}

fn line_after(start: Start, stand: Stand, kind: Kind, line: u32) -> u32
    ensures { result ≡ spec.line_after start stand kind line }
{
    if parts(start, stand, kind) {
        0
    } else if stand.line == 0 {
        line
    } else {
        stand.line
    }
}

fn is_line_end(kind: Kind) -> bool
    ensures { result ≡ spec.is_line_end kind }
{
    matches!(kind, Kind::LineEnd)
}

/// Where the next token stands, behind one of this kind on this line.
pub fn stand_after(start: Start, stand: Stand, kind: Kind, line: u32) -> Stand
    ensures { result ≡ spec.stand_after start stand kind line }
{
    Stand {
        opened: opened_after(stand, kind),
        begins: is_line_end(kind),
        depth: depth_after(stand, kind),
        base: base_after(stand, kind),
        lambdas: lambdas_after(stand, kind),
        walks: walks_after(stand, kind),
        line: line_after(start, stand, kind, line),
    }
}

/// Whether such a token would open one block more than may be open.
pub fn opens_too_many(stand: Stand, kind: Kind) -> bool
    ensures { result ≡ spec.opens_too_many stand kind }
{
    stand.begins && is_opener(kind) && stand.opened == MAX_BLOCKS
}
