// What a reader reads, and where it stands.

/// What a reader reads: an expression, arguments, the simple statements of a line, the head or the end
/// of a block, or a file.
#[derive(Clone, Copy)]
pub enum Start {
    Expr,
    Args,
    Line,
    Header,
    File,
}

/// Where a reader stands between two tokens: how many blocks are open, whether a statement begins a
/// line, how many brackets are open, how many of them belong to the head of a `def`, how many lambdas
/// outside brackets wait for their colon, whether a `for` waits for its `in`, and the line where the
/// outermost open expression begins, or 0.
#[derive(Clone, Copy)]
pub struct Stand {
    pub opened: u32,
    pub begins: bool,
    pub depth: u32,
    pub base: u32,
    pub lambdas: u32,
    pub walks: bool,
    pub line: u32,
}
