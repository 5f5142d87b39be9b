// The state of the reader: what it wants next, and the braces and parentheses that are open.
use list::fixed::Fixed;
use script::row::Role;

// How many braces and parentheses can be open at once.
pub const DEEPEST: usize = 16;

// What ends the expression that is being read.
#[derive(Clone, Copy, PartialEq, Eq)]
pub enum Ends {
    Semi,
    Brace,
    Paren,
}

// What is wanted next. In an expression the flag says that its comparison is already read. It and what
// ends the expression are no struct of their own: `Want::Operand(ends, true)` would then be
// `Want::Operand(Within { compared: true, ..within })`.
#[derive(Clone, Copy, PartialEq, Eq)]
pub enum Want {
    Decl,
    CellName,
    CellIs,
    CellValue,
    CellNumber,
    CellEnd,
    VarName,
    VarEnd,
    FreshName,
    FreshEnd,
    MainOpen,
    Stmt,
    Over,
    Becomes,
    Source,
    Channel,
    ReadEnd,
    Operand(Ends, bool),
    Negated(Ends, bool),
    More(Ends, bool),
    Count,
    BodyOpen,
    RegionOpen,
    ElseOpen,
    Listed,
    ListMore,
    End,
}

// What is open: a block by what it belongs to, or a parenthesis with the expression around it.
#[derive(Clone, Copy, Default)]
pub enum Frame {
    #[default]
    Main,
    Then,
    Other,
    Body,
    Region,
    Paren(Ends, bool),
}

// Which of the two closing marks a token is.
#[derive(Clone, Copy)]
pub enum Mark {
    Brace,
    Paren,
}

#[derive(Clone, Copy)]
pub enum Move {
    Stay(Role, Want),
    Push(Role, Frame, Want),
    Pop(Mark),
    Refuse,
}

#[derive(Clone, Copy)]
pub struct Machine {
    pub want: Want,
    pub stack: Fixed<Frame, DEEPEST>,
}
