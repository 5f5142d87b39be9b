// A token of the text by its plain record: what it is, where it begins, how many bytes it has, and,
// of a number, its value.

#[derive(Clone, Copy, PartialEq, Eq, Debug, Default)]
pub enum Sym {
    Cell,
    Var,
    Fresh,
    Main,
    In,
    If,
    Else,
    Repeat,
    Atomic,
    Together,
    BraceOpen,
    BraceClose,
    ParenOpen,
    ParenClose,
    Semicolon,
    Comma,
    Assign,
    Less,
    Same,
    Plus,
    Minus,
    Times,
    Over,
    #[default]
    Name,
    Number,
}

// The value stands beside the symbol and not in `Sym::Number`, as in a `Row`: so a symbol is compared by `==`,
// and a token becomes a row field by field.
#[derive(Clone, Copy, PartialEq, Eq, Debug, Default)]
pub struct Tok {
    pub sym: Sym,
    pub place: usize,
    pub len: usize,
    pub value: u32,
}
