// The tokens of a text one by one, each with the bytes that it has in the text.
ghost use Rattle.std.specs.Prelude.{◌≡◌, ◌+◌, ◌<◌, ◌≤◌, ◌&&◌, length, drop, ◌==◌, nat_lt, slice_index};
ghost use Rattle.script.specs.Tokens.{blank, digit, part, mark, mark_of, token_of};
ghost use Rattle.lexer.specs.Plain.{bytes, plain_if, Counts, Lies, Found, Reads};

use script::fault::Fault;
use script::refusal::Refusal;
use script::token::Sym;

// A token keeps the bytes of the text itself, so that its name or its digits are never copied.
#[derive(Clone, Copy)]
pub enum Token<'a> {
    Word(&'a [u8]),
    Number(&'a [u8]),
    Mark(&'a [u8]),
}

// All before `at` is read.
#[derive(Drop)]
pub struct Lexer<'a> {
    text: &'a [u8],
    at: usize,
    ghost ok: { at ≤ length text.now },
}

// Not `is_ascii_whitespace`, which takes a form feed too.
fn is_blank(b: u8) -> bool
    ensures { result ≡ blank b }
{
    matches!(b, b' ' | b'\t' | b'\r' | b'\n')
}

fn is_digit(b: u8) -> bool
    ensures { result ≡ digit b }
{
    b.is_ascii_digit()
}

// Whether a name goes on with the byte.
fn is_part(b: u8) -> bool
    ensures { result ≡ part b }
{
    b.is_ascii_alphanumeric() || b == b'_'
}

// How many of the bytes, from the first on, pass the test.
fn run_len<F: Fn(u8) -> bool>(bytes: &[u8], test: F) -> usize
    requires { F.IsAlwaysCallable test }
    ensures value { Counts (F.post test) bytes.now result }
    ensures within { result ≤ length bytes.now }
{
    bytes.iter().take_while(|b| test(**b)).count()
}

// What a mark of one byte is, if the byte is one. The cases are characters, as the marks stand in a text.
pub(crate) fn mark_sym(b: u8) -> Option<Sym>
    ensures { result ≡ mark b }
{
    match b as char {
        '{' => Some(Sym::BraceOpen),
        '}' => Some(Sym::BraceClose),
        '(' => Some(Sym::ParenOpen),
        ')' => Some(Sym::ParenClose),
        ';' => Some(Sym::Semicolon),
        ',' => Some(Sym::Comma),
        '=' => Some(Sym::Assign),
        '<' => Some(Sym::Less),
        '+' => Some(Sym::Plus),
        '-' => Some(Sym::Minus),
        '*' => Some(Sym::Times),
        '/' => Some(Sym::Over),
        _ => None,
    }
}

// The functions below take the text and a place in it, and not the part from there on: the plain record that
// their contracts speak of has the place.

// Whether the two equals signs of `==` begin at `start`.
fn is_same(text: &[u8], start: usize) -> bool
    requires { start < length text.now }
    ensures { result ≡ (nat_lt (start + 1) (length text.now) && (slice_index text.now start == 61 && slice_index text.now (start + 1) == 61)) }
{
    text[start..].starts_with(b"==")
}

// The mark that begins at `start`: the longest that does.
fn mark_at<'a>(text: &'a [u8], start: usize) -> Option<Token<'a>>
    requires { start < length text.now }
    ensures value { plain_if result start ≡ mark_of start (slice_index text.now start) (drop (start + 1) text.now) (mark (slice_index text.now start)) }
    ensures lies { Lies text.now start result }
{
    if is_same(text, start) {
        return Some(Token::Mark(&text[start..start + 2]));
    }
    mark_sym(text[start]).map(|_| Token::Mark(&text[start..start + 1]))
}

// The token that begins at `start`: the longest that does.
fn token_at<'a>(text: &'a [u8], start: usize) -> Option<Token<'a>>
    requires { start < length text.now }
    ensures value { plain_if result start ≡ token_of start (slice_index text.now start) (drop (start + 1) text.now) }
    ensures lies { Lies text.now start result }
{
    let first = text[start];
    if is_digit(first) {
        let end = start + 1 + run_len(&text[start + 1..], is_digit);
        Some(Token::Number(&text[start..end]))
    } else if is_part(first) {
        let end = start + 1 + run_len(&text[start + 1..], is_part);
        Some(Token::Word(&text[start..end]))
    } else {
        mark_at(text, start)
    }
}

impl<'a> Token<'a> {
    // How many bytes the token has.
    fn len(self) -> usize
        ensures { result ≡ length (bytes self.entry) }
    {
        match self {
            Token::Word(text) | Token::Number(text) | Token::Mark(text) => text.len(),
        }
    }
}

// The first token from `at` on and its place; nothing where only blanks are left.
fn token_from<'a>(text: &'a [u8], at: usize) -> Result<Option<(Token<'a>, usize)>, Fault>
    requires { at ≤ length text.now }
    ensures { Found text.now at result }
{
    let start = at + run_len(&text[at..], is_blank);
    if start >= text.len() {
        return Ok(None);
    }
    match token_at(text, start) {
        Some(token) => Ok(Some((token, start))),
        None => Err(Refusal::UnknownByte.at(start)),
    }
}

impl<'a> Lexer<'a> {
    // Begins at the text's first byte.
    pub fn new(text: &'a [u8]) -> Lexer<'a>
        ensures text { result.text.now ≡ text.now }
        ensures start { result.at ≡ 0 }
    {
        Lexer { text, at: 0 }
    }

    // The next token and its place; nothing where only blanks are left. This is no `Iterator`:
    // what it promises speaks of the place where it leaves off, which it keeps at a byte that no token has.
    pub fn next(&mut self) -> Result<Option<(Token<'a>, usize)>, Fault>
        ensures read { Reads self.old.text.now self.old.at result self.new.at }
        ensures text { self.new.text.now ≡ self.old.text.now }
    {
        let Some((token, place)) = token_from(self.text, self.at)? else {
            return Ok(None);
        };
        self.at = place + token.len();
        Ok(Some((token, place)))
    }
}
