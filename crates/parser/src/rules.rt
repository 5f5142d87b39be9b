// What each token does to the reader's state, by what is wanted: the grammar as a table.
ghost use Rattle.std.specs.Prelude.{◌≡◌};
ghost use Rattle.parser.specs.Machine.{rule, decl, block, stmt, over, source, operand, more, finish, closed, closing};

use crate::machine::{Ends, Frame, Mark, Move, Want};
use script::row::Role;
use script::token::Sym;

// A declaration, or main.
fn decl_rule(sym: Sym) -> Move
    ensures { result ≡ decl sym }
{
    match sym {
        Sym::Cell => Move::Stay(Role::CellWord, Want::CellName),
        Sym::Var => Move::Stay(Role::VarWord, Want::VarName),
        Sym::Fresh => Move::Stay(Role::FreshWord, Want::FreshName),
        Sym::Main => Move::Stay(Role::MainWord, Want::MainOpen),
        _ => Move::Refuse,
    }
}

// The brace that opens a block.
fn open_rule(role: Role, frame: Frame, sym: Sym) -> Move
    ensures { result ≡ block role frame sym }
{
    match sym {
        Sym::BraceOpen => Move::Push(role, frame, Want::Stmt),
        _ => Move::Refuse,
    }
}

// A statement, or the end of the block.
fn stmt_rule(sym: Sym) -> Move
    ensures { result ≡ stmt sym }
{
    match sym {
        Sym::Name => Move::Stay(Role::Target, Want::Becomes),
        Sym::If => Move::Stay(Role::IfWord, Want::Operand(Ends::Brace, false)),
        Sym::Repeat => Move::Stay(Role::RepeatWord, Want::Count),
        Sym::Atomic => Move::Stay(Role::AtomicWord, Want::RegionOpen),
        Sym::Together => Move::Stay(Role::TogetherWord, Want::Listed),
        Sym::BraceClose => Move::Pop(Mark::Brace),
        _ => Move::Refuse,
    }
}

// After an if's first block: an else, or what comes after any statement.
fn over_rule(sym: Sym) -> Move
    ensures { result ≡ over sym }
{
    match sym {
        Sym::Else => Move::Stay(Role::ElseWord, Want::ElseOpen),
        _ => stmt_rule(sym),
    }
}

// The first token of a factor.
fn operand_rule(ends: Ends, compared: bool, sym: Sym) -> Move
    ensures { result ≡ operand ends compared sym }
{
    match sym {
        Sym::Number => Move::Stay(Role::Literal, Want::More(ends, compared)),
        Sym::Minus => Move::Stay(Role::Negate, Want::Negated(ends, compared)),
        Sym::Name => Move::Stay(Role::Operand, Want::More(ends, compared)),
        Sym::ParenOpen => Move::Push(
            Role::ParenOpen,
            Frame::Paren(ends, compared),
            Want::Operand(Ends::Paren, false),
        ),
        _ => Move::Refuse,
    }
}

// What a name becomes: an input, or an expression.
fn source_rule(sym: Sym) -> Move
    ensures { result ≡ source sym }
{
    match sym {
        Sym::In => Move::Stay(Role::InWord, Want::Channel),
        _ => operand_rule(Ends::Semi, false, sym),
    }
}

// What ends an expression.
fn end_rule(ends: Ends, sym: Sym) -> Move
    ensures { result ≡ finish ends sym }
{
    match (ends, sym) {
        (Ends::Semi, Sym::Semicolon) => Move::Stay(Role::SetEnd, Want::Stmt),
        (Ends::Brace, Sym::BraceOpen) => Move::Push(Role::ThenOpen, Frame::Then, Want::Stmt),
        (Ends::Paren, Sym::ParenClose) => Move::Pop(Mark::Paren),
        _ => Move::Refuse,
    }
}

// What follows a factor: an operator, or the end of the expression.
fn more_rule(ends: Ends, compared: bool, sym: Sym) -> Move
    ensures { result ≡ more ends compared sym }
{
    match (sym, compared) {
        (Sym::Times, _) => Move::Stay(Role::Times, Want::Operand(ends, compared)),
        (Sym::Over, _) => Move::Stay(Role::Over, Want::Operand(ends, compared)),
        (Sym::Plus, _) => Move::Stay(Role::Plus, Want::Operand(ends, compared)),
        (Sym::Minus, _) => Move::Stay(Role::Minus, Want::Operand(ends, compared)),
        (Sym::Less, false) => Move::Stay(Role::Less, Want::Operand(ends, true)),
        (Sym::Same, false) => Move::Stay(Role::Same, Want::Operand(ends, true)),
        _ => end_rule(ends, sym),
    }
}

// The move of a token, by what is wanted.
pub(crate) fn rule_of(want: Want, sym: Sym) -> Move
    ensures { result ≡ rule want sym }
{
    match (want, sym) {
        (Want::Decl, _) => decl_rule(sym),
        (Want::CellName, Sym::Name) => Move::Stay(Role::CellName, Want::CellIs),
        (Want::CellIs, Sym::Assign) => Move::Stay(Role::CellIs, Want::CellValue),
        (Want::CellValue, Sym::Minus) => Move::Stay(Role::CellMinus, Want::CellNumber),
        (Want::CellValue, Sym::Number) => Move::Stay(Role::CellNumber, Want::CellEnd),
        (Want::CellNumber, Sym::Number) => Move::Stay(Role::CellNumber, Want::CellEnd),
        (Want::CellEnd, Sym::Semicolon) => Move::Stay(Role::CellEnd, Want::Decl),
        (Want::VarName, Sym::Name) => Move::Stay(Role::VarName, Want::VarEnd),
        (Want::VarEnd, Sym::Semicolon) => Move::Stay(Role::VarEnd, Want::Decl),
        (Want::FreshName, Sym::Name) => Move::Stay(Role::FreshName, Want::FreshEnd),
        (Want::FreshEnd, Sym::Semicolon) => Move::Stay(Role::FreshEnd, Want::Decl),
        (Want::MainOpen, _) => open_rule(Role::MainOpen, Frame::Main, sym),
        (Want::Stmt, _) => stmt_rule(sym),
        (Want::Over, _) => over_rule(sym),
        (Want::Becomes, Sym::Assign) => Move::Stay(Role::Becomes, Want::Source),
        (Want::Source, _) => source_rule(sym),
        (Want::Channel, Sym::Number) => Move::Stay(Role::Channel, Want::ReadEnd),
        (Want::ReadEnd, Sym::Semicolon) => Move::Stay(Role::ReadEnd, Want::Stmt),
        (Want::Operand(ends, compared), _) => operand_rule(ends, compared, sym),
        (Want::Negated(e, c), Sym::Number) => Move::Stay(Role::Negated, Want::More(e, c)),
        (Want::More(ends, compared), _) => more_rule(ends, compared, sym),
        (Want::Count, Sym::Number) => Move::Stay(Role::Count, Want::BodyOpen),
        (Want::BodyOpen, _) => open_rule(Role::BodyOpen, Frame::Body, sym),
        (Want::RegionOpen, _) => open_rule(Role::RegionOpen, Frame::Region, sym),
        (Want::ElseOpen, _) => open_rule(Role::ElseOpen, Frame::Other, sym),
        (Want::Listed, Sym::Name) => Move::Stay(Role::Listed, Want::ListMore),
        (Want::ListMore, Sym::Comma) => Move::Stay(Role::Comma, Want::Listed),
        (Want::ListMore, Sym::Semicolon) => Move::Stay(Role::TogetherEnd, Want::Stmt),
        _ => Move::Refuse,
    }
}

// What is wanted once a mark has closed what is open, which must be of its own kind.
pub(crate) fn closed_to(mark: Mark, frame: Frame) -> Option<Want>
    ensures { result ≡ closed mark frame }
{
    match (mark, frame) {
        (Mark::Brace, Frame::Main) => Some(Want::End),
        (Mark::Brace, Frame::Then) => Some(Want::Over),
        (Mark::Brace, Frame::Other | Frame::Body | Frame::Region) => Some(Want::Stmt),
        (Mark::Paren, Frame::Paren(ends, compared)) => Some(Want::More(ends, compared)),
        _ => None,
    }
}

// The role of the closing mark: that of an if's first block tells whether an else follows.
pub(crate) fn closing_of(frame: Frame, other: bool) -> Role
    ensures { result ≡ closing frame other }
{
    match frame {
        Frame::Main => Role::MainClose,
        Frame::Then => {
            if other {
                Role::ThenClose
            } else {
                Role::WhenClose
            }
        }
        Frame::Other => Role::ElseClose,
        Frame::Body => Role::BodyClose,
        Frame::Region => Role::RegionClose,
        Frame::Paren(_, _) => Role::ParenClose,
    }
}
