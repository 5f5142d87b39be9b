// What a row is, by its role.
ghost use Rattle.std.specs.Prelude.{◌≡◌};
ghost use Rattle.place.specs.Rows.{head_of, part, opens, closes};

use crate::types::Head;
use script::row::Role;

// What a run finds at a row of the role.
pub fn head_of(role: Role) -> Head
    ensures { result ≡ head_of role }
{
    match role {
        Role::Target => Head::Target,
        Role::IfWord => Head::If,
        Role::RepeatWord => Head::Repeat,
        Role::AtomicWord => Head::Region,
        Role::TogetherWord => Head::Together,
        Role::WhenClose | Role::ElseClose => Head::EndIf,
        Role::ThenClose => Head::EndThen,
        Role::BodyClose => Head::EndBody,
        Role::RegionClose => Head::EndRegion,
        _ => Head::Other,
    }
}

// Whether the role is a part of an expression, or of the names that a together lists.
pub(crate) fn is_part(role: Role) -> bool
    ensures { result ≡ part role }
{
    matches!(
        role,
        Role::Operand
            | Role::Literal
            | Role::Negate
            | Role::Negated
            | Role::ParenOpen
            | Role::ParenClose
            | Role::Times
            | Role::Over
            | Role::Plus
            | Role::Minus
            | Role::Less
            | Role::Same
            | Role::Listed
            | Role::Comma
    )
}

// Whether the role opens a block inside main.
pub(crate) fn is_opening(role: Role) -> bool
    ensures { result ≡ opens role }
{
    matches!(
        role,
        Role::ThenOpen | Role::ElseOpen | Role::BodyOpen | Role::RegionOpen
    )
}

// Whether the role closes one.
pub(crate) fn is_closing(role: Role) -> bool
    ensures { result ≡ closes role }
{
    matches!(
        role,
        Role::WhenClose
            | Role::ThenClose
            | Role::ElseClose
            | Role::BodyClose
            | Role::RegionClose
            | Role::MainClose
    )
}
