// Which names a row declares or mentions.
ghost use Rattle.std.specs.Prelude.{◌≡◌};
ghost use Rattle.script.specs.Roles.{declares_cell, declares_local, declares, mentions};

use script::row::Role;

pub(crate) fn declares_cell(role: Role) -> bool
    ensures { result ≡ declares_cell role }
{
    role == Role::CellName
}

pub(crate) fn declares_local(role: Role) -> bool
    ensures { result ≡ declares_local role }
{
    matches!(role, Role::VarName | Role::FreshName)
}

pub(crate) fn declares_name(role: Role) -> bool
    ensures { result ≡ declares role }
{
    declares_cell(role) || declares_local(role)
}

pub(crate) fn mentions_name(role: Role) -> bool
    ensures { result ≡ mentions role }
{
    matches!(role, Role::Target | Role::Operand | Role::Listed)
}
