//! Which argument of which call may be spelled otherwise than in version 2.
ghost use Rattle.std.specs.Prelude.{◌≡◌};
ghost use Rattle.tx_translate.specs.Roles.{role_at, role_in_sigaction, role_of};

use crate::spellings::is;

/// How an argument may be spelled.
#[derive(Clone, Copy)]
pub enum Role {
    /// As in version 2.
    Other,
    /// Bytes, as a string, or as hex digits of either case.
    Bytes,
    /// A signal, by its name.
    Signal,
    /// Signals, by name or number, in any order.
    Set,
}

/// The role of the argument of a call at a place, from 0.
#[inline(always)] // each argument of a line needs it
pub fn role_of(name: &[u8], place: usize) -> Role
    ensures { result ≡ role_of name.now place }
{
    if is(name, b"store") {
        return role_at(1, Role::Bytes, place);
    }
    if is(name, b"deliver") {
        return role_at(0, Role::Signal, place);
    }
    if is(name, b"kill") {
        return role_at(1, Role::Signal, place);
    }
    if is(name, b"sigqueue") {
        return role_at(1, Role::Signal, place);
    }
    if is(name, b"sigaction") {
        return role_in_sigaction(place);
    }
    if is(name, b"sigprocmask") {
        return role_at(1, Role::Set, place);
    }
    Role::Other
}

/// The role at that place.
fn role_at(at: usize, role: Role, place: usize) -> Role
    ensures { result ≡ role_at at role place }
{
    if place == at { role } else { Role::Other }
}

/// The role of an argument of a sigaction: `S catch POINT SET`.
fn role_in_sigaction(place: usize) -> Role
    ensures { result ≡ role_in_sigaction place }
{
    if place == 3 {
        return Role::Set;
    }
    role_at(0, Role::Signal, place)
}
