// Which of several faults comes first.
ghost use Rattle.std.specs.Prelude.{◌≡◌};
ghost use Rattle.class_linker.specs.Faults as spec;

use crate::fault::Refusal;
use name_resolver::LinkKind;

fn is_before(a: Refusal, b: Refusal) -> bool
    ensures { result ≡ spec.is_before a b }
{
    a.line < b.line || (a.line == b.line && a.kind.number() < b.kind.number())
}

fn first_of(found: Option<Refusal>, new: Refusal) -> Option<Refusal>
    ensures { result ≡ spec.first_of found new }
{
    match found {
        Some(old) => {
            if is_before(new, old) {
                Some(new)
            } else {
                Some(old)
            }
        }
        None => Some(new),
    }
}

/// The first of the faults so far and that of a line, if it has one.
pub fn noted(found: Option<Refusal>, line: u32, kind: Option<LinkKind>) -> Option<Refusal>
    ensures { result ≡ spec.noted found line kind }
{
    match kind {
        Some(kind) => first_of(found, Refusal { kind, line }),
        None => found,
    }
}

/// A fault where a test holds, else what the rest says.
pub fn only_if(kind: LinkKind, is_fault: bool, rest: Option<LinkKind>) -> Option<LinkKind>
    ensures { result ≡ spec.only_if kind is_fault rest }
{
    if is_fault { Some(kind) } else { rest }
}
