//! How a line in the form that Lackey itself writes begins.

ghost use Rattle.std.specs.Prelude.{◌≡◌, ◌+◌, ◌≤◌, ◌++◌, length, IfSome};
ghost use Rattle.xl_lackey.specs.Usual.{usual_front, first_kind, is_modify};
ghost use Rattle.xl_model.specs.Base.{one_if};

use crate::digits::triple;
use crate::reference::Letter;
use xl_model::Kind;

/// How a line begins: its first three bytes, of which the first counts least, the letter among
/// them, the kind of its first access in a page, whether it is a modify, so that a store follows,
/// and how many accesses that makes in a page.
#[derive(Clone, Copy)]
pub(crate) struct Front {
    three: u32,
    pub(crate) letter: Letter,
    pub(crate) kind: Kind,
    pub(crate) is_modify: bool,
    pub(crate) count: u8,
}

const FETCH: Front = Front {
    three: b'I' as u32 + b' ' as u32 * 256 + b' ' as u32 * 65536,
    letter: Letter::I,
    kind: Kind::Fetch,
    is_modify: false,
    count: 1,
};

const LOAD: Front = Front {
    three: b' ' as u32 + b'L' as u32 * 256 + b' ' as u32 * 65536,
    letter: Letter::L,
    kind: Kind::Load,
    is_modify: false,
    count: 1,
};

const STORE: Front = Front {
    three: b' ' as u32 + b'S' as u32 * 256 + b' ' as u32 * 65536,
    letter: Letter::S,
    kind: Kind::Store,
    is_modify: false,
    count: 1,
};

const MODIFY: Front = Front {
    three: b' ' as u32 + b'M' as u32 * 256 + b' ' as u32 * 65536,
    letter: Letter::M,
    kind: Kind::Load,
    is_modify: true,
    count: 2,
};

/// Prefix table by the second byte mod 8, so without a branch: a letter, or the blank of a fetch at
/// place 0. Other places hold FETCH too.
const FRONTS: [Front; 8] = [FETCH, FETCH, FETCH, STORE, LOAD, MODIFY, FETCH, FETCH];

/// The letter of a record with the blanks around it, as Lackey writes them, and what follows them.
#[inline(always)]
pub(crate) fn front_of(text: &[u8]) -> Option<(&'static Front, &[u8])>
    requires { 4 ≤ length text.now }
    ensures front { IfSome result (λ r. text.entry.now ≡ usual_front r.0.now.letter ++ r.1.now) }
    ensures kind { IfSome result (λ r. r.0.now.kind ≡ first_kind r.0.now.letter) }
    ensures modifies { IfSome result (λ r. r.0.now.is_modify ≡ is_modify r.0.now.letter) }
    ensures count { IfSome result (λ r. r.0.now.count ≡ 1 + one_if (is_modify r.0.now.letter)) }
{
    let front = &FRONTS[(text[1] % 8) as usize];
    if triple(text) == front.three {
        Some((front, &text[3..]))
    } else {
        None
    }
}
