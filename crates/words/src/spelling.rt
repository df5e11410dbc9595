ghost use Rattle.std.specs.Prelude.{◌≡◌};
ghost use Rattle.words.specs.declared.bytes.Begins.TheVariants.{Sign};
ghost use Rattle.words.specs.Spelling.{among, keywords, named, begun, front_of};

use crate::bytes::{Begins, begun_by, name_bytes};
use crate::kind::Kind;

// The longest name, in bytes.
const LONGEST_NAME: usize = 31;

// The keyword that these bytes spell, else a name.
fn keyword_or_name(bytes: &[u8]) -> Kind
    ensures { result ≡ among keywords bytes.now }
{
    match bytes {
        b"if" => Kind::If,
        b"to" => Kind::To,
        b"set" => Kind::Set,
        b"new" => Kind::New,
        b"add" => Kind::Add,
        b"rem" => Kind::Rem,
        b"else" => Kind::Else,
        b"true" => Kind::True,
        b"null" => Kind::Null,
        b"this" => Kind::This,
        b"from" => Kind::From,
        b"class" => Kind::Class,
        b"false" => Kind::False,
        b"return" => Kind::Return,
        b"extends" => Kind::Extends,
        b"boolean" => Kind::Boolean,
        b"relationship" => Kind::Relationship,
        _ => Kind::Name,
    }
}

// What a run of letters, digits and underscores is.
fn name_kind(bytes: &[u8]) -> Kind
    ensures { result ≡ named bytes.now }
{
    if bytes.len() > LONGEST_NAME {
        Kind::Fault
    } else {
        keyword_or_name(bytes)
    }
}

// A word as it stands at the front of some bytes.
#[derive(Clone, Copy)]
pub(crate) struct Front {
    pub(crate) kind: Kind,
    pub(crate) size: usize,
}

// A sign of this kind at the front: the longest sign is taken.
fn sign_front(kind: Kind, s: &[u8]) -> Front
    ensures { result ≡ begun (Sign kind) s.now }
{
    match s {
        [_, b'=', ..] if kind == Kind::Assign => Front {
            kind: Kind::Equal,
            size: 2,
        },
        _ => Front { kind, size: 1 },
    }
}

// The word at the front of bytes that begin with no separator; none where there are no bytes.
pub(crate) fn front_of(s: &[u8]) -> Option<Front>
    ensures { result ≡ front_of s.now }
{
    let first = *s.first()?;
    Some(match begun_by(first) {
        Begins::Name => {
            let size = name_bytes(s);
            Front {
                kind: name_kind(&s[0..size]),
                size,
            }
        }
        Begins::Sign(kind) => sign_front(kind, s),
        Begins::Nothing => Front {
            kind: Kind::Fault,
            size: 1,
        },
    })
}
