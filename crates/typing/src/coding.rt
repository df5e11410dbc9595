ghost use Rattle.std.specs.Prelude.{◌≡◌, Some};
ghost use Rattle.typing.specs.Coding.{decoded, row_code};

use values::types::{Kind, Lineage, Ty};

// Types stand as numbers where they are kept between nodes: the scratch is lent memory of 16-bit entries.

// The type that a number stands for.
pub(crate) fn decode(n: u16) -> Option<Ty>
    ensures { result ≡ decoded n }
{
    match n {
        1 => Some(Ty::boolean()),
        2 => Some(Ty::null()),
        256..=511 => Some(Ty::of_row(Lineage::Class, (n - 256) as u8)),
        512..=767 => Some(Ty::of_row(Lineage::Relationship, (n - 512) as u8)),
        768..=1023 => Some(Ty::set_of(Lineage::Class, (n - 768) as u8)),
        1024..=1279 => Some(Ty::set_of(Lineage::Relationship, (n - 1024) as u8)),
        _ => None,
    }
}

fn row_code(lineage: Lineage, row: u8) -> u16
    ensures { result ≡ row_code lineage row }
{
    match lineage {
        Lineage::Class => 256 + row as u16,
        Lineage::Relationship => 512 + row as u16,
    }
}

fn type_code(t: Ty) -> u16
    ensures { decoded result ≡ Some t }
{
    match t.kind() {
        Kind::Boolean => 1,
        Kind::Null => 2,
        Kind::Row(lineage) => row_code(lineage, t.row()),
        Kind::Set(lineage) => row_code(lineage, t.row()) + 512,
    }
}

// A number that stands for the type.
pub(crate) fn encode(t: Option<Ty>) -> u16
    ensures { decoded result ≡ t }
{
    match t {
        None => 0,
        Some(t) => type_code(t),
    }
}
