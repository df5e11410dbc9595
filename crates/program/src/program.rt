ghost use Rattle.program.specs.Verdict.{Sound};

use crate::code::Code;

// A checked program: the tables of an accepted text.
#[derive(Drop)]
pub struct Program {
    pub(crate) code: Code,
    ghost accepted: { ∥ Sound code ∥₁ },
}

pub mod places;
