ghost use Rattle.std.specs.Prelude.{◌≡◌};
ghost use Rattle.std.specs.Result.{result_err};
ghost use Rattle.outline.specs.Contents.{contents};
ghost use Rattle.declarations.specs.Faults.{misdeclared_of, Judged};
ghost use Rattle.declarations.specs.Resolved.{declared};

use crate::declarations::Declarations;
use crate::refusal::Misdeclared;
use crate::source::Source;

// Refuses, where there is a refusal.
fn refuse(refusal: Option<Misdeclared>) -> Result<(), Misdeclared>
    ensures { result_err result ≡ refusal }
{
    refusal.map_or(Ok(()), Err)
}

impl<'a> Source<'a> {
    // The first kind of fault that occurs, at its first place.
    #[tactic(auto, unfolding(crate::specs::Faults::misdeclared_of))]
    fn refuse_faults(&self, declarations: &Declarations) -> Result<(), Misdeclared>
        ensures { result_err result ≡ misdeclared_of self.now.text.now (contents self.now.outline.now) (declared declarations.now) }
    {
        let lines = &declarations.lines;
        refuse(self.first_taken().map(Misdeclared::NameTaken))?;
        refuse(self.first_missing().map(Misdeclared::NotDeclared))?;
        refuse(self.first_clash(lines).map(Misdeclared::Clash))?;
        refuse(
            self.first_end_misfit(declarations)
                .map(Misdeclared::EndMisfit),
        )?;
        refuse(
            self.first_override_misfit(declarations)
                .map(Misdeclared::OverrideMisfit),
        )?;
        if !self.main_stands(declarations) {
            return Err(Misdeclared::NoMain);
        }
        refuse(self.first_too_many(lines).map(Misdeclared::TooManyFields))
    }

    // Whether the declarations have no fault; else the first kind of fault that occurs, at its first place.
    pub fn judge_declarations(&self, declarations: &Declarations) -> Result<(), Misdeclared>
        ensures same { result_err result ≡ misdeclared_of self.now.text.now (contents self.now.outline.now) (declared declarations.now) }
        ensures first { Judged self.now.text.now (contents self.now.outline.now) (declared declarations.now) result }
    {
        self.refuse_faults(declarations)
    }
}
