ghost use Rattle.std.specs.Prelude.{◌≡◌, Decides};
ghost use Rattle.descent.specs.Rows.{line_of};
ghost use Rattle.values.specs.Admits.{FitLaws};
ghost use Rattle.values.specs.Fits.{Fits, RowFits, fits_to, kind_fits_to, line_in, row_fits_to};
ghost use Rattle.values.specs.Lines.{ancestry};

use super::Lines;
use crate::types::{Kind, Lineage, Ty};
use descent::line::Line;

impl Lines {
    // The line of a lineage.
    #[tactic(auto, unfolding(crate::specs::Lines::ancestry))]
    pub fn line(&self, lineage: Lineage) -> &Line
        ensures { line_of result.now ≡ line_in (ancestry self.now) lineage }
    {
        match lineage {
            Lineage::Class => &self.classes,
            Lineage::Relationship => &self.relationships,
        }
    }

    // Whether row m of one line fits row n of the same or another line.
    pub fn row_fits(&self, from: Lineage, m: u8, to: Lineage, n: u8) -> bool
        ensures relation { Decides result (RowFits (ancestry self.now) from m to n) }
        ensures same { result ≡ row_fits_to (ancestry self.now) from m to n }
    {
        if from == to {
            return self.line(from).descends(m, n);
        }
        match from {
            Lineage::Class => false,
            Lineage::Relationship => n == 0 && m < self.relationships.rows(),
        }
    }

    // The same of two types that differ.
    fn kind_fits(&self, s: Ty, t: Ty) -> bool
        ensures { result ≡ kind_fits_to (ancestry self.now) s.kind s.row t.kind t.row }
    {
        match (s.kind(), t.kind()) {
            (Kind::Row(k), Kind::Row(l)) | (Kind::Set(k), Kind::Set(l)) => {
                self.row_fits(k, s.row(), l, t.row())
            }
            (Kind::Null, Kind::Row(_)) => true,
            _ => false,
        }
    }

    // Whether a value of type `s` may stand where `t` is declared.
    pub fn fits(&self, s: Ty, t: Ty) -> bool
        ensures relation { Decides result (Fits (ancestry self.now) s t) }
        ensures same { result ≡ fits_to (ancestry self.now) s t }
        ensures laws { FitLaws (ancestry self.now) }
    {
        s == t || self.kind_fits(s, t)
    }
}
