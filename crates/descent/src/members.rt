ghost use Rattle.std.specs.Prelude.{◌≡◌, ℕ, Option};
ghost use Rattle.descent.specs.Nearest.{Computes, Found, nearest_up};
ghost use Rattle.descent.specs.Rows.{line_of};

use crate::line::Line;

// The nearest row upward from `row` that has a member, with the member; `member` answers what a row has, if anything.
// A caller names the function that its closure computes, and the clauses speak of that function.
pub fn nearest<T, F: Fn(u8) -> Option<T>>(line: &Line, row: u8, member: F) -> Option<(u8, T)>
    requires { F.IsAlwaysCallable member }
    ensures found { (m : ℕ → Option T) → Computes (F.post member) m → Found (line_of line.now) m row result }
    ensures same { (m : ℕ → Option T) → Computes (F.post member) m → result ≡ nearest_up (line_of line.now) m row }
{
    if row >= line.rows() {
        return None;
    }
    let mut at = row;
    loop {
        if let Some(m) = member(at) {
            return Some((at, m));
        }
        at = line.parent(at)?;
    }
}
