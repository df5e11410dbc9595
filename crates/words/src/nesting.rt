ghost use Rattle.std.specs.Prelude.{◌≡◌, ◌^◌, ◌<◌};
ghost use Rattle.words.specs.Nesting.{opens, closes};
ghost use Rattle.words.specs.Nests.{passed};

use crate::kind::Kind;

// How many brackets may be open at once.
const DEEPEST: usize = 16;

// Brackets as they stand after some words: how many are open, the most that were, and the place of the first that
// opened one too many. By default no word has been passed.
#[derive(Clone, Copy, Default)]
pub(crate) struct Nesting {
    pub(crate) depth: usize,
    pub(crate) most: usize,
    pub(crate) over: Option<usize>,
}

fn is_opener(kind: Kind) -> bool
    ensures { result ≡ opens kind }
{
    matches!(kind, Kind::OpenParen | Kind::OpenBrace)
}

fn is_closer(kind: Kind) -> bool
    ensures { result ≡ closes kind }
{
    matches!(kind, Kind::CloseParen | Kind::CloseBrace)
}

impl Nesting {
    // Passes one word, which stands at `place`.
    pub(crate) fn pass(&mut self, kind: Kind, place: usize)
        requires { self.old.depth < 2 ^ 32 }
        ensures { self.new ≡ passed self.old kind place }
    {
        if is_opener(kind) {
            if self.depth >= DEEPEST {
                self.over = self.over.or(Some(place));
            }
            self.depth += 1;
            self.most = self.most.max(self.depth);
        } else if is_closer(kind) {
            self.depth = self.depth.saturating_sub(1);
        }
    }
}
