ghost use Rattle.std.specs.Prelude.{◌≡◌, codes};
ghost use Rattle.program.specs.Model.{model, counts_of};
ghost use Rattle.program.specs.Verdict.{Accepted};

use super::Program;
use crate::check::compile;
use crate::code::Counts;

impl Program {
    // A new place, which holds the smallest program: it answers its argument.
    pub fn new() -> Program
        ensures { Accepted (codes "class Main extends Object {boolean main(boolean b) {return b;}}") 2 result.code }
    {
        let mut scratch = [0u16; 2];
        match compile(
            b"class Main extends Object {boolean main(boolean b) {return b;}}",
            &mut scratch,
        ) {
            Ok(code) => Program { code },
            Err(_) => unreachable(),
        }
    }

    // How much of each kind there is. The roots are not counted.
    pub fn counts(&self) -> Counts
        ensures { result ≡ counts_of (model self.now.code) }
    {
        let lines = self.code.declarations.lines;
        Counts {
            classes: lines.classes.rows() - 1,
            relationships: lines.relationships.rows() - 1,
            fields: self.code.owners.len(),
            methods: self.code.dispatches.len(),
            nodes: self.code.nodes.len(),
        }
    }
}
