ghost use Rattle.std.specs.Prelude.{length};
ghost use Rattle.words.specs.Words.{words};
ghost use Rattle.grammar.specs.Exact.{Parses};

use crate::parser::Parser;
pub use crate::parser::reading::Unexpected;
use crate::sink::Sink;

// Reads a text as a program, and reports it: accepted exactly where the text's words are those of a tree, which is then
// the only one, and else refused at the first word that cannot come. After a refusal nothing is promised of the sink.
// Brackets are read by recursion, so whoever calls this bounds their depth first.
pub(crate) fn parse<S: Sink>(text: &[u8], sink: &mut S) -> Result<(), Unexpected>
    ensures { Parses S.Sink.after (words text.now) (length text.now) sink.old result sink.new }
{
    let mut parser = Parser::new(text);
    parser.program(sink)
}
