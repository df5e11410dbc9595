use declarations::declarations::Declarations;
use declarations::source::Source;

// A text with its tables, and what the names of its declarations mean.
#[derive(Clone, Copy)]
pub struct Typer<'a> {
    pub source: Source<'a>,
    pub declarations: &'a Declarations,
}
