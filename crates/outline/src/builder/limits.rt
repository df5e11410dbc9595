ghost use Rattle.std.specs.Prelude.{◌≡◌};
ghost use Rattle.outline.specs.Built.{Empty, passes, limit_of};

use super::{Builder, Tally};
use crate::contents::Outline;
use crate::limit::{
    CLASSES, FIELDS, HEIGHT, LIMITS, Limit, METHODS, NODES, RELATIONSHIPS, VARIABLES,
};
use tables::table::Table;

impl Builder {
    // Before the first event.
    pub(crate) fn new() -> Builder
        ensures { Empty result }
    {
        Builder {
            outline: Outline {
                classes: Table::new(),
                relationships: Table::new(),
                fields: Table::new(),
                methods: Table::new(),
                variables: Table::new(),
                nodes: Table::new(),
                blocks: Table::new(),
            },
            opened: Table::new(),
            tally: Tally::default(),
        }
    }

    // Whether the counts pass a limit.
    fn passes(&self, limit: Limit) -> bool
        ensures { result ≡ passes self.now.tally limit }
    {
        let tally = self.tally;
        match limit {
            Limit::Classes => usize::from(tally.classes) > CLASSES,
            Limit::Relationships => usize::from(tally.relationships) > RELATIONSHIPS,
            Limit::Fields => usize::from(tally.fields) > FIELDS,
            Limit::Methods => usize::from(tally.methods) > METHODS,
            Limit::Variables => usize::from(tally.most) > VARIABLES,
            Limit::Nodes => usize::from(tally.nodes) > NODES,
            Limit::Height => usize::from(tally.tallest) > HEIGHT,
        }
    }

    // The first limit that is passed.
    pub(crate) fn limit(&self) -> Option<Limit>
        ensures { result ≡ limit_of self.now.tally }
    {
        LIMITS.iter().copied().find(|limit| self.passes(*limit))
    }

    // The tables alone.
    pub(crate) fn into_outline(self) -> Outline
        ensures { result ≡ self.outline }
    {
        let Builder { outline, .. } = self;
        outline
    }
}
