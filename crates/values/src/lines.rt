use descent::line::Line;

// The lines of descent whose rows are types. Class row 0 is Object.
#[derive(Clone, Copy)]
pub struct Lines {
    pub classes: Line,
    pub relationships: Line,
}

pub mod fitting;
