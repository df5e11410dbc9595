ghost use Rattle.std.specs.Prelude.{◌≡◌};
ghost use Rattle.grammar.specs.declared.event.Event.{Event as Reported};

use crate::event::Event;

// What takes a parser's events: it says what each event does to it.
pub trait Sink {
    // the state after an event
    ghost after: { Self → Reported → Self };

    fn put(&mut self, event: Event)
        ensures { self.new ≡ after self.old event };
}

// Takes events and keeps none: for judging a text alone.
#[derive(Clone, Copy)]
pub struct Nowhere;

impl Sink for Nowhere {
    ghost after = { λ s e. s };

    fn put(&mut self, _event: Event) {}
}
