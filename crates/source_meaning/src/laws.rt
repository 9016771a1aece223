ghost use Rattle.source_meaning.specs.SourceLaws.{EventsGrow, StaysOver, OneReading};

/// Laws of every run of a source program.
pub fn runs_go_on()
    ensures events_grow { EventsGrow }
    ensures stays_over { StaysOver }
{}

/// A law of every text of rules: it is written from one program at most.
pub fn texts_have_one_reading()
    ensures { OneReading }
{}
