// What holds of every reading, and readings worked out.
ghost use Rattle.reader.specs.Examples.{WorkedReadings};
ghost use Rattle.reader.specs.Laws.{AlwaysUtf8, TrailingChangesNothing, PlacesDoNotMatter, SilentAddsNothing};

// A promise and no more. Content is UTF-8; CR, LF and NUL after a record change nothing, nor does layout between tokens; a silent group adds nothing.
pub fn laws_of_reading()
    ensures utf8 { AlwaysUtf8 }
    ensures trailing { TrailingChangesNothing }
    ensures layout { PlacesDoNotMatter }
    ensures silent { SilentAddsNothing }
{}

// A promise and no more: the worked readings come as written.
pub fn readings_as_worked()
    ensures { WorkedReadings }
{}
