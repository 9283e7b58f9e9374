// Laws that follow from the definitions alone.
ghost use Rattle.midi_clip.specs.Laws.{ClipsAreTheDefinition};
ghost use Rattle.midi_clip.specs.Worked.Rows.{WorkedRows};

/// Proves that adding packets one at a time agrees with the definition that looks back over all of them.
/// They agree on the packets at which the clip started and ended, on what one more packet is to it (at the
/// sum of the Delta Clockstamps since its start), and on the number of ticks at which it ended. A fault
/// leaves the clip unchanged.
pub fn clips_are_the_definition()
    ensures { ClipsAreTheDefinition }
{}

/// Proves that the definitions compute the worked rows.
pub fn worked_rows()
    ensures { WorkedRows }
{}
