// The laws of the encoding, each the contract of a function.
ghost use Rattle.encoding.specs.ReadBack.{ShortestIsShortest, FieldsReadBack, NeverLonger};
ghost use Rattle.encoding.specs.Spelling.{FieldsAreAsSpelt};
ghost use Rattle.encoding.specs.TwoSinks.{SinksAgree};
ghost use Rattle.encoding.specs.VarUint.{VarUintsAreAsSpelt};

// What is read as a number is what the bytes spell, both ways.
pub fn var_uints_are_as_spelt()
    ensures { VarUintsAreAsSpelt }
{}

// What is read as a field is what the bytes spell, both ways.
pub fn fields_are_as_spelt()
    ensures { FieldsAreAsSpelt }
{}

// What the counter says of bytes, the filler does.
pub fn sinks_agree()
    ensures { SinksAgree }
{}

// A number is written in a spelling of its own, and no other is shorter.
pub fn shortest_is_shortest()
    ensures { ShortestIsShortest }
{}

// What is written reads back, whatever bytes follow.
pub fn fields_read_back()
    ensures { FieldsReadBack }
{}

// What was read is never longer when it is written again.
pub fn never_longer()
    ensures { NeverLonger }
{}
